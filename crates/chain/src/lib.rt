// The free list as it is written, ascending: the chain of the paper.
#![tactic(auto)]

ghost use Rattle.std.specs.Prelude.{◌≡◌, ◌++◌, ◌-◌, ◌*◌, ◌≤◌, length, take, drop};
ghost use Rattle.spec.specs.Header.{block_position};
ghost use Rattle.spec.specs.Blocks.{free_list_start, free_list_written};
ghost use Rattle.marks.specs.Marks.{marks};
ghost use Rattle.chain.specs.Numbers.{numbers, link_to};

use byteops::LIST_END;

// The number of block b, block g being number 0; the end of the list where b is not below d.
fn link(b: usize, g: usize, d: usize) -> usize
    requires { g ≤ b }
    ensures { result ≡ link_to b g d }
{
    // Kept: the number of the end is the format's own (docs/FORMAT.md, a free block).
    if b < d { b - g } else { LIST_END }
}

// Writes the list of the marked blocks among g to d - 1, block g being number 0: each link at its block's position in the image, behind
// an extended header of so many bytes and so many index blocks. Answers its first number.
pub fn write_free_list(
    image: &mut [u8],
    extended: usize,
    index: usize,
    free: &[u64],
    g: usize,
    d: usize,
) -> usize
    requires { (g ≤ d) × (d ≤ 64 * length free.now) × (block_position extended index (d - g) ≤ length image.old) }
    ensures image_after { image.new ≡ take (block_position extended index 0) image.old
        ++ free_list_written (numbers 0 (take (d - g) (drop g (marks free.now)))) (drop (block_position extended index 0) image.old) }
    ensures value { result ≡ free_list_start (numbers 0 (take (d - g) (drop g (marks free.now)))) }
    ensures image_len_unchanged { length image.new ≡ length image.old }
{
    let first = marks::next_marked(free, g, d);
    let mut b = first;
    // Kept: a walk from marked block to marked block, which counts nothing.
    while b < d {
        let next = marks::next_marked(free, b + 1, d);
        let at = header::position(extended, index, b - g);
        byteops::write_u16(image, at, 0);
        byteops::write_u32(image, at + 2, link(next, g, d));
        b = next;
    }
    link(first, g, d)
}
