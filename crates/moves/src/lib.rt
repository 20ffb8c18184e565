// The runs that the growing index displaces: those that start among the first g blocks. A table tells for each such block
// 0 where no run starts, else the run's new place.
// Kept: 0 stands for no run. An Option<u32> would double the table, 32,768 numbers on the stack, which include/pdic.h bounds.
#![tactic(auto)]

ghost use Rattle.std.specs.Prelude.{◌≡◌, [], ◌∷◌, ◌++◌, map, ◌+◌, ◌*◌, ◌≤◌, ◌<◌, max, length, get_or, take, drop};
ghost use Rattle.index.specs.Walk as walk;
ghost use Rattle.marks.specs.Marks.{marks};
ghost use Rattle.placing.specs.Spread.{Within};
ghost use Rattle.spec.specs.Lists.{All};
ghost use Rattle.spec.specs.Header.{block_position};
ghost use Rattle.moves.specs.Moved.{noted, starts, size_at, freed, moved_to, tabled, moved_written};

use header::Area;
use index::Elements;

// Notes in the table that a run starts at block b, where that is one of the table's.
fn note(numbers: &mut [u32], b: usize)
    ensures numbers_after { numbers.new ≡ noted (length numbers.old) (b ∷ []) numbers.old }
    ensures numbers_len_unchanged { length numbers.new ≡ length numbers.old }
{
    if b < numbers.len() {
        numbers[b] = 1;
    }
}

// Notes in the table where the runs of these elements start, of those that start at a block of it.
pub fn note_starts(elements: Elements, numbers: &mut [u32])
    ensures numbers_after { numbers.new ≡ noted (length numbers.old) (map (λ e. e.block) (walk.elements elements.entry)) numbers.old }
    ensures numbers_len_unchanged { length numbers.new ≡ length numbers.old }
{
    for element in elements {
        note(numbers, element.number);
    }
}

// The number of blocks of the run at block b; 1 where it breaks row 7.
fn size_at(area: Area, b: usize) -> usize
    ensures value { result ≡ size_at area.entry.bytes.now area.entry.blocks b }
    ensures lower_bound { (1 ≤ result) × (result ≤ 32767) × (b + result ≤ max area.entry.blocks (b + 1)) }
{
    runs::run_size(area, b).unwrap_or(1)
}

// Marks the blocks of all displaced runs as free.
pub fn free_moved(area: Area, numbers: &[u32], free: &mut [u64])
    requires d_bound { (area.blocks ≤ 64 * length free.old) × (length numbers.now ≤ 64 * length free.old) }
    ensures free_after { marks free.new ≡ freed area.entry.bytes.now area.entry.blocks (starts 0 (length numbers.now) numbers.now) (marks free.old) }
    ensures free_len_unchanged { length free.new ≡ length free.old }
{
    for (b, number) in numbers.iter().enumerate() {
        if *number != 0 {
            marks::mark_range(free, b, size_at(area, b));
        }
    }
}

// Places the run at block b, if one starts there, among the blocks g to end - 1, or from `end` on; answers the end then.
fn place_one(
    area: Area,
    numbers: &mut [u32],
    g: usize,
    b: usize,
    free: &mut [u64],
    end: usize,
) -> usize
    requires d_in_bounds { b < length numbers.old }
    requires g_le_end { (g ≤ end) × (end ≤ 16777215) × (end + 32767 ≤ 64 * length free.old) }
    ensures value { result ≡ (moved_to area.entry.bytes.now area.entry.blocks g end (marks free.old) (starts b 1 numbers.old)).end }
    ensures free_after { marks free.new ≡ (moved_to area.entry.bytes.now area.entry.blocks g end (marks free.old) (starts b 1 numbers.old)).free }
    ensures numbers_after { numbers.new ≡ tabled (starts b 1 numbers.old)
        (moved_to area.entry.bytes.now area.entry.blocks g end (marks free.old) (starts b 1 numbers.old)).places numbers.old }
    ensures free_len_unchanged { (length free.new ≡ length free.old) × (length numbers.new ≡ length numbers.old) × (end ≤ result) }
{
    if numbers[b] == 0 {
        return end;
    }
    let size = size_at(area, b);
    let p = placing::place(free, g, end, size);
    numbers[b] = p as u32;
    end.max(p + size)
}

// Places all displaced runs in order of their old numbers, behind the blocks of the table; answers the end then. Stops where that
// passes the limit.
pub fn place_moved(
    area: Area,
    numbers: &mut [u32],
    free: &mut [u64],
    end: usize,
    limit: usize,
) -> usize
    requires g_le_end { (length numbers.old ≤ end) × (end ≤ limit) × (limit ≤ 16777215) × (limit + 32767 ≤ 64 * length free.old) }
    ensures within { Within limit (moved_to area.entry.bytes.now area.entry.blocks (length numbers.old) end (marks free.old) (starts 0 (length numbers.old) numbers.old))
        result (marks free.new) }
    ensures numbers_after { result ≤ limit → numbers.new ≡ tabled (starts 0 (length numbers.old) numbers.old)
        (moved_to area.entry.bytes.now area.entry.blocks (length numbers.old) end (marks free.old) (starts 0 (length numbers.old) numbers.old)).places numbers.old }
    ensures free_len_unchanged { (length free.new ≡ length free.old) × (length numbers.new ≡ length numbers.old) × (end ≤ result) }
{
    let g = numbers.len();
    let mut last = end;
    for b in 0..g {
        last = place_one(area, numbers, g, b, free, last);
        if limit < last {
            return last;
        }
    }
    last
}

// Copies all displaced runs from the old data area to their new places in the image, behind an extended header of so many bytes and so
// many index blocks.
pub fn copy_moved(image: &mut [u8], extended: usize, index: usize, area: Area, numbers: &[u32])
    requires all { All (λ b. (b < area.blocks) × (block_position extended index (get_or numbers.now b 0 + size_at area.bytes.now area.blocks b) ≤ length image.old))
        (starts 0 (length numbers.now) numbers.now) }
    ensures image_after { image.new ≡ take (block_position extended index 0) image.old
        ++ moved_written area.entry.bytes.now area.entry.blocks numbers.now (starts 0 (length numbers.now) numbers.now) (drop (block_position extended index 0) image.old) }
    ensures image_len_unchanged { length image.new ≡ length image.old }
{
    for (b, number) in numbers.iter().enumerate() {
        if *number != 0 {
            let p = *number as usize;
            let at = header::position(extended, index, p);
            byteops::copy(image, at, area.bytes, 256 * b, 256 * size_at(area, b));
        }
    }
}
