// The free list of an image: its numbers one after the other, each block marked.
#![tactic(auto)]

ghost use Rattle.std.specs.Prelude.{◌≡◌, true, ◌*◌, ◌≤◌, length};
ghost use Rattle.spec.specs.Blocks.{free_list_from};
ghost use Rattle.marks.specs.Marks.{marks};
ghost use Rattle.freelist.specs.FreeList.{has_length, Marked};

use byteops::{LIST_END, read_u16, read_u32};
use header::Area;

// Whether the list that starts with the block `first` ends after just so many blocks. Each block of it is marked in both tables.
pub fn read_free_list(
    area: Area,
    first: usize,
    count: usize,
    used: &mut [u64],
    free: &mut [u64],
) -> bool
    requires d_in_bounds { count ≤ area.blocks }
    requires d_bound { (area.blocks ≤ 64 * length used.old) × (area.blocks ≤ 64 * length free.old) }
    ensures value { result ≡ has_length count (free_list_from area.entry.blocks area.entry.blocks first area.entry.bytes.now) }
    ensures marked { result ≡ true → Marked (free_list_from area.entry.blocks area.entry.blocks first area.entry.bytes.now) (marks used.old) (marks used.new) }
    ensures marks_free { result ≡ true → Marked (free_list_from area.entry.blocks area.entry.blocks first area.entry.bytes.now) (marks free.old) (marks free.new) }
{
    let mut b = first;
    for _ in 0..count {
        if area.blocks <= b || read_u16(area.bytes, 256 * b) != 0 {
            return false;
        }
        marks::mark(used, b);
        marks::mark(free, b);
        b = read_u32(area.bytes, 256 * b + 2);
    }
    b == LIST_END
}
