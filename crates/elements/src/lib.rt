// The index as it is written: elements one after the other, those kept with their numbers renewed.
#![tactic(auto)]

ghost use Rattle.std.specs.Prelude.{◌≡◌, map, ◌+◌, ◌≤◌, ◌<◌, length};
ghost use Rattle.spec.specs.Bytes.{write};
ghost use Rattle.spec.specs.Index.{element_bytes, elements_bytes};
ghost use Rattle.byteops.specs.Width.{Width};
ghost use Rattle.index.specs.Walk as walk;
ghost use Rattle.elements.specs.Renewed.{number_after, renewed};

use index::Elements;

// Stores an element, and answers where it ends.
pub fn put_element(width: usize, dst: &mut [u8], at: usize, number: usize, headword: &[u8]) -> usize
    requires { Width width × (at + width + 1 + length headword.now ≤ length dst.old) }
    ensures dst_after { dst.new ≡ write at (element_bytes width (record { block = number; headword = headword.now })) dst.old }
    ensures value { result ≡ at + width + 1 + length headword.now }
    ensures dst_len_unchanged { length dst.new ≡ length dst.old }
{
    let long = headword.len();
    let from = at + width;
    let end = from + long;
    byteops::write_number(dst, at, width, number);
    byteops::copy(dst, from, headword, 0, long);
    byteops::write_u8(dst, end, 0);
    end + 1
}

// The number of a run after the first blocks, those of the table, became the index's: of one that started among them as the table says.
pub fn number_after(numbers: &[u32], b: usize) -> usize
    ensures { result ≡ number_after numbers.now (length numbers.now) b }
{
    let g = numbers.len();
    if b < g {
        (numbers[b] as usize).saturating_sub(g)
    } else {
        b - g
    }
}

// Stores elements of an index at `at`, with their numbers renewed, and answers where they end.
pub fn copy_elements(dst: &mut [u8], at: usize, elements: Elements, numbers: &[u32]) -> usize
    requires left_in_bounds { at + length (elements_bytes elements.width (walk.elements elements)) ≤ length dst.old }
    ensures dst_after { dst.new
        ≡ write at (elements_bytes elements.entry.width (map (renewed numbers.now (length numbers.now)) (walk.elements elements.entry))) dst.old }
    ensures value { result ≡ at + length (elements_bytes elements.entry.width (walk.elements elements.entry)) }
    ensures dst_len_unchanged { length dst.new ≡ length dst.old }
{
    let width = elements.width;
    let mut out = at;
    for element in elements {
        let b = number_after(numbers, element.number);
        out = put_element(width, dst, out, b, element.headword);
    }
    out
}
