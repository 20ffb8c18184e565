// Optimising: the runs one after the other in index order, no free block.
#![tactic(auto)]

ghost use Rattle.std.specs.Prelude.{◌≡◌, List, ◌+◌, ◌%◌, ◌≤◌, length, take};
ghost use Rattle.spec.specs.Order.{below_of};
ghost use Rattle.spec.specs.Outcome.{ok};
ghost use Rattle.spec.specs.Check.{Image, runs_from, image_from};
ghost use Rattle.spec.specs.Place.{plan_packed, plan_written};
ghost use Rattle.spec.specs.Calls.{plan_length, given_up_zeroed};
ghost use Rattle.spec.specs.Index.{elements_bytes};
ghost use Rattle.spec.specs.Run.{Run};
ghost use Rattle.header.specs.Form.{index_start, area_start};
ghost use Rattle.index.specs.Walk as walk;
ghost use Rattle.inspect.specs.Overview.{AcceptedImage};
ghost use Rattle.pack.specs.Packing.{blocks_needed, runs_packed, RunsFit};

use byteops::LIST_END;
use header::{Area, Counts, Form, HEADER};
use index::Elements;
use inspect::Overview;

// How many blocks an index of so many elements needs, which take so many bytes.
fn need(elements: usize, bytes: usize) -> usize
    requires { bytes ≤ 8388608 }
    ensures { result ≡ blocks_needed elements bytes }
{
    if elements == 0 {
        return 0;
    }
    (bytes + 4).div_ceil(256)
}

// Writes the runs of these elements in the old data area one after the other behind an index of m blocks, and their elements from its start
// on; answers where the elements end.
fn write_runs(form: Form, image: &mut [u8], m: usize, elements: Elements, area: Area) -> usize
    requires { RunsFit elements.width form.order form.extended (walk.elements elements) area.bytes.now area.blocks (index_start form) m (length image.old) }
    ensures image_after { (rs : List Run) → runs_from (below_of form.order) area.entry.blocks area.entry.bytes.now (walk.elements elements.entry) ≡ ok rs
        → image.new ≡ runs_packed elements.entry.width (index_start form) (area_start form m) rs image.old }
    ensures value { result ≡ index_start form + length (elements_bytes elements.entry.width (walk.elements elements.entry)) }
    ensures image_len_unchanged { length image.new ≡ length image.old }
{
    let width = elements.width;
    let extended = form.extended;
    let front = HEADER + extended;
    let mut out = front;
    let mut b = 0;
    for element in elements {
        let from = element.number;
        let size = runs::run_size(area, from).unwrap();
        let to = header::position(extended, m, b);
        byteops::copy(image, to, area.bytes, 256 * from, 256 * size);
        out = elements::put_element(width, image, out, b, element.headword);
        b += size;
    }
    out
}

// Packs the accepted image `old`, of which `v` tells, into `image`, which starts with it; answers the new length.
pub fn pack(image: &mut [u8], old: &[u8], v: Overview) -> usize
    requires accepted_image { AcceptedImage old.now v }
    requires len { (length old.now % 256 ≡ 0) × (length old.now ≤ length image.old) × (take (length old.now) image.old ≡ old.now) }
    ensures image_after { (i : Image) → image_from old.now ≡ ok i
        → image.new ≡ given_up_zeroed (length old.now) (plan_packed i.frame.format i.runs)
        (plan_written (plan_packed i.frame.format i.runs) image.old) }
    ensures value { (i : Image) → image_from old.now ≡ ok i → result ≡ plan_length (plan_packed i.frame.format i.runs) }
    ensures image_len_unchanged { length image.new ≡ length image.old }
{
    let (elements, area) = inspect::areas(old, v);
    let count = elements.left;
    let blocks = header::nblock2(old);
    let m = need(count, v.end);
    let data = header::position(v.form.extended, m, 0);
    let out = write_runs(v.form, image, m, elements, area);
    byteops::fill_zero(image, out, data - out);
    let counts = Counts {
        index_blocks: m,
        entries: v.words,
        first_free: LIST_END,
        elements: count,
        run_blocks: blocks,
    };
    header::write_counts(image, counts);
    let len = header::position(v.form.extended, m, blocks);
    byteops::fill_zero(image, len, old.len() - len);
    len
}
