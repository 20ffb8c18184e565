// An image tested whole: rows 3 to 10 of the refusals, in one pass over its bytes.
#![tactic(auto)]

ghost use Rattle.std.specs.Prelude.{◌≡◌, false, ◌*◌, ◌%◌, ◌≤◌, length, replicate};
ghost use Rattle.spec.specs.Order.{below_of};
ghost use Rattle.spec.specs.Outcome.{ok, accepted};
ghost use Rattle.spec.specs.Header.{format_of, block_position, get};
ghost use Rattle.spec.specs.Index.{index_from};
ghost use Rattle.spec.specs.Check.{Image, frame_from, runs_from, image_from};
ghost use Rattle.header.specs.Form.{layout_named, most_of, frame_by, GoodForm, index_part, data_part};
ghost use Rattle.index.specs.Elements.{elements_end, ended};
ghost use Rattle.index.specs.Walk as walk;
ghost use Rattle.marks.specs.Marks.{marks};
ghost use Rattle.inspect.specs.Overview.{AcceptedImage, Told, RunsRead};

use header::{Area, Form, HEADER};
use index::Elements;
use spec::Refusal;

// The words of a table that marks every block of a data area.
pub const MARK_WORDS: usize = 1024;

// What testing an image tells of it: its form, its index blocks and data blocks, its entries, and where the elements end in its
// index.
#[derive(Clone, Copy, Debug, PartialEq, Eq)]
pub struct Overview {
    pub form: Form,
    pub n: usize,
    pub d: usize,
    pub words: usize,
    pub end: usize,
}

// Where so many elements of an index of n blocks end, if it keeps its rules: row 6.
fn read_index(form: Form, index: &[u8], n: usize, elements: usize) -> Result<usize, Refusal>
    requires { 1 ≤ form.width }
    ensures { result ≡ ended (accepted (index_from form.width (below_of form.order) n elements index.now))
        (elements_end form.width index.now 0 elements) }
{
    match (n, elements) {
        (0, 0) => Ok(0),
        (0, _) => Err(Refusal::BadIndex),
        _ => index::read_elements(form.width, form.order, index, elements),
    }
}

// Rows 9 and 10 of an image whose runs are read: so many blocks, which are marked.
fn settle(
    s: &[u8],
    v: Overview,
    area: Area,
    blocks: usize,
    used: &mut [u64],
    free: &mut [u64],
) -> Result<Overview, Refusal>
    requires runs_read { RunsRead s.now v blocks (marks used.old) }
    requires area_value { (area.blocks ≡ v.d) × (area.bytes.now ≡ data_part v.form s.now v.n) }
    requires d_value { (block_position v.form.extended v.n v.d ≡ length s.now) × (v.d ≤ 64 * length used.old) × (v.d ≤ 64 * length free.old) }
    requires free_value { marks free.old ≡ replicate (64 * length free.old) false }
    ensures { Told s.now (marks free.new) result }
{
    let d = v.d;
    if d < blocks {
        return Err(Refusal::BadBlocks);
    }
    let first = header::empty_block2(s);
    if !freelist::read_free_list(area, first, d - blocks, used, free) {
        return Err(Refusal::BadBlocks);
    }
    if marks::next_unmarked(used, 0, d) < d {
        return Err(Refusal::BadBlocks);
    }
    if header::nword(s) != v.words {
        return Err(Refusal::BadCounts);
    }
    if header::nblock2(s) != blocks {
        return Err(Refusal::BadCounts);
    }
    Ok(v)
}

// Rows 6 to 10 of an image of that form, of n index blocks and d data blocks.
fn inspect_areas(
    s: &[u8],
    form: Form,
    n: usize,
    d: usize,
    free: &mut [u64],
) -> Result<Overview, Refusal>
    requires s_value { (frame_from (format_of s.now) s.now ≡ ok (frame_by (layout_named s.now) form n d)) × GoodForm form }
    requires d_value { (block_position form.extended n d ≡ length s.now) × (n ≤ 32767) × (d ≤ most_of form.width) × (d ≤ 64 * length free.old) }
    requires free_value { marks free.old ≡ replicate (64 * length free.old) false }
    ensures { Told s.now (marks free.new) result }
{
    let from = HEADER + form.extended;
    let start = header::position(form.extended, n, 0);
    let index = &s[from..start];
    let count = header::nindex2(s);
    let end = read_index(form, index, n, count)?;
    let elements = Elements::new(index, form.width, 0, count);
    let area = Area::new(&s[start..], d);
    let mut used = [0u64; MARK_WORDS];
    let runs = tally::read_runs(form.order, elements, area, &mut used)?;
    let v = Overview {
        form,
        n,
        d,
        words: runs.words,
        end,
    };
    settle(s, v, area, runs.blocks, &mut used, free)
}

// The image in all bytes of `s`: rows 3 to 10. The blocks of its free list are marked.
pub fn inspect(s: &[u8], free: &mut [u64]) -> Result<Overview, Refusal>
    requires in_bounds { (256 ≤ length s.now) × (length s.now % 256 ≡ 0) × (1024 ≤ length free.old) }
    requires free_value { marks free.old ≡ replicate (64 * length free.old) false }
    ensures { Told s.now (marks free.new) result }
{
    let frame = header::frame(s)?;
    inspect_areas(s, frame.form, frame.index, frame.data, free)
}

// The elements of the index of an accepted image, all of them, and its data area.
pub fn areas<'a>(image: &'a [u8], v: Overview) -> (Elements<'a>, Area<'a>)
    requires accepted_image { AcceptedImage image.now v }
    requires in_blocks { length image.now % 256 ≡ 0 }
    ensures runs_told { (i : Image) → image_from image.now ≡ ok i
        → runs_from (below_of v.form.order) result.1.blocks result.1.bytes.now (walk.elements result.0) ≡ ok i.runs }
    ensures elements_told { (result.0.index.now ≡ index_part v.form image.now v.n) × (result.0.width ≡ v.form.width) × (result.0.at ≡ 0)
        × (result.0.left ≡ get (layout_named image.now).nindex2 image.now) }
    ensures area_told { (result.1.bytes.now ≡ data_part v.form image.now v.n) × (result.1.blocks ≡ v.d) }
{
    let from = HEADER + v.form.extended;
    let start = header::position(v.form.extended, v.n, 0);
    let count = header::nindex2(image);
    let index = &image[from..start];
    let data = &image[start..];
    let elements = Elements::new(index, v.form.width, 0, count);
    let area = Area::new(data, v.d);
    (elements, area)
}
