// A change of one run: the plan, which decides row 15 and writes nothing, then the writing.
#![tactic(auto)]

ghost use Rattle.std.specs.Prelude.{◌≡◌, true, [], ◌+◌, ◌-◌, ◌*◌, ◌%◌, ◌≤◌, length, take, drop};
ghost use Rattle.spec.specs.Bytes.{write};
ghost use Rattle.spec.specs.Header.{block_position};
ghost use Rattle.spec.specs.Entry.{headword_ok};
ghost use Rattle.marks.specs.Marks.{marks};
ghost use Rattle.index.specs.Walk as walk;
ghost use Rattle.chain.specs.Numbers.{numbers};
ghost use Rattle.encoder.specs.Limits.{longest_body};
ghost use Rattle.header.specs.Form.{most_of, GoodForm};
ghost use Rattle.inspect.specs.Overview.{AcceptedImage, FreeMarked};
ghost use Rattle.change.specs.Ready.{growth, laid_parts, old_length, most_with, Displaced, Ready, Roomy, Areas, Sealed, Changed};
ghost use Rattle.change.specs.Drafted.{PlannedEnd, Fitting, Drafted, PlanCounted, Begun};
ghost use Rattle.change.specs.Kept.{fitted, Saved};

use header::{Area, Counts, HEADER, MOST_BLOCKS, MOST_INDEX_BLOCKS};
use index::Elements;
use inspect::Overview;
use newruns::{Room, Site};
use parts::Edit;
use spec::Refusal;
use target::Target;

// The words of the marks of a change: for the blocks of the image, those that become the index's, and those behind.
pub const CHANGE_WORDS: usize = 2560;

// How many runs a table of displaced runs holds at most: one for each block that the index can take.
const NUMBERS: usize = 32768;

// What a change comes to: what is known of the old image, the run concerned, whether a new entry enters and whether the run has an
// entry with the headword, by how many blocks the index grows, and the index elements and blocks in runs of the new image.
#[derive(Clone, Copy, Debug, PartialEq, Eq)]
pub struct Draft {
    pub old: Overview,
    pub target: Target,
    pub fresh: bool,
    pub found: bool,
    pub g: usize,
    pub elements: usize,
    pub blocks: usize,
}

// A change as it is written: what it comes to, the end of the blocks before the new runs are placed, and the entries of the new image.
#[derive(Clone, Copy, Debug, PartialEq, Eq)]
pub struct Outline {
    pub draft: Draft,
    pub end: usize,
    pub words: usize,
}

// By how many blocks an index of n blocks must grow for so many elements of so many bytes.
fn growth(n: usize, elements: usize, bytes: usize) -> usize
    requires { bytes ≤ 0xFFFFFFFFFFFF }
    ensures { result ≡ growth n elements bytes }
{
    if elements == 0 {
        return 0;
    }
    (bytes + 4).div_ceil(256).saturating_sub(n)
}

// Writes index and blocks of the changed image over the old one, of which `old` is a copy.
fn write_areas(
    image: &mut [u8],
    old: &[u8],
    v: Outline,
    numbers: &[u32],
    free: &mut [u64],
    h: &[u8],
    body: &[u8],
)
    requires ready { Ready old.now v numbers.now (marks free.old) h.now body.now }
    requires roomy { Roomy image.old old.now v (marks free.old) h.now body.now }
    ensures areas { Areas image.old image.new old.now v h.now body.now }
    ensures free_after { marks free.new ≡ (laid_parts old.now v (marks free.old) h.now body.now).free }
    ensures image_len_unchanged { (length image.new ≡ length image.old) × (length free.new ≡ length free.old) }
{
    let form = v.draft.old.form;
    let t = v.draft.target;
    let width = form.width;
    let n = v.draft.old.n;
    let front = HEADER + form.extended;
    let start = header::position(form.extended, n, 0);
    let end = header::position(form.extended, n + v.draft.g, 0);
    let index = &old[front..start];
    let area = Area {
        bytes: &old[start..],
        blocks: v.draft.old.d,
    };
    moves::copy_moved(image, form.extended, n, area, numbers);
    let from = target::entries_start(t.block, t.size);
    let run = &area.bytes[from..256 * (t.block + t.size)];
    let before = Elements {
        index,
        width,
        at: 0,
        left: t.before,
    };
    let a = elements::copy_elements(image, front, before, numbers);
    let room = Room {
        g: v.draft.g,
        end: v.end,
    };
    let b = newruns::write_parts(
        Edit {
            form,
            fresh: v.draft.fresh,
        },
        image,
        Site {
            index: n,
            at: a,
            room,
        },
        run,
        h,
        body,
        free,
    );
    let after = Elements {
        index,
        width,
        at: t.end,
        left: t.after,
    };
    let c = elements::copy_elements(image, b, after, numbers);
    byteops::fill_zero(image, c, end - c);
}

// Copies to the working slice what a change overwrites and reads afterwards where the index does not grow: the entries of the run
// concerned, then the index behind its element. Answers how many bytes the entries take.
fn save_old(work: &mut [u8], image: &[u8], v: Outline) -> usize
    requires good_form { GoodForm v.draft.old.form × (v.draft.old.n ≤ 32767) × (v.draft.old.d ≤ 16777215) }
    requires v_in_bounds { (old_length v.draft.old ≤ length image.now) × (length image.now ≤ length work.old) }
    requires size_bound { (v.draft.target.block + v.draft.target.size ≤ v.draft.old.d) × (v.draft.target.end ≤ 256 * v.draft.old.n) }
    ensures saved { Saved image.now v result work.new }
    ensures end_in_bounds { (result + (256 * v.draft.old.n - v.draft.target.end) ≤ length work.old) × (length work.new ≡ length work.old) }
{
    let t = v.draft.target;
    let front = HEADER + v.draft.old.form.extended;
    let start = header::position(v.draft.old.form.extended, v.draft.old.n, 0);
    let from = target::entries_start(t.block, t.size);
    let size = 256 * (t.block + t.size) - from;
    byteops::copy(work, 0, &image[start..], from, size);
    byteops::copy(
        work,
        size,
        image,
        front + t.end,
        256 * v.draft.old.n - t.end,
    );
    size
}

// Writes saved bytes from `at` on, as far as there is room up to `end`, then zeros.
fn put_rest(image: &mut [u8], at: usize, end: usize, saved: &[u8])
    requires { (at ≤ end) × (end ≤ length image.old) }
    ensures image_after { image.new ≡ write at (fitted (end - at) saved.now) image.old }
    ensures image_len_unchanged { length image.new ≡ length image.old }
{
    let room = end - at;
    let long = saved.len().min(room);
    byteops::copy(image, at, saved, 0, long);
    byteops::fill_zero(image, at + long, room - long);
}

// Writes index and blocks of the changed image over the old one where the index does not grow.
fn write_kept(
    image: &mut [u8],
    work: &mut [u8],
    v: Outline,
    free: &mut [u64],
    h: &[u8],
    body: &[u8],
)
    requires ready { Ready (take (old_length v.draft.old) image.old) v [] (marks free.old) h.now body.now }
    requires roomy { Roomy image.old (take (old_length v.draft.old) image.old) v (marks free.old) h.now body.now }
    requires g_value { (v.draft.g ≡ 0) × (length image.old ≤ length work.old) }
    ensures areas { Areas image.old image.new (take (old_length v.draft.old) image.old) v h.now body.now }
    ensures free_after { marks free.new ≡ (laid_parts (take (old_length v.draft.old) image.old) v (marks free.old) h.now body.now).free }
    ensures image_len_unchanged { (length image.new ≡ length image.old) × (length work.new ≡ length work.old)
        × (length free.new ≡ length free.old) }
{
    let form = v.draft.old.form;
    let t = v.draft.target;
    let n = v.draft.old.n;
    let front = HEADER + form.extended;
    let start = header::position(form.extended, n, 0);
    let rest = 256 * n - t.end;
    let size = save_old(work, image, v);
    let room = Room {
        g: v.draft.g,
        end: v.end,
    };
    let b = newruns::write_parts(
        Edit {
            form,
            fresh: v.draft.fresh,
        },
        image,
        Site {
            index: n,
            at: front + t.at,
            room,
        },
        &work[..size],
        h,
        body,
        free,
    );
    put_rest(image, b, start, &work[size..size + rest]);
}

// Writes the free list and the header; the blocks end at `last`, counted with the g that become the index's.
fn write_rest(image: &mut [u8], free: &[u64], v: Outline, last: usize)
    requires { (v.draft.g ≤ last) × (last ≤ 64 * length free.now)
        × (block_position v.draft.old.form.extended (v.draft.old.n + v.draft.g) (last - v.draft.g) ≤ length image.old) × (v.draft.old.n + v.draft.g ≤ 32767) }
    ensures sealed { Sealed image.old image.new v (numbers 0 (take (last - v.draft.g) (drop v.draft.g (marks free.now)))) }
    ensures image_len_unchanged { length image.new ≡ length image.old }
{
    let n = v.draft.old.n + v.draft.g;
    let first = chain::write_free_list(image, v.draft.old.form.extended, n, free, v.draft.g, last);
    let counts = Counts {
        index_blocks: n,
        entries: v.words,
        first_free: first,
        elements: v.draft.elements,
        run_blocks: v.draft.blocks,
    };
    header::write_counts(image, counts);
}

// Where the blocks end when the new runs are placed, on a copy of the marks; past the most, with g, where there are too many.
fn plan_end(old: &[u8], v: Outline, free: &[u64], h: &[u8], body: &[u8]) -> usize
    requires good_form { GoodForm v.draft.old.form × (old_length v.draft.old ≡ length old.now) × (v.draft.old.d ≤ most_of v.draft.old.form.width) }
    requires size_bound { (v.draft.target.block + v.draft.target.size ≤ v.draft.old.d) × (v.draft.target.size ≤ 32767) }
    requires g_le_end { (v.draft.g ≤ v.end) × (v.end ≤ most_with v.draft.old v.draft.g) × (v.draft.old.n + v.draft.g ≤ 32767) × (length free.now ≡ 2560) }
    requires h_value { (headword_ok h.now ≡ true) × (length body.now ≤ longest_body) }
    ensures planned_end { PlannedEnd old.now v (marks free.now) h.now body.now result }
    ensures upper_bound { result ≤ 98404 }
{
    let mut trial = [0u64; CHANGE_WORDS];
    trial.copy_from_slice(free);
    let form = v.draft.old.form;
    let t = v.draft.target;
    let start = header::position(form.extended, v.draft.old.n, 0);
    let area = &old[start..];
    let from = target::entries_start(t.block, t.size);
    newruns::plan_parts(
        Edit {
            form,
            fresh: v.draft.fresh,
        },
        &area[from..256 * (t.block + t.size)],
        h,
        body,
        &mut trial,
        Room {
            g: v.draft.g,
            end: v.end,
        },
        MOST_BLOCKS + v.draft.g,
    )
}

// Row 15: where the blocks end when the new runs are placed, if there is room for them and for the new image.
fn fit(image: &[u8], v: Outline, free: &[u64], h: &[u8], body: &[u8]) -> Result<usize, Refusal>
    requires good_form { GoodForm v.draft.old.form × (old_length v.draft.old ≤ length image.now) × (v.draft.old.d ≤ most_of v.draft.old.form.width) }
    requires size_bound { (v.draft.target.block + v.draft.target.size ≤ v.draft.old.d) × (v.draft.target.size ≤ 32767) }
    requires g_le_end { (v.draft.g ≤ v.end) × (v.end ≤ most_with v.draft.old v.draft.g) × (v.draft.old.n + v.draft.g ≤ 32767) × (length free.now ≡ 2560) }
    requires h_value { (headword_ok h.now ≡ true) × (length body.now ≤ longest_body) }
    ensures { Fitting image.now (take (old_length v.draft.old) image.now) v (marks free.now) h.now body.now result }
{
    let len = header::position(v.draft.old.form.extended, v.draft.old.n, v.draft.old.d);
    let last = plan_end(&image[..len], v, free, h, body);
    if MOST_BLOCKS + v.draft.g < last {
        return Err(Refusal::Full);
    }
    let new_len = header::position(v.draft.old.form.extended, v.draft.old.n, last);
    if image.len() < new_len {
        return Err(Refusal::Full);
    }
    Ok(last)
}

// The end of a change by which the index grows, as planned: row 15, then the writing.
fn finish(
    image: &mut [u8],
    work: &mut [u8],
    v: Outline,
    numbers: &[u32],
    free: &mut [u64],
    h: &[u8],
    body: &[u8],
) -> Result<usize, Refusal>
    requires ready { Ready (take (old_length v.draft.old) image.old) v numbers.now (marks free.old) h.now body.now }
    requires v_in_bounds { (old_length v.draft.old ≤ length image.old) × (length image.old ≤ length work.old) × (length free.old ≡ 2560) }
    ensures changed { Changed image.old (old_length v.draft.old) h.now body.now v.draft.fresh result image.new }
    ensures image_len_unchanged { (length image.new ≡ length image.old) × (length work.new ≡ length work.old) }
{
    let last = fit(image, v, free, h, body)?;
    let len = header::position(v.draft.old.form.extended, v.draft.old.n, v.draft.old.d);
    let new_len = header::position(v.draft.old.form.extended, v.draft.old.n, last);
    byteops::copy(work, 0, image, 0, len);
    write_areas(image, &work[..len], v, numbers, free, h, body);
    write_rest(image, free, v, last);
    Ok(new_len)
}

// The end of a change by which the index does not grow: row 15, then the writing.
fn keep(
    image: &mut [u8],
    work: &mut [u8],
    v: Outline,
    free: &mut [u64],
    h: &[u8],
    body: &[u8],
) -> Result<usize, Refusal>
    requires ready { Ready (take (old_length v.draft.old) image.old) v [] (marks free.old) h.now body.now }
    requires g_value { (v.draft.g ≡ 0) × (old_length v.draft.old ≤ length image.old) × (length image.old ≤ length work.old) × (length free.old ≡ 2560) }
    ensures changed { Changed image.old (old_length v.draft.old) h.now body.now v.draft.fresh result image.new }
    ensures image_len_unchanged { (length image.new ≡ length image.old) × (length work.new ≡ length work.old) }
{
    let last = fit(image, v, free, h, body)?;
    let new_len = header::position(v.draft.old.form.extended, v.draft.old.n, last);
    write_kept(image, work, v, free, h, body);
    write_rest(image, free, v, last);
    Ok(new_len)
}

// Plans where the runs go that the index displaces when it grows over the first blocks of the data area, those of the table: the runs
// of the elements before and after the run concerned. Answers the end of the blocks then, which is past the most, with those of the
// table, where there are too many.
fn displace(
    area: Area,
    before: Elements,
    after: Elements,
    numbers: &mut [u32],
    free: &mut [u64],
) -> usize
    requires d_value { (area.blocks ≤ most_of before.width) × (length numbers.old ≤ 32767) × (length free.old ≡ 2560) }
    ensures displaced { Displaced before.entry.width area.entry.bytes.now area.entry.blocks (walk.elements before.entry) (walk.elements after.entry)
        (length numbers.old) numbers.old (marks free.old) result numbers.new (marks free.new) }
    ensures numbers_len_unchanged { (length numbers.new ≡ length numbers.old) × (length free.new ≡ length free.old) }
{
    let g = numbers.len();
    moves::note_starts(before, numbers);
    moves::note_starts(after, numbers);
    moves::free_moved(area, numbers, free);
    moves::place_moved(area, numbers, free, area.blocks.max(g), MOST_BLOCKS + g)
}

// Measures a change in an accepted image: the entry with the headword h goes, and a new one with that body enters, if it is fresh.
pub fn measure_change(image: &[u8], old: Overview, h: &[u8], body: &[u8], fresh: bool) -> Draft
    requires accepted_image { AcceptedImage image.now old }
    requires image_len { (length image.now % 256 ≡ 0) × (headword_ok h.now ≡ true) × (length body.now ≤ longest_body) }
    ensures { (result.old ≡ old) × (result.fresh ≡ fresh) × Drafted image.now h.now body.now result }
{
    let form = old.form;
    let front = HEADER + form.extended;
    let start = header::position(form.extended, old.n, 0);
    let elements = Elements {
        index: &image[front..start],
        width: form.width,
        at: 0,
        left: header::nindex2(image),
    };
    let area = Area {
        bytes: &image[start..],
        blocks: old.d,
    };
    let t = target::find_run(form.order, elements, area, h);
    let from = target::entries_start(t.block, t.size);
    let m = parts::measure(
        Edit { form, fresh },
        &area.bytes[from..256 * (t.block + t.size)],
        h,
        body,
    );
    let count = t.before + t.after + m.parts;
    let bytes = old.end - (t.end - t.at) + m.bytes;
    let g = growth(old.n, count, bytes);
    let blocks = header::nblock2(image) - t.size + m.blocks;
    Draft {
        old,
        target: t,
        fresh,
        found: m.found,
        g,
        elements: count,
        blocks,
    }
}

// The rest of a change by which the index grows, the run concerned given up: the displaced runs are placed first.
fn grow(
    image: &mut [u8],
    work: &mut [u8],
    p: Draft,
    free: &mut [u64],
    h: &[u8],
    body: &[u8],
    words: usize,
) -> Result<usize, Refusal>
    requires begun { Begun (take (old_length p.old) image.old) p (marks free.old) h.now body.now words }
    requires le_g { (1 ≤ p.g) × (old_length p.old ≤ length image.old) × (length image.old ≤ length work.old) × (length free.old ≡ 2560) }
    ensures changed { Changed image.old (old_length p.old) h.now body.now p.fresh result image.new }
    ensures image_len_unchanged { (length image.new ≡ length image.old) × (length work.new ≡ length work.old) }
{
    let old = p.old;
    let t = p.target;
    let front = HEADER + old.form.extended;
    let start = header::position(old.form.extended, old.n, 0);
    let len = header::position(old.form.extended, old.n, old.d);
    let whole = &image[..len];
    let index = &whole[front..start];
    let area = Area {
        bytes: &whole[start..],
        blocks: old.d,
    };
    let width = old.form.width;
    let before = Elements {
        index,
        width,
        at: 0,
        left: t.before,
    };
    let after = Elements {
        index,
        width,
        at: t.end,
        left: t.after,
    };
    let mut numbers = [0u32; NUMBERS];
    let table = &mut numbers[..p.g];
    let end = displace(area, before, after, table, free);
    if MOST_BLOCKS + p.g < end {
        return Err(Refusal::Full);
    }
    let v = Outline {
        draft: p,
        end,
        words,
    };
    finish(image, work, v, table, free, h, body)
}

// A change that is measured, in an image whose free blocks are marked: the entry with the headword h goes, and a new one with
// that body enters, if it is fresh; `words` entries are in the image then.
pub fn change(
    image: &mut [u8],
    work: &mut [u8],
    p: Draft,
    free: &mut [u64],
    h: &[u8],
    body: &[u8],
    words: usize,
) -> Result<usize, Refusal>
    requires drafted { Drafted (take (old_length p.old) image.old) h.now body.now p }
    requires p_in_bounds { (old_length p.old ≤ length image.old) × (length image.old ≤ length work.old) × (length free.old ≡ 2560) }
    requires free_marked { FreeMarked (take (old_length p.old) image.old) (marks free.old) }
    requires h_value { (headword_ok h.now ≡ true) × (length body.now ≤ longest_body) }
    requires plan_counted { PlanCounted (take (old_length p.old) image.old) h.now body.now p.fresh words }
    ensures changed { Changed image.old (old_length p.old) h.now body.now p.fresh result image.new }
    ensures image_len_unchanged { (length image.new ≡ length image.old) × (length work.new ≡ length work.old) }
{
    let old = p.old;
    let t = p.target;
    if MOST_INDEX_BLOCKS < old.n + p.g {
        return Err(Refusal::Full);
    }
    marks::mark_range(free, t.block, t.size);
    if 0 < p.g {
        return grow(image, work, p, free, h, body, words);
    }
    let v = Outline {
        draft: p,
        end: old.d,
        words,
    };
    keep(image, work, v, free, h, body)
}
