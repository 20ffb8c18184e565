// The new runs of a change, one for each part: placed on the marks, and written with their index elements.
#![tactic(auto)]

ghost use Rattle.std.specs.Prelude.{◌≡◌, true, ◌+◌, ◌*◌, ◌≤◌, length};
ghost use Rattle.spec.specs.Entry.{headword_ok};
ghost use Rattle.byteops.specs.Width.{Width};
ghost use Rattle.marks.specs.Marks.{marks};
ghost use Rattle.placing.specs.Spread.{Within};
ghost use Rattle.encoder.specs.Limits.{longest_body, longest_run};
ghost use Rattle.parts.specs.Merge.{changed_entries};
ghost use Rattle.parts.specs.Room.{largest_limit};
ghost use Rattle.newruns.specs.Laid.{laid, PartsFit, PartsPut};

use header::Form;
use parts::{Edit, PART};
use runs::WORD;

// Where new runs go: among the blocks g to end - 1, or from `end` on.
#[derive(Clone, Copy, Debug, PartialEq, Eq)]
pub struct Room {
    pub g: usize,
    pub end: usize,
}

// Where new runs are written: behind an index of so many blocks, by which their places are counted, and their index elements from `at` on.
#[derive(Clone, Copy, Debug, PartialEq, Eq)]
pub struct Site {
    pub index: usize,
    pub at: usize,
    pub room: Room,
}

// Places all parts of the changed run, and answers the end of the blocks then. Stops where that passes `most`.
pub fn plan_parts(
    edit: Edit,
    run: &[u8],
    h: &[u8],
    body: &[u8],
    free: &mut [u64],
    room: Room,
    most: usize,
) -> usize
    requires h_value { (headword_ok h.now ≡ true) × (length body.now ≤ longest_body) × (length run.now ≤ 8388608) × (edit.form.limit ≤ largest_limit) }
    requires g_le_end { (room.g ≤ room.end) × (room.end ≤ most) × (most ≤ 0xFFFFFFFF) × (most + longest_run ≤ 64 * length free.old) }
    ensures within { Within most (laid edit.form.limit room.g room.end (marks free.old)
        (changed_entries edit.form.order run.now h.now body.now edit.fresh)) result (marks free.new) }
    ensures lower_bound { (room.end ≤ result) × (result ≤ most + longest_run) × (length free.new ≡ length free.old) }
{
    let form: Form = edit.form;
    let fresh = edit.fresh;
    let g = room.g;
    let mut word = [0u8; WORD];
    let mut part = [0u8; PART];
    let mut cur = parts::advance(form.order, run, 0, &mut word, 0, fresh);
    let mut last = room.end;
    loop {
        let p = parts::encode_part(form, run, cur, &mut word, h, body, &mut part);
        if p.used == 0 {
            return last;
        }
        let size = encoder::run_blocks(p.used);
        last = last.max(placing::place(free, g, last, size) + size);
        if most < last {
            return last;
        }
        cur = p.cursor;
    }
}

// Writes all parts of the changed run, each at its place, and their elements, with numbers g lower; answers where the elements end.
pub fn write_parts(
    edit: Edit,
    image: &mut [u8],
    to: Site,
    run: &[u8],
    h: &[u8],
    body: &[u8],
    free: &mut [u64],
) -> usize
    requires h_value { (headword_ok h.now ≡ true) × (length body.now ≤ longest_body) × (length run.now ≤ 8388608) }
    requires width { Width edit.form.width × (edit.form.limit ≤ largest_limit) × (to.room.g ≤ to.room.end) }
    requires parts_fit { PartsFit edit.form to.index to.at to.room.g to.room.end (marks free.old)
        (changed_entries edit.form.order run.now h.now body.now edit.fresh) (64 * length free.old) (length image.old) }
    ensures parts_put { PartsPut edit.form to.index to.at to.room.g to.room.end (marks free.old)
        (changed_entries edit.form.order run.now h.now body.now edit.fresh)
        image.old image.new result (marks free.new) }
    ensures image_len_unchanged { (length image.new ≡ length image.old) × (length free.new ≡ length free.old) }
{
    let form: Form = edit.form;
    let fresh = edit.fresh;
    let index = to.index;
    let g = to.room.g;
    let mut word = [0u8; WORD];
    let mut part = [0u8; PART];
    let mut cur = parts::advance(form.order, run, 0, &mut word, 0, fresh);
    let mut last = to.room.end;
    let mut out = to.at;
    loop {
        let p = parts::encode_part(form, run, cur, &mut word, h, body, &mut part);
        if p.used == 0 {
            return out;
        }
        let size = encoder::run_blocks(p.used);
        let b = placing::place(free, g, last, size);
        last = last.max(b + size);
        let start = header::position(form.extended, index, b);
        encoder::write_run(&mut image[start..], &part[..p.used]);
        let end = 3 + parts::head_length(&part, p.used);
        out = elements::put_element(form.width, image, out, b - g, &part[3..end]);
        cur = p.cursor;
    }
}
