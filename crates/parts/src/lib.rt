// A run's entries with a change merged in, encoded part by part.
#![tactic(auto)]

ghost use Rattle.std.specs.Prelude.{◌≡◌, true, Some, List, [], ◌∷◌, map, ◌+◌, ◌≤◌, ◌<◌, length, take, drop};
ghost use Rattle.spec.specs.Bytes.{write, no_zero};
ghost use Rattle.spec.specs.Order.{below_of};
ghost use Rattle.spec.specs.Entry.{Entry, headword_ok};
ghost use Rattle.spec.specs.Run.{entries_bytes};
ghost use Rattle.spec.specs.Place.{cut, new_run};
ghost use Rattle.encoder.specs.Limits.{longest_headword, longest_body, longest_entry};
ghost use Rattle.byteops.specs.Width.{Width};
ghost use Rattle.spec.specs.SortedList.{lookup};
ghost use Rattle.spec.specs.Claim.{is_there};
ghost use Rattle.parts.specs.Merge.{entries_left, ahead, todo, changed_entries, turn_of, CursorOk, Met};
ghost use Rattle.parts.specs.Part.{part_of, past_part, Appended, Measured};
ghost use Rattle.parts.specs.Room.{largest_limit, part_room};

use encoder::entry_size;
use header::Form;
use runs::{EntryPlace, WORD};
use std::cmp::Ordering;

// The bytes of a part's buffer.
pub const PART: usize = 3328;

// An edit of a run: what the file fixes, and whether a new entry enters.
#[derive(Clone, Copy, Debug, PartialEq, Eq)]
pub struct Edit {
    pub form: Form,
    pub fresh: bool,
}

// Where the merging stands: the next of the run's own entries, read already, if one is left, and whether the new entry is still to come.
#[derive(Clone, Copy, Debug, PartialEq, Eq)]
pub struct Cursor {
    pub own: Option<EntryPlace>,
    pub fresh: bool,
}

// What comes next: nothing, an old entry that the change drops, an old entry that it keeps, or the new entry.
#[derive(Clone, Copy, Debug, PartialEq, Eq)]
enum Turn {
    Done,
    Skip(EntryPlace),
    Old(EntryPlace),
    New,
}

// An encoded part: how many bytes its entries take, whether an old entry was dropped on the way, and where the merging stands
// behind it.
// Kept: 0 bytes for no part left, not an Option<Part>: `found` is told then too, where the run's only entry is dropped.
#[derive(Clone, Copy, Debug, PartialEq, Eq)]
pub struct Part {
    pub used: usize,
    pub found: bool,
    pub cursor: Cursor,
}

// The parts of a changed run: how many, the bytes of their index elements, and their blocks; and whether the run has an entry
// with the headword of the change.
#[derive(Clone, Copy, Debug, PartialEq, Eq)]
pub struct Sizes {
    pub parts: usize,
    pub bytes: usize,
    pub blocks: usize,
    pub found: bool,
}

// Reads the run's own entry at `at`, after one whose headword is the first `held` bytes of `word`.
pub fn advance(
    order: usize,
    run: &[u8],
    at: usize,
    word: &mut [u8],
    held: usize,
    fresh: bool,
) -> Cursor
    requires at_in_bounds { at ≤ length run.now }
    requires longest_headword_in_bounds { (longest_headword ≤ length word.old) × (held ≤ longest_headword) × (no_zero (take held word.old) ≡ true) }
    ensures result_after { ahead order run.now word.new result ≡ entries_left (below_of order) (take held word.old) (drop at run.now) }
    ensures fresh_value { result.fresh ≡ fresh }
    ensures cursor_ok { CursorOk run.now word.new result }
    ensures word_len_unchanged { length word.new ≡ length word.old }
{
    let own = runs::read_entry(order, run, at, word, held).unwrap_or(None);
    Cursor { own, fresh }
}

// What comes next, where the next old entry's headword is at the front of `word`.
fn next_turn(order: usize, word: &[u8], cursor: Cursor, h: &[u8]) -> Turn
    requires { (e : EntryPlace) → cursor.own ≡ Some e → e.length ≤ length word.now }
    ensures { result ≡ turn_of (below_of order) h.now word.now cursor.own cursor.fresh }
{
    let own = cursor.own;
    let Some(e) = own else {
        return if cursor.fresh { Turn::New } else { Turn::Done };
    };
    match scans::compare(order, &word[..e.length], h) {
        Ordering::Less => Turn::Old(e),
        Ordering::Equal => Turn::Skip(e),
        Ordering::Greater if cursor.fresh => Turn::New,
        Ordering::Greater => Turn::Old(e),
    }
}

// One entry more in a part, after one whose headword is the first `held` bytes of `last`: a first one always has room, another
// where the part then encodes in `limit` bytes. Its headword is then in `last`. Answers the bytes used then, or that there is no room.
fn append(
    limit: usize,
    part: &mut [u8],
    used: usize,
    last: &mut [u8],
    held: usize,
    headword: &[u8],
    body: &[u8],
) -> Option<usize>
    requires in_bounds { (1 ≤ length headword.now) × (length headword.now ≤ longest_headword) × (length body.now ≤ longest_body) }
    requires held_le_longest_headword { (held ≤ longest_headword) × (longest_headword ≤ length last.old) × (part_room ≤ length part.old) × (used ≤ longest_entry) × (limit ≤ largest_limit) }
    ensures appended { Appended limit used (take held last.old) (record { headword = headword.now; body = body.now })
        part.old part.new last.new result }
    ensures part_len_unchanged { (length part.new ≡ length part.old) × (length last.new ≡ length last.old) }
{
    let size = entry_size(&last[..held], headword, body);
    let whole = used + size;
    if 0 < used && limit < whole + 4 {
        return None;
    }
    encoder::put_entry(part, used, &last[..held], headword, body);
    byteops::copy(last, 0, headword, 0, headword.len());
    Some(whole)
}

// The next part: as many entries as it holds, encoded from the front of `part` on.
pub fn encode_part(
    form: Form,
    run: &[u8],
    start: Cursor,
    word: &mut [u8],
    h: &[u8],
    body: &[u8],
    part: &mut [u8],
) -> Part
    requires cursor_ok { CursorOk run.now word.old start }
    requires h_value { (headword_ok h.now ≡ true) × (length body.now ≤ longest_body) × (part_room ≤ length part.old) × (form.limit ≤ largest_limit) }
    ensures part_after { part.new
        ≡ write 0 (entries_bytes [] (part_of form.limit 0 [] (todo form.order run.now word.old h.now body.now start))) part.old }
    ensures used_value { result.used
        ≡ length (entries_bytes [] (part_of form.limit 0 [] (todo form.order run.now word.old h.now body.now start))) }
    ensures cursor_after { todo form.order run.now word.new h.now body.now result.cursor
        ≡ past_part form.limit 0 [] (todo form.order run.now word.old h.now body.now start) }
    ensures next_cursor_ok { CursorOk run.now word.new result.cursor }
    ensures used_le_longest_entry { (result.used ≤ longest_entry) × (length part.new ≡ length part.old) × (length word.new ≡ length word.old) }
    ensures met { Met h.now (ahead form.order run.now word.old start) result.found (ahead form.order run.now word.new result.cursor) }
    ensures none_ahead { result.used ≡ 0 → ahead form.order run.now word.new result.cursor ≡ [] }
{
    let order = form.order;
    let limit = form.limit;
    let mut last = [0u8; WORD];
    let mut held = 0;
    let mut used = 0;
    let mut found = false;
    let mut cursor = start;
    loop {
        let t = next_turn(order, word, cursor, h);
        match t {
            Turn::Done => break,
            Turn::Skip(e) => {
                found = true;
                cursor = advance(order, run, e.next, word, e.length, cursor.fresh);
            }
            Turn::Old(e) => {
                let old_body = &run[e.zero + 1..e.next];
                let fit = append(
                    limit,
                    part,
                    used,
                    &mut last,
                    held,
                    &word[..e.length],
                    old_body,
                );
                let Some(whole) = fit else { break };
                used = whole;
                held = e.length;
                cursor = advance(order, run, e.next, word, e.length, cursor.fresh);
            }
            Turn::New => {
                let fit = append(limit, part, used, &mut last, held, h, body);
                let Some(whole) = fit else { break };
                used = whole;
                held = h.len();
                cursor = Cursor {
                    own: cursor.own,
                    fresh: false,
                };
            }
        }
    }
    Part {
        used,
        found,
        cursor,
    }
}

// How many bytes the headword of a part's first entry has, which starts at 3.
pub fn head_length(part: &[u8], used: usize) -> usize
    requires { (3 ≤ used) × (used ≤ length part.now) }
    ensures result_bound { 3 + result ≤ used }
    ensures value { (e : Entry) (es : List Entry) → take used part.now ≡ entries_bytes [] (e ∷ es) → no_zero e.headword ≡ true → result ≡ length e.headword }
{
    scans::first_zero(part, 3, used) - 3
}

// All parts of a changed run, measured.
pub fn measure(edit: Edit, run: &[u8], h: &[u8], body: &[u8]) -> Sizes
    requires h_value { (headword_ok h.now ≡ true) × (length body.now ≤ longest_body) × (length run.now ≤ 8388608) }
    requires width { Width edit.form.width × (edit.form.limit ≤ largest_limit) }
    ensures measured { Measured edit.form.width
        (map new_run (cut edit.form.limit (changed_entries edit.form.order run.now h.now body.now edit.fresh))) result.parts result.bytes result.blocks }
    ensures parts_bound { (result.parts ≤ 8388609) × (result.bytes ≤ 2122318077) × (result.blocks ≤ 109051917) }
    ensures found_value { result.found ≡ is_there (lookup h.now (entries_left (below_of edit.form.order) [] run.now)) }
{
    let form = edit.form;
    let fresh = edit.fresh;
    let mut word = [0u8; WORD];
    let mut part = [0u8; PART];
    let mut cur = advance(form.order, run, 0, &mut word, 0, fresh);
    let mut parts = 0;
    let mut bytes = 0;
    let mut blocks = 0;
    let mut found = false;
    loop {
        let p = encode_part(form, run, cur, &mut word, h, body, &mut part);
        found |= p.found;
        if p.used == 0 {
            return Sizes {
                parts,
                bytes,
                blocks,
                found,
            };
        }
        let long = form.width + 1 + head_length(&part, p.used);
        parts += 1;
        bytes += long;
        blocks += encoder::run_blocks(p.used);
        cur = p.cursor;
    }
}
