// The entry that a look up or a walk answers: the run concerned by the index, then the first of its entries that may be
// taken, else the first of the next run.
#![tactic(auto)]

ghost use Rattle.std.specs.Prelude.{◌≡◌, Ok, List, [], ℕ, ◌≤◌, length, drop};
ghost use Rattle.spec.specs.Outcome.{ok};
ghost use Rattle.spec.specs.Order.{below_of};
ghost use Rattle.spec.specs.Entry.{Entry};
ghost use Rattle.spec.specs.Run.{Run, entries_from};
ghost use Rattle.spec.specs.Check.{run_from, runs_from, all_entries};
ghost use Rattle.spec.specs.SortedList.{walk_takes, successor};
ghost use Rattle.std.proofs.Math.Option.{Option};
ghost use Rattle.index.specs.Walk as walk;
ghost use Rattle.runs.specs.Step as step;
ghost use Rattle.seek.specs.Spot.{spot_entry, SpotInside, first_entries};

use header::Area;
use index::{Element, Elements};
use runs::EntryPlace;

// Whether a walk from `h` may answer an entry with that headword.
fn takes(order: usize, above: bool, h: &[u8], headword: &[u8]) -> bool
    ensures { (body : List ℕ) → result ≡ walk_takes (below_of order) above h.now (record { headword = headword.now; body = body }) }
{
    if h.is_empty() {
        return true;
    }
    if above {
        return scans::is_below(order, h, headword);
    }
    !scans::is_below(order, headword, h)
}

// The first entry of a run that a walk from `h` may answer.
fn find_in_run(
    order: usize,
    run: &[u8],
    above: bool,
    h: &[u8],
    word: &mut [u8],
) -> Option<EntryPlace>
    requires { (2 ≤ length run.now) × (248 ≤ length word.old) }
    ensures as_read { (fuel : ℕ) (es : List Entry) → entries_from (below_of order) fuel [] (drop 2 run.now) ≡ ok es
        → spot_entry run.now word.new result ≡ successor (below_of order) above h.now es }
    ensures inside { step.Inside 2 run.now (Ok result) }
    ensures word_len_unchanged { length word.new ≡ length word.old }
{
    let mut pos = 2;
    let mut held = 0;
    while let Some(entry) = runs::read_entry(order, run, pos, word, held).unwrap_or(None) {
        if takes(order, above, h, &word[..entry.length]) {
            return Some(entry);
        }
        pos = entry.next;
        held = entry.length;
    }
    None
}

// The same of the run of an element, by its place in the data area.
fn find_at(
    order: usize,
    element: Element,
    area: Area,
    above: bool,
    h: &[u8],
    word: &mut [u8],
) -> Option<EntryPlace>
    requires { 248 ≤ length word.old }
    ensures as_read { (next : Option (List ℕ)) (q : Run)
        → run_from (below_of order) area.entry.blocks area.entry.bytes.now (walk.stored element.entry) next ≡ ok q
        → spot_entry area.entry.bytes.now word.new result ≡ successor (below_of order) above h.now q.entries }
    ensures spot_inside { SpotInside area.entry.bytes.now result }
    ensures word_len_unchanged { length word.new ≡ length word.old }
{
    let b = element.number;
    let Ok(size) = runs::run_size(area, b) else {
        return None;
    };
    let start = 256 * b;
    let end = start + 256 * size;
    let entry = find_in_run(order, &area.bytes[start..end], above, h, word)?;
    let zero = start + entry.zero;
    let next = start + entry.next;
    Some(EntryPlace {
        length: entry.length,
        zero,
        next,
    })
}

// The same of the run of the next element, if there is one.
fn find_next(
    order: usize,
    mut elements: Elements,
    area: Area,
    above: bool,
    h: &[u8],
    word: &mut [u8],
) -> Option<EntryPlace>
    requires { 248 ≤ length word.old }
    ensures as_read { (rs : List Run) → runs_from (below_of order) area.entry.blocks area.entry.bytes.now (walk.elements elements.entry) ≡ ok rs
        → spot_entry area.entry.bytes.now word.new result ≡ successor (below_of order) above h.now (first_entries rs) }
    ensures spot_inside { SpotInside area.entry.bytes.now result }
    ensures word_len_unchanged { length word.new ≡ length word.old }
{
    let element = elements.next()?;
    find_at(order, element, area, above, h, word)
}

// The least entry not below `h`, or above it, of the runs of all elements of an index.
pub fn seek(
    order: usize,
    elements: Elements,
    area: Area,
    above: bool,
    h: &[u8],
    word: &mut [u8],
) -> Option<EntryPlace>
    requires from_start { elements.at ≡ 0 }
    requires word_room { 248 ≤ length word.old }
    ensures as_read { (rs : List Run) → runs_from (below_of order) area.entry.blocks area.entry.bytes.now (walk.elements elements.entry) ≡ ok rs
        → spot_entry area.entry.bytes.now word.new result ≡ successor (below_of order) above h.now (all_entries rs) }
    ensures spot_inside { SpotInside area.entry.bytes.now result }
    ensures word_len_unchanged { length word.new ≡ length word.old }
{
    if elements.left == 0 {
        return None;
    }
    let index = elements.index;
    let width = elements.width;
    let p = index::concerned(width, order, index, elements.left, h);
    let mut from = Elements::new(index, width, p.at, p.left);
    let first = from.next().unwrap();
    match find_at(order, first, area, above, h, word) {
        Some(entry) => Some(entry),
        None => find_next(order, from, area, above, h, word),
    }
}
