// All runs of an image in index order, rows 7 and 8 of the refusals, and what is counted of them.
#![tactic(auto)]

ghost use Rattle.std.specs.Prelude.{◌≡◌, [], ◌*◌, ◌≤◌, length};
ghost use Rattle.spec.specs.Order.{below_of};
ghost use Rattle.spec.specs.Check.{runs_from, next_headword};
ghost use Rattle.marks.specs.Marks.{marks};
ghost use Rattle.index.specs.Walk as walk;
ghost use Rattle.tally.specs.Tally.{tally, runs_answer, last_below, Started, waiting};

use header::Area;
use index::{Element, Elements};
use runs::WORD;
use spec::Refusal;

// The entries and the blocks of all runs.
#[derive(Clone, Copy, Debug, PartialEq, Eq)]
pub struct RunCounts {
    pub words: usize,
    pub blocks: usize,
}

// Where the first entry of a run ends, which is to have its element's headword, or row 8; that is then in the buffer.
fn first_entry(order: usize, run: &[u8], headword: &[u8], word: &mut [u8]) -> Result<usize, Refusal>
    requires { (2 ≤ length run.now) × (248 ≤ length word.old) }
    ensures started { Started (below_of order) headword.now run.now word.new result }
    ensures word_len_unchanged { length word.new ≡ length word.old }
{
    let Some(entry) = runs::read_entry(order, run, 2, word, 0)? else {
        return Err(Refusal::BadRun);
    };
    if !scans::is_equal(&word[..entry.length], headword) {
        return Err(Refusal::BadRun);
    }
    Ok(entry.next)
}

// Whether a run that ends with the headword `last` ends below the next element, if there is one.
fn ends_below(order: usize, last: &[u8], next: Option<Element>) -> bool
    ensures { result ≡ last_below (below_of order) last.now (next_headword (waiting next.entry [])) }
{
    match next {
        Some(element) => scans::is_below(order, last, element.headword),
        None => true,
    }
}

// All runs in index order, or the first of rows 7 and 8 that a run breaks; the blocks of the runs before it are marked as used.
pub fn read_runs(
    order: usize,
    mut elements: Elements,
    area: Area,
    used: &mut [u64],
) -> Result<RunCounts, Refusal>
    requires index_len_bound { (length elements.index.now ≤ 8388608) × (area.blocks ≤ 64 * length used.old) }
    ensures { runs_answer result (marks used.new) ≡ tally 0 0 (marks used.old)
        (runs_from (below_of order) area.entry.blocks area.entry.bytes.now (walk.elements elements.entry)) }
{
    let mut word = [0u8; WORD];
    let mut words = 0;
    let mut blocks = 0;
    let mut next = elements.next();
    // Kept: document 01 names the form, an inner loop over entries and a labelled break that leaves both loops with the refusal.
    'walk: {
        while let Some(element) = next {
            let b = element.number;
            let size = runs::run_size(area, b)?;
            let run = &area.bytes[256 * b..256 * b + 256 * size];
            let mut pos = first_entry(order, run, element.headword, &mut word)?;
            let mut held = element.headword.len();
            let mut count = 1;
            loop {
                match runs::read_entry(order, run, pos, &mut word, held) {
                    Err(row) => break 'walk Err(row),
                    Ok(None) => break,
                    Ok(Some(entry)) => {
                        pos = entry.next;
                        held = entry.length;
                        count += 1;
                    }
                }
            }
            next = elements.next();
            if !ends_below(order, &word[..held], next) {
                break 'walk Err(Refusal::BadRun);
            }
            marks::mark_range(used, element.number, size);
            words += count;
            blocks += size;
        }
        Ok(RunCounts { words, blocks })
    }
}
