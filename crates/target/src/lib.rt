// The run that a change goes to: the run concerned of the paper.
#![tactic(auto)]

ghost use Rattle.std.specs.Prelude.{◌≡◌, List, ◌+◌, ◌*◌, ◌≤◌, length};
ghost use Rattle.spec.specs.Order.{below_of};
ghost use Rattle.spec.specs.Outcome.{ok};
ghost use Rattle.spec.specs.Run.{Run};
ghost use Rattle.spec.specs.Check.{runs_from};
ghost use Rattle.index.specs.Walk as walk;
ghost use Rattle.target.specs.Told.{entries_start, no_target, TargetTold};

use byteops::read_number;
use header::Area;
use index::{Elements, element_end};

// The run concerned: its element stands in the index from `at` up to `end`, with so many elements before and after it; its
// first block, and its number of blocks. With no run all are 0.
// Kept: no Option<Target>, since all that reads it, the index copied before and behind and the run's bytes, is right at 0 with no case.
#[derive(Clone, Copy, Debug, PartialEq, Eq)]
pub struct Target {
    pub at: usize,
    pub end: usize,
    pub before: usize,
    pub after: usize,
    pub block: usize,
    pub size: usize,
}

// No run.
fn no_run() -> Target
    ensures { result ≡ no_target }
{
    Target {
        at: 0,
        end: 0,
        before: 0,
        after: 0,
        block: 0,
        size: 0,
    }
}

// The run that a change of the headword h goes to, of all elements of an index. None also where the run that the index names breaks row 7.
pub fn find_run(order: usize, elements: Elements, area: Area, h: &[u8]) -> Target
    requires from_start { elements.at ≡ 0 }
    ensures target_told { (rs : List Run) → runs_from (below_of order) area.entry.blocks area.entry.bytes.now (walk.elements elements.entry) ≡ ok rs
        → TargetTold elements.entry.width order elements.entry.index.now area.entry.bytes.now elements.entry.left h.now rs result }
    ensures size_bound { (result.block + result.size ≤ area.entry.blocks) × (result.size ≤ 32767) × (result.at ≤ result.end)
        × (result.end ≤ length elements.entry.index.now) × (result.before + result.after ≤ elements.entry.left) }
{
    let index = elements.index;
    let width = elements.width;
    let count = elements.left;
    if count == 0 {
        return no_run();
    }
    let p = index::concerned(width, order, index, count, h);
    let after = p.left - 1;
    let before = count - p.left;
    let next = element_end(width, index, p.at) + 1;
    let block = read_number(index, p.at, width);
    let Ok(size) = runs::run_size(area, block) else {
        return no_run();
    };
    Target {
        at: p.at,
        end: next,
        before,
        after,
        block,
        size,
    }
}

// Where the entries of a run start in the data area, behind its count; where there is no run, at the run's end.
pub fn entries_start(block: usize, size: usize) -> usize
    requires { block + size ≤ 16777215 }
    ensures value { result ≡ entries_start block size }
    ensures upper_bound { result ≤ 256 * (block + size) }
{
    if size == 0 {
        return 256 * block;
    }
    256 * block + 2
}
