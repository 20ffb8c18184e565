// The index: its elements one after the other, row 6 of the refusals, and the element of the run concerned.
#![tactic(auto)]

ghost use Rattle.std.specs.Prelude.{◌≡◌, [], ◌+◌, ◌-◌, ◌≤◌, ◌<◌, length};
ghost use Rattle.spec.specs.Outcome.{accepted};
ghost use Rattle.spec.specs.Order.{below_of};
ghost use Rattle.spec.specs.Index.{elements_from};
ghost use Rattle.index.specs.Elements.{element_end, elements_end, ended, Inside, concerned_from};

mod walk;

use byteops::LONGEST_HEADWORD;
use spec::Refusal;
pub use walk::{Element, Elements};

// An element of the index: where it starts, and how many elements there are from it on.
#[derive(Clone, Copy, Debug, PartialEq, Eq)]
pub struct Place {
    pub at: usize,
    pub left: usize,
}

// Where the zero byte of the element at `at` is.
pub fn element_end(width: usize, index: &[u8], at: usize) -> usize
    requires { at + width ≤ length index.now }
    ensures value { result ≡ element_end width index.now at }
    ensures lower_bound { (at + width ≤ result) × (result ≤ length index.now) }
{
    scans::first_zero(index, at + width, index.len())
}

// Where so many elements of the index end, if they stand there by their rules, and then zeros, at least four, up to its end: row 6.
pub fn read_elements(
    width: usize,
    order: usize,
    index: &[u8],
    elements: usize,
) -> Result<usize, Refusal>
    requires { 1 ≤ width }
    ensures { result ≡ ended (accepted (elements_from width (below_of order) elements [] index.now)) (elements_end width index.now 0 elements) }
{
    let mut at = 0;
    // the headword before stands from `start` up to `end`
    let mut start = 0;
    let mut end = 0;
    for _ in 0..elements {
        if index.len() - at < width {
            return Err(Refusal::BadIndex);
        }
        let zero = element_end(width, index, at);
        if index.len() <= zero {
            return Err(Refusal::BadIndex);
        }
        if LONGEST_HEADWORD < zero - (at + width) {
            return Err(Refusal::BadIndex);
        }
        if !scans::is_below(order, &index[start..end], &index[at + width..zero]) {
            return Err(Refusal::BadIndex);
        }
        start = at + width;
        end = zero;
        at = zero + 1;
    }
    if index.len() - at < 4 {
        return Err(Refusal::BadIndex);
    }
    if !scans::all_zero(index, at, index.len()) {
        return Err(Refusal::BadIndex);
    }
    Ok(at)
}

// The element of the run concerned: the last whose headword is not above `h`, else the first.
pub fn concerned(width: usize, order: usize, index: &[u8], elements: usize, h: &[u8]) -> Place
    requires le_elements { 1 ≤ elements }
    requires inside { Inside width index.now 0 elements }
    ensures value { result ≡ concerned_from width (below_of order) index.now h.now 0 (elements - 1) }
    ensures le_left { (1 ≤ result.left) × Inside width index.now result.at result.left }
{
    let mut at = 0;
    // where the zero byte of the element at `at` is
    let mut end = element_end(width, index, 0);
    for behind in (1..elements).rev() {
        let next = end + 1;
        let zero = element_end(width, index, next);
        if scans::is_below(order, h, &index[next + width..zero]) {
            return Place {
                at,
                left: behind + 1,
            };
        }
        at = next;
        end = zero;
    }
    Place { at, left: 1 }
}
