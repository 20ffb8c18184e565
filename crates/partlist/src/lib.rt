// The part list of an entry: whether bytes are one, and a step through it, one part per call.
#![tactic(auto)]

ghost use Rattle.std.specs.Prelude.{Ok, Some, ◌≡◌, [], ◌∷◌, ◌+◌, ◌≤◌, ◌<◌, length, drop};
ghost use Rattle.std.proofs.Math.Option.{some};
ghost use Rattle.spec.specs.Outcome.{ok, accepted};
ghost use Rattle.spec.specs.PartList.{kind_takes, part_from, list_ends, second_from, parts_from, part_found, step_among, part_step};
ghost use Rattle.spec.specs.Answers.{part_step_answer};
ghost use Rattle.partlist.specs.Spans.{part_in, end_part, EndInside, spans_parts, SpansInside};

use spec::{PartFound, Refusal};

// the kinds of parts, and how many bytes each may have
// Kept: the kinds are bytes, as they stand in a list and in `PartFound`; one test asks of them, which is no plainer by way of an enum.
pub const EXAMPLE: u8 = 0x01;

const LONGEST_EXAMPLE: usize = 20000;

pub const PRONUNCIATION: u8 = 0x02;

const LONGEST_PRONUNCIATION: usize = 1000;
// the byte behind the last part
pub const PARTS_END: u8 = 0x80;

// the most bytes of a part list: a kind, the bytes and a zero byte of each part, and that byte
pub const LONGEST_PARTS: usize = 21005;

// The parts of a list by where they stand: the first begins at 0, the second where the first ends; the list's last byte is at `end`.
#[derive(Clone, Copy, Debug, PartialEq, Eq)]
enum Spans {
    One { end: usize },
    Two { second: usize, end: usize },
}

// Whether a part of that kind may have `n` bytes.
pub fn kind_takes(kind: u8, n: usize) -> bool
    ensures { result ≡ kind_takes kind n }
{
    match kind {
        EXAMPLE => n <= LONGEST_EXAMPLE,
        PRONUNCIATION => n <= LONGEST_PRONUNCIATION,
        _ => false,
    }
}

// Where the part at `at` ends, behind its zero byte; none if no part stands there by its rules.
fn part_end(list: &[u8], at: usize) -> Option<usize>
    requires { at ≤ length list.now }
    ensures result_value { end_part list.now at result ≡ part_from (drop at list.now) }
    ensures end_inside { EndInside list.now at result }
{
    let kind = *list.get(at)?;
    let end = list.len();
    let zero = scans::first_zero(list, at + 1, end);
    if end <= zero {
        return None;
    }
    kind_takes(kind, zero - (at + 1)).then_some(zero + 1)
}

// Whether the list's last byte stands at `at`.
fn list_ends(list: &[u8], at: usize) -> bool
    requires { at ≤ length list.now }
    ensures { result ≡ list_ends (drop at list.now) }
{
    list.len() == at + 1 && list[at] == PARTS_END
}

// The parts of a list whose first part ends at `second`, where the list goes on.
fn find_second(list: &[u8], second: usize) -> Option<Spans>
    requires { (2 ≤ second) × (second ≤ length list.now) }
    ensures result_value { spans_parts list.now result ≡ second_from (part_in list.now 0 second) (drop second list.now) }
    ensures spans_inside { SpansInside list.now result }
{
    let end = part_end(list, second)?;
    if list[second] == list[0] {
        return None;
    }
    if !list_ends(list, end) {
        return None;
    }
    Some(Spans::Two { second, end })
}

// The parts of a list that is all of the slice.
fn find_parts(list: &[u8]) -> Option<Spans>
    ensures result_value { spans_parts list.now result ≡ parts_from list.now }
    ensures spans_inside { SpansInside list.now result }
{
    let end = part_end(list, 0)?;
    if list_ends(list, end) {
        return Some(Spans::One { end });
    }
    find_second(list, end)
}

// Whether the slice is one part list by its rules.
pub fn parts_ok(list: &[u8]) -> bool
    ensures { result ≡ accepted (parts_from list.now) }
{
    find_parts(list).is_some()
}

// What a step answers of the part from `at` up to `end`.
fn part_at(list: &[u8], at: usize, end: usize) -> PartFound
    requires { (at + 2 ≤ end) × (end ≤ length list.now) }
    ensures { part_step_answer (Ok (Some result)) ≡ ok (some (part_found at (part_in list.now at end))) }
{
    PartFound {
        kind: list[at],
        place: at + 1,
        part_length: end - (at + 2),
        next: end,
    }
}

// The step in a list of one part.
fn step_one(list: &[u8], end: usize, offset: usize) -> Result<Option<PartFound>, Refusal>
    requires { (2 ≤ end) × (end ≤ length list.now) }
    ensures { part_step_answer result ≡ step_among 0 (part_in list.now 0 end ∷ []) offset }
{
    if offset == 0 {
        return Ok(Some(part_at(list, 0, end)));
    }
    if offset == end {
        return Ok(None);
    }
    Err(Refusal::BadParts)
}

// The step in a list of two parts.
fn step_two(
    list: &[u8],
    second: usize,
    end: usize,
    offset: usize,
) -> Result<Option<PartFound>, Refusal>
    requires { (2 ≤ second) × (second + 2 ≤ end) × (end ≤ length list.now) }
    ensures { part_step_answer result ≡ step_among 0 (part_in list.now 0 second ∷ part_in list.now second end ∷ []) offset }
{
    if offset == 0 {
        return Ok(Some(part_at(list, 0, second)));
    }
    if offset == second {
        return Ok(Some(part_at(list, second, end)));
    }
    if offset == end {
        return Ok(None);
    }
    Err(Refusal::BadParts)
}

// The step: the part of a list at an offset, or the end.
pub fn part_step(list: &[u8], offset: usize) -> Result<Option<PartFound>, Refusal>
    ensures { part_step_answer result ≡ part_step list.now offset }
{
    match find_parts(list) {
        None => Err(Refusal::BadParts),
        Some(Spans::One { end }) => step_one(list, end, offset),
        Some(Spans::Two { second, end }) => step_two(list, second, end, offset),
    }
}

// A walk through the parts of one entry: the entry's part list, and the offset where the walk stands.
#[derive(Clone, Copy)]
pub struct PartWalker<'a> {
    pub parts: &'a [u8],
    pub at: usize,
}

impl<'a> PartWalker<'a> {
    // A walk that stands at an offset of a list.
    pub fn new(parts: &'a [u8], at: usize) -> Self
        ensures { (result.parts ≡ parts.entry) × (result.at ≡ at) }
    {
        PartWalker { parts, at }
    }

    // The part where the walk stands, or the end.
    pub fn step(self) -> Result<Option<PartFound>, Refusal>
        ensures { part_step_answer result ≡ part_step self.entry.parts.now self.entry.at }
    {
        part_step(self.parts, self.at)
    }
}

// The step by way of a walker. Its parameters are plain, so that callers are covered.
pub fn step_from(parts: &[u8], at: usize) -> Result<Option<PartFound>, Refusal>
    ensures { part_step_answer result ≡ part_step parts.now at }
{
    PartWalker::new(parts, at).step()
}
