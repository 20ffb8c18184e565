// The printed list of an image: one line of numbers, then one line for each entry.
#![tactic(auto)]

ghost use Rattle.std.specs.Prelude.{◌≡◌, false, cond, not, ◌+◌, ◌*◌, ◌%◌, ◌≤◌, ◌<◌, length, eqb};
ghost use Rattle.spec.specs.Order.{below_of};
ghost use Rattle.spec.specs.Bytes.{write};
ghost use Rattle.spec.specs.Outcome.{refused};
ghost use Rattle.spec.specs.Answers.{number_of};
ghost use Rattle.spec.specs.Check.{image_from};
ghost use Rattle.spec.specs.Listing.{digits, column, first_line, image_lines, listing};
ghost use Rattle.listing.specs.Lines.{entry_numbers, fields_line, numbers, RunPrinted, AllPrinted, Accepted, listed};
ghost use Rattle.inspect.specs.Overview.{AcceptedImage};

use header::slice_ok;
use inspect::{MARK_WORDS, Overview};
use runs::WORD;
use spec::Refusal;

// The bytes of the largest image that is read.
pub const LONGEST_IMAGE: usize = 65536;

// The bytes that the longest list may take.
pub const LONGEST_LIST: usize = 4000000;

// Where the lines stored so far end, and the ordinal of the next entry.
#[derive(Clone, Copy, Debug, PartialEq, Eq)]
struct Printed {
    at: usize,
    next: usize,
}

// The numbers of an entry's line: its ordinal, its run's block and number of blocks, its attribute, and its text's length.
#[derive(Clone, Copy, Debug, PartialEq, Eq)]
struct Fields {
    ordinal: usize,
    block: usize,
    blocks: usize,
    attribute: usize,
    text: usize,
}

// A digit as a byte.
fn digit(n: usize) -> u8
    requires { n < 10 }
    ensures { result ≡ 48 + n }
{
    b'0' + n as u8
}

// What stands in a column that is not the last, where n is left: its last digit, or a space.
fn shown(n: usize) -> u8
    ensures { result ≡ cond (not (eqb n 0)) (48 + n % 10) 32 }
{
    if n == 0 { b' ' } else { digit(n % 10) }
}

// Stores the columns in front of the last one, w of them, where n is left.
fn front_columns(out: &mut [u8], at: usize, w: usize, n: usize)
    requires { at + w ≤ length out.old }
    ensures out_after { out.new ≡ write at (digits false w n) out.old }
    ensures out_len_unchanged { length out.new ≡ length out.old }
{
    let mut rest = n;
    for i in (0..w).rev() {
        out[at + i] = shown(rest);
        rest /= 10;
    }
}

// Stores n in w columns, right-justified.
fn column(out: &mut [u8], at: usize, w: usize, n: usize)
    requires { (1 ≤ w) × (at + w ≤ length out.old) }
    ensures out_after { out.new ≡ write at (column w n) out.old }
    ensures out_len_unchanged { length out.new ≡ length out.old }
{
    front_columns(out, at, w - 1, n / 10);
    out[at + w - 1] = digit(n % 10);
}

// Stores the line of a refusal, and answers where it ends.
fn refused_line(out: &mut [u8], refusal: Refusal) -> usize
    requires { 12 ≤ length out.old }
    ensures value { (result ≡ length (image_lines (refused (number_of refusal)))) × (result ≤ length out.old) }
    ensures out_after { out.new ≡ write 0 (image_lines (refused (number_of refusal))) out.old }
{
    out[..7].copy_from_slice(b"refused");
    column(out, 7, 4, u32::from(refusal) as usize);
    out[11] = b'\n';
    12
}

// Stores the first line, and answers where it ends.
fn first_line(out: &mut [u8], words: usize, index: usize, d: usize, free: usize) -> usize
    requires { 25 ≤ length out.old }
    ensures value { (result ≡ length (first_line (numbers words index d free))) × (result ≡ 25) }
    ensures out_after { out.new ≡ write 0 (first_line (numbers words index d free)) out.old }
    ensures out_len_unchanged { length out.new ≡ length out.old }
{
    column(out, 0, 6, words);
    column(out, 6, 6, index);
    column(out, 12, 6, d);
    column(out, 18, 6, free);
    out[24] = b'\n';
    25
}

// Stores the numbers of an entry's line.
fn entry_numbers(out: &mut [u8], at: usize, fields: Fields)
    requires { at + 28 ≤ length out.old }
    ensures out_after { out.new ≡ write at (entry_numbers fields) out.old }
    ensures out_len_unchanged { length out.new ≡ length out.old }
{
    column(out, at, 6, fields.ordinal);
    column(out, at + 6, 6, fields.block);
    column(out, at + 12, 6, fields.blocks);
    column(out, at + 18, 4, fields.attribute);
    column(out, at + 22, 6, fields.text);
}

// Stores the line of an entry with these numbers and that headword, and answers where it ends.
fn entry_line(out: &mut [u8], at: usize, fields: Fields, word: &[u8]) -> usize
    requires { at + 30 + length word.now ≤ length out.old }
    ensures value { result ≡ at + 30 + length word.now }
    ensures out_after { out.new ≡ write at (fields_line fields word.now) out.old }
    ensures out_len_unchanged { length out.new ≡ length out.old }
{
    entry_numbers(out, at, fields);
    out[at + 28] = b' ';
    let end = at + 29 + word.len();
    out[at + 29..end].copy_from_slice(word);
    out[end] = b'\n';
    end + 1
}

// Stores the lines of the entries of a run of `blocks` blocks at `block`, behind those stored so far. An entry takes at least 5
// bytes of its run, and its line at most 278: 56 for each byte of the run.
fn run_lines(
    order: usize,
    out: &mut [u8],
    from: Printed,
    block: usize,
    blocks: usize,
    run: &[u8],
) -> Printed
    requires { (2 ≤ length run.now) × (from.next ≤ from.at) × (from.at + 56 * length run.now ≤ length out.old) }
    ensures run_printed { RunPrinted (below_of order) block blocks run.now from.next from.at out.old out.new result }
    ensures next_le_at { (result.next ≤ result.at) × (result.at ≤ from.at + 56 * length run.now) }
    ensures out_len_unchanged { length out.new ≡ length out.old }
{
    let mut word = [0u8; WORD];
    let mut held = 0;
    let mut pos = 2;
    let mut at = from.at;
    let mut ordinal = from.next;
    while let Ok(Some(entry)) = runs::read_entry(order, run, pos, &mut word, held) {
        let attribute = usize::from(run[entry.zero + 1]);
        let text = entry.next - (entry.zero + 2);
        let fields = Fields {
            ordinal,
            block,
            blocks,
            attribute,
            text,
        };
        at = entry_line(out, at, fields, &word[..entry.length]);
        held = entry.length;
        pos = entry.next;
        ordinal += 1;
    }
    Printed { at, next: ordinal }
}

// Stores the lines of the entries of all runs of an accepted image, of which v tells, in index order, and answers where they end.
fn all_lines(out: &mut [u8], start: usize, image: &[u8], v: Overview) -> usize
    requires accepted { AcceptedImage image.now v }
    requires in_bounds { (1 ≤ start) × (length image.now % 256 ≡ 0) × (start + 56 * length image.now ≤ length out.old) }
    ensures all_printed { AllPrinted image.now start out.old out.new result }
    ensures upper_bound { result ≤ length out.old }
{
    let order = v.form.order;
    let (elements, area) = inspect::areas(image, v);
    let mut printed = Printed { at: start, next: 1 };
    for element in elements {
        let b = element.number;
        let Ok(size) = runs::run_size(area, b) else {
            return printed.at;
        };
        let run = &area.bytes[256 * b..256 * b + 256 * size];
        printed = run_lines(order, out, printed, b, size, run);
    }
    printed.at
}

// Stores the list of an accepted image, of which v tells, with so many free blocks, and answers where it ends.
fn accepted_lines(out: &mut [u8], image: &[u8], v: Overview, free: usize) -> usize
    requires accepted { Accepted image.now v free }
    requires in_bounds { (length image.now ≤ LONGEST_IMAGE) × (length image.now % 256 ≡ 0) × (LONGEST_LIST ≤ length out.old) }
    ensures value { (result ≡ length (image_lines (image_from image.now))) × (result ≤ length out.old) }
    ensures out_after { out.new ≡ write 0 (image_lines (image_from image.now)) out.old }
{
    let at = first_line(out, v.words, v.n, v.d, free);
    all_lines(out, at, image, v)
}

// Stores the list of what stands in all bytes of `image`, an image or not, and answers where it ends.
fn inspected_lines(out: &mut [u8], image: &[u8]) -> usize
    requires { (256 ≤ length image.now) × (length image.now ≤ LONGEST_IMAGE) × (length image.now % 256 ≡ 0) × (LONGEST_LIST ≤ length out.old) }
    ensures value { (result ≡ length (image_lines (image_from image.now))) × (result ≤ length out.old) }
    ensures out_after { out.new ≡ write 0 (image_lines (image_from image.now)) out.old }
{
    let mut free = [0u64; MARK_WORDS];
    match inspect::inspect(image, &mut free) {
        Err(refusal) => refused_line(out, refusal),
        Ok(v) => accepted_lines(out, image, v, marks::count(&free)),
    }
}

// Stores the list of the input `image`, and answers where it ends.
fn input_lines(out: &mut [u8], image: &[u8]) -> usize
    requires { LONGEST_LIST ≤ length out.old }
    ensures value { (result ≡ length (listing image.now)) × (result ≤ length out.old) }
    ensures out_after { out.new ≡ write 0 (listing image.now) out.old }
{
    if LONGEST_IMAGE < image.len() || !slice_ok(image, image.len()) {
        return refused_line(out, Refusal::BadLength);
    }
    inspected_lines(out, image)
}

// Stores the list of the input `image`, and answers where it ends. A slice too short for the longest list is left as it is: 0.
// Kept: the answer of `listing` may not change: `listed`.
pub fn listing(image: &[u8], out: &mut [u8]) -> usize
    ensures value { (result ≡ length (listed image.now out.old)) × (result ≤ length out.old) }
    ensures out_after { out.new ≡ write 0 (listed image.now out.old) out.old }
{
    if out.len() < LONGEST_LIST {
        return 0;
    }
    input_lines(out, image)
}
