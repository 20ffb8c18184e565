// The changing calls: create, insert, delete and optimise.
#![tactic(auto)]

ghost use Rattle.std.specs.Prelude.{◌≡◌, ℕ, true, false, ◌*◌, ◌%◌, ◌<◌, ◌≤◌, length, take, replicate};
ghost use Rattle.spec.specs.Outcome.{refused};
ghost use Rattle.spec.specs.Lists.{◌∈◌};
ghost use Rattle.spec.specs.Calls.{create, insert, delete, optimise};
ghost use Rattle.spec.specs.Answers.{length_answer, delete_answer};
ghost use Rattle.spec.specs.Rows.{No};
ghost use Rattle.spec.specs.CallRows.{change_numbers};
ghost use Rattle.marks.specs.Marks.{marks};
ghost use Rattle.inspect.specs.Overview.{AcceptedImage, FreeMarked};
ghost use Rattle.change.specs.Ready.{old_length};
ghost use Rattle.spec.specs.Header.{writable};
ghost use Rattle.header.specs.Form.{layout_named};
ghost use Rattle.editor.specs.Entered.{words_after};
ghost use Rattle.editor.specs.Changeable.{Changeable};

use change::CHANGE_WORDS;
use header::HEADER;
use inspect::{MARK_WORDS, Overview};
use spec::{NewFile, Refusal};

// The most bytes of a body: an attribute and a text.
const LONGEST_BODY: usize = 3001;

// Create: an empty image of a new file.
pub fn create(image: &mut [u8], new: NewFile) -> Result<usize, Refusal>
    ensures { record { answer = length_answer result; image = image.new } ≡ create image.old new }
{
    if image.len() < HEADER {
        return Err(Refusal::BadLength);
    }
    if !header::known_version(usize::from(new.version)) {
        return Err(Refusal::BadVersion);
    }
    header::write_empty(image, new);
    Ok(HEADER)
}

// Rows 3 to 11: an image is accepted and may be changed; its free blocks are then marked.
fn changeable(image: &[u8], len: usize, free: &mut [u64]) -> Result<Overview, Refusal>
    requires in_bounds { (256 ≤ len) × (len % 256 ≡ 0) × (len ≤ length image.now) × (1024 ≤ length free.old) }
    requires free_value { marks free.old ≡ replicate (64 * length free.old) false }
    ensures changeable { Changeable image.now len (marks free.new) result }
    ensures free_len_unchanged { length free.new ≡ length free.old }
{
    let v = inspect::inspect(&image[..len], free)?;
    if !header::writable(image) {
        return Err(Refusal::ReadOnly);
    }
    Ok(v)
}

// How many entries there are after an insertion.
fn words_after(words: usize, replaced: bool) -> usize
    requires { words < 4294967296 }
    ensures { result ≡ words_after words replaced }
{
    words + usize::from(!replaced)
}

// Insert in an accepted image that may be changed, of which `v` tells: rows 12, 13 and 15, and the insertion.
fn insert_in(
    image: &mut [u8],
    work: &mut [u8],
    v: Overview,
    free: &mut [u64],
    headword: &[u8],
    attribute: u8,
    text: &[u8],
) -> Result<usize, Refusal>
    requires accepted_image { AcceptedImage (take (old_length v) image.old) v × FreeMarked (take (old_length v) image.old) (marks free.old) }
    requires v_in_bounds { (old_length v ≤ length image.old) × (length image.old ≤ length work.old) × (length free.old ≡ 2560) × (v.words < 4294967296) }
    requires may { writable (layout_named image.old) image.old ≡ true }
    ensures result_value { length_answer result ≡ (insert image.old (old_length v) work.old headword.now attribute text.now).answer }
    ensures image_after { image.new ≡ (insert image.old (old_length v) work.old headword.now attribute text.now).image }
    ensures work_len_unchanged { length work.new ≡ length work.old }
{
    let len = header::position(v.form.extended, v.n, v.d);
    if !runs::headword_ok(headword) {
        return Err(Refusal::BadHeadword);
    }
    if !runs::text_ok(text) || !runs::attribute_ok(attribute) {
        return Err(Refusal::BadText);
    }
    // Kept: a buffer of the longest body, its bytes counted beside it: no heap.
    let mut body = [0u8; LONGEST_BODY];
    body[0] = attribute;
    body[1..1 + text.len()].copy_from_slice(text);
    let new = &body[..1 + text.len()];
    let p = change::measure_change(&image[..len], v, headword, new, true);
    let words = words_after(v.words, p.found);
    change::change(image, work, p, free, headword, new, words)
}

// Insert: rows 3 on.
fn insert_tested(
    image: &mut [u8],
    len: usize,
    work: &mut [u8],
    headword: &[u8],
    attribute: u8,
    text: &[u8],
) -> Result<usize, Refusal>
    requires { (256 ≤ len) × (len % 256 ≡ 0) × (len ≤ length image.old) × (length image.old ≤ length work.old) }
    ensures result_value { length_answer result ≡ (insert image.old len work.old headword.now attribute text.now).answer }
    ensures image_after { image.new ≡ (insert image.old len work.old headword.now attribute text.now).image }
    ensures work_len_unchanged { length work.new ≡ length work.old }
{
    let mut free = [0u64; CHANGE_WORDS];
    let v = changeable(image, len, &mut free)?;
    insert_in(image, work, v, &mut free, headword, attribute, text)
}

// Insert: the entry with that headword is added or replaced.
pub fn insert(
    image: &mut [u8],
    len: usize,
    work: &mut [u8],
    headword: &[u8],
    attribute: u8,
    text: &[u8],
) -> Result<usize, Refusal>
    ensures { record { answer = length_answer result; image = image.new; work = work.new }
        ≡ insert image.old len work.old headword.now attribute text.now }
{
    if !header::slice_ok(image, len) {
        return Err(Refusal::BadLength);
    }
    if work.len() < image.len() {
        return Err(Refusal::ShortWork);
    }
    let r = insert_tested(image, len, work, headword, attribute, text);
    scans::clear(work);
    r
}

// Delete in an accepted image that may be changed, of which `v` tells: rows 12 and 15, and the deletion.
fn delete_in(
    image: &mut [u8],
    work: &mut [u8],
    v: Overview,
    free: &mut [u64],
    headword: &[u8],
) -> Result<Option<usize>, Refusal>
    requires accepted_image { AcceptedImage (take (old_length v) image.old) v × FreeMarked (take (old_length v) image.old) (marks free.old) }
    requires v_in_bounds { (old_length v ≤ length image.old) × (length image.old ≤ length work.old) × (length free.old ≡ 2560) }
    requires may { writable (layout_named image.old) image.old ≡ true }
    ensures result_value { delete_answer result ≡ (delete image.old (old_length v) work.old headword.now).answer }
    ensures image_after { image.new ≡ (delete image.old (old_length v) work.old headword.now).image }
    ensures work_len_unchanged { length work.new ≡ length work.old }
{
    let len = header::position(v.form.extended, v.n, v.d);
    if !runs::headword_ok(headword) {
        return Err(Refusal::BadHeadword);
    }
    // Kept: a body that is not used beside `false`, not an Option: the definitions that the clauses cite (planned, changed_entries) take both.
    let none = [0u8; 1];
    let p = change::measure_change(&image[..len], v, headword, &none, false);
    if !p.found {
        return Ok(None);
    }
    let l = change::change(image, work, p, free, headword, &none, v.words - 1)?;
    Ok(Some(l))
}

// Delete: rows 3 on.
fn delete_tested(
    image: &mut [u8],
    len: usize,
    work: &mut [u8],
    headword: &[u8],
) -> Result<Option<usize>, Refusal>
    requires { (256 ≤ len) × (len % 256 ≡ 0) × (len ≤ length image.old) × (length image.old ≤ length work.old) }
    ensures result_value { delete_answer result ≡ (delete image.old len work.old headword.now).answer }
    ensures image_after { image.new ≡ (delete image.old len work.old headword.now).image }
    ensures work_len_unchanged { length work.new ≡ length work.old }
{
    let mut free = [0u64; CHANGE_WORDS];
    let v = changeable(image, len, &mut free)?;
    delete_in(image, work, v, &mut free, headword)
}

// Delete: the entry with that headword goes.
pub fn delete(
    image: &mut [u8],
    len: usize,
    work: &mut [u8],
    headword: &[u8],
) -> Result<Option<usize>, Refusal>
    ensures { record { answer = delete_answer result; image = image.new; work = work.new }
        ≡ delete image.old len work.old headword.now }
{
    if !header::slice_ok(image, len) {
        return Err(Refusal::BadLength);
    }
    if work.len() < image.len() {
        return Err(Refusal::ShortWork);
    }
    let r = delete_tested(image, len, work, headword);
    scans::clear(work);
    r
}

// Optimise: rows 3 on.
fn optimise_tested(image: &mut [u8], len: usize, work: &mut [u8]) -> Result<usize, Refusal>
    requires { (256 ≤ len) × (len % 256 ≡ 0) × (len ≤ length image.old) × (length image.old ≤ length work.old) }
    ensures result_value { length_answer result ≡ (optimise image.old len work.old).answer }
    ensures image_after { image.new ≡ (optimise image.old len work.old).image }
    ensures work_len_unchanged { length work.new ≡ length work.old }
{
    let mut free = [0u64; MARK_WORDS];
    let v = changeable(image, len, &mut free)?;
    byteops::copy(work, 0, image, 0, len);
    Ok(pack::pack(image, &work[..len], v))
}

// Optimise: the runs one after the other, no free block. It cannot run out: its number is never 15, but one of 1 to 11.
pub fn optimise(image: &mut [u8], len: usize, work: &mut [u8]) -> Result<usize, Refusal>
    ensures work_after { record { answer = length_answer result; image = image.new; work = work.new }
        ≡ optimise image.old len work.old }
    ensures never_fifteen { No (length_answer result ≡ refused 15) }
    ensures known_number { (n : ℕ) → length_answer result ≡ refused n → n ∈ change_numbers }
{
    if !header::slice_ok(image, len) {
        return Err(Refusal::BadLength);
    }
    if work.len() < image.len() {
        return Err(Refusal::ShortWork);
    }
    let r = optimise_tested(image, len, work);
    scans::clear(work);
    r
}
