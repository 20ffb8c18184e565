// The reading calls: check, look up and walk.
#![tactic(auto)]

ghost use Rattle.std.specs.Prelude.{◌≡◌, List, ℕ, ◌+◌, ◌-◌, ◌%◌, ◌≤◌, length};
ghost use Rattle.std.proofs.Math.Option.{some};
ghost use Rattle.spec.specs.Outcome.{ok};
ghost use Rattle.spec.specs.Bytes.{bytes_at};
ghost use Rattle.spec.specs.Check.{Image, image_from};
ghost use Rattle.spec.specs.Calls.{check, text_fitted, look_up_in, look_up_result, look_up, entry_fitted, start_ok, walk_in, walk_result, walk};
ghost use Rattle.spec.specs.Answers.{check_answer, look_up_answer, walk_answer};
ghost use Rattle.inspect.specs.Overview.{AcceptedImage};

use byteops::LONGEST_HEADWORD;
use inspect::{MARK_WORDS, Overview};
use runs::{EntryPlace, WORD};
use spec::{EntryFound, ImageCounts, Refusal, TextFound};

// Check: the numbers of headwords, index blocks, data blocks and free blocks of the image in the first `len` bytes of `s`.
pub fn check(s: &[u8], len: usize) -> Result<ImageCounts, Refusal>
    ensures { check_answer result ≡ check s.now len }
{
    if !header::slice_ok(s, len) {
        return Err(Refusal::BadLength);
    }
    let mut free = [0u64; MARK_WORDS];
    let v = inspect::inspect(&s[..len], &mut free)?;
    Ok(ImageCounts {
        headwords: v.words,
        index_blocks: v.n,
        data_blocks: v.d,
        free_blocks: marks::count(&free),
    })
}

// The text of the entry at a place goes to the front of `text`: row 14, then the attribute and the text's length.
fn give_text(area: &[u8], place: EntryPlace, text: &mut [u8]) -> Result<Option<TextFound>, Refusal>
    requires { (place.zero + 2 ≤ place.next) × (place.next ≤ length area.now) }
    ensures { (h : List ℕ)
        → record { answer = look_up_answer result; text = text.new }
        ≡ look_up_result text.old
        (text_fitted text.old (some (record { headword = h; body = bytes_at (place.zero + 1) (place.next - (place.zero + 1)) area.now }))) }
{
    let from = place.zero + 2;
    let text_length = place.next - from;
    if text.len() < text_length {
        return Err(Refusal::ShortOutput);
    }
    byteops::copy(text, 0, area, from, text_length);
    let attribute = area[place.zero + 1];
    Ok(Some(TextFound {
        attribute,
        text_length,
    }))
}

// Look up in an accepted image: rows 12 and 14, and the answer.
fn look_up_in(
    image: &[u8],
    v: Overview,
    headword: &[u8],
    text: &mut [u8],
) -> Result<Option<TextFound>, Refusal>
    requires accepted_image { AcceptedImage image.now v }
    requires in_blocks { length image.now % 256 ≡ 0 }
    ensures { (i : Image) → image_from image.now ≡ ok i
        → record { answer = look_up_answer result; text = text.new }
        ≡ look_up_result text.old (look_up_in i headword.now text.old) }
{
    if !runs::headword_ok(headword) {
        return Err(Refusal::BadHeadword);
    }
    let (elements, area) = inspect::areas(image, v);
    let order = v.form.order;
    let mut word = [0u8; WORD];
    let found = seek::seek(order, elements, area, false, headword, &mut word);
    match found {
        Some(place) if scans::is_equal(&word[..place.length], headword) => {
            give_text(area.bytes, place, text)
        }
        _ => Ok(None),
    }
}

// Look up: the text of the entry with that headword goes to the front of `text`.
pub fn look_up(
    s: &[u8],
    len: usize,
    headword: &[u8],
    text: &mut [u8],
) -> Result<Option<TextFound>, Refusal>
    ensures { record { answer = look_up_answer result; text = text.new }
        ≡ look_up s.now len headword.now text.old }
{
    if !header::slice_ok(s, len) {
        return Err(Refusal::BadLength);
    }
    let image = &s[..len];
    let mut free = [0u64; MARK_WORDS];
    let v = inspect::inspect(image, &mut free)?;
    look_up_in(image, v, headword, text)
}

// Whether a walk may start from a headword: at most 248 bytes, none zero.
fn start_ok(h: &[u8]) -> bool
    ensures { result ≡ start_ok h.now }
{
    h.len() <= LONGEST_HEADWORD && scans::no_zero(h, 0, h.len())
}

// The headword and the text of the entry at a place go to the fronts of the outputs: row 14, then the attribute and both lengths.
fn give_entry(
    headword: &[u8],
    area: &[u8],
    place: EntryPlace,
    out: &mut [u8],
    text: &mut [u8],
) -> Result<Option<EntryFound>, Refusal>
    requires { (place.zero + 2 ≤ place.next) × (place.next ≤ length area.now) }
    ensures { record { answer = walk_answer result; headword = out.new; text = text.new }
        ≡ walk_result out.old text.old
        (entry_fitted out.old text.old
        (some (record { headword = headword.now; body = bytes_at (place.zero + 1) (place.next - (place.zero + 1)) area.now }))) }
{
    let start = place.zero + 2;
    let headword_length = headword.len();
    let text_length = place.next - start;
    if out.len() < headword_length {
        return Err(Refusal::ShortOutput);
    }
    if text.len() < text_length {
        return Err(Refusal::ShortOutput);
    }
    byteops::copy(out, 0, headword, 0, headword_length);
    byteops::copy(text, 0, area, start, text_length);
    let attribute = area[place.zero + 1];
    Ok(Some(EntryFound {
        attribute,
        headword_length,
        text_length,
    }))
}

// Walk in an accepted image: rows 12 and 14, and the answer.
fn walk_in(
    image: &[u8],
    v: Overview,
    headword: &[u8],
    above: bool,
    out: &mut [u8],
    text: &mut [u8],
) -> Result<Option<EntryFound>, Refusal>
    requires accepted_image { AcceptedImage image.now v }
    requires in_blocks { length image.now % 256 ≡ 0 }
    ensures { (i : Image) → image_from image.now ≡ ok i
        → record { answer = walk_answer result; headword = out.new; text = text.new }
        ≡ walk_result out.old text.old
        (walk_in i above headword.now out.old text.old) }
{
    if !start_ok(headword) {
        return Err(Refusal::BadHeadword);
    }
    let (elements, area) = inspect::areas(image, v);
    let order = v.form.order;
    let mut word = [0u8; WORD];
    let found = seek::seek(order, elements, area, above, headword, &mut word);
    let Some(place) = found else {
        return Ok(None);
    };
    give_entry(&word[..place.length], area.bytes, place, out, text)
}

// Walk: the least entry not below the headword, or above it; its headword and its text go to the fronts of the outputs.
pub fn walk(
    s: &[u8],
    len: usize,
    headword: &[u8],
    above: bool,
    out: &mut [u8],
    text: &mut [u8],
) -> Result<Option<EntryFound>, Refusal>
    ensures { record { answer = walk_answer result; headword = out.new; text = text.new }
        ≡ walk s.now len above headword.now out.old text.old }
{
    if !header::slice_ok(s, len) {
        return Err(Refusal::BadLength);
    }
    let image = &s[..len];
    let mut free = [0u64; MARK_WORDS];
    let v = inspect::inspect(image, &mut free)?;
    walk_in(image, v, headword, above, out, text)
}
