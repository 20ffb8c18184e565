// A script performed: a list of calls from bytes.
#![tactic(auto)]

ghost use Rattle.std.specs.Prelude.{◌≡◌, ◌+◌, ◌<◌, ◌≤◌, length, get_or, set};
ghost use Rattle.std.proofs.Math.Option.{some};
ghost use Rattle.spec.specs.Bytes.{zeros};
ghost use Rattle.spec.specs.Claim.{Call, new_length, look_up_call, walk_call, insert_call, delete_call, optimise_call, perform};
ghost use Rattle.spec.specs.Answers.{code, length_answer};
ghost use Rattle.script.specs.Script.{call_size, call_of, FrontOf, calls_of, code_of, found_code, told, played, Claimed};

use byteops::{LONGEST_HEADWORD, LONGEST_TEXT, read_u16};
use spec::Refusal;

// The code of a call that finds no such entry.
const ABSENT: u32 = 100;

// What comes of a call: its code, and the length that stands then.
#[derive(Clone, Copy, Debug, PartialEq, Eq)]
struct After {
    code: u32,
    len: usize,
}

// How many bytes the call at the front of a script takes, if it is there whole; none: the script ends.
fn first_call(s: &[u8]) -> Option<usize>
    ensures { FrontOf s.now result }
{
    if s.len() < 5 {
        return None;
    }
    if 5 < s[0] {
        return None;
    }
    let size = 5 + usize::from(s[1]) + read_u16(s, 2);
    if s.len() < size {
        return None;
    }
    Some(size)
}

// The code of a call that looks for an entry.
fn found_code<T: Copy>(answer: Result<Option<T>, Refusal>) -> u32
    ensures { result ≡ found_code answer }
{
    match answer {
        Err(refusal) => refusal.into(),
        Ok(found) => match found {
            None => ABSENT,
            Some(_) => 0,
        },
    }
}

// What comes of a call that answers a length: a refusal leaves the length that stood.
fn after_change(answer: Result<usize, Refusal>, len: usize) -> After
    ensures code { result.code ≡ code (length_answer answer) }
    ensures len { result.len ≡ new_length len (length_answer answer) }
{
    match answer {
        Err(refusal) => After {
            code: refusal.into(),
            len,
        },
        Ok(n) => After { code: 0, len: n },
    }
}

// A look up: its code.
fn look_up(image: &[u8], len: usize, headword: &[u8]) -> u32
    ensures { result ≡ code_of (perform image.now len (look_up_call headword.now (zeros 3000))).observed }
{
    let mut text = [0u8; LONGEST_TEXT];
    found_code(reader::look_up(image, len, headword, &mut text))
}

// A walk: its code.
fn walk(image: &[u8], len: usize, headword: &[u8], above: bool) -> u32
    ensures { result ≡ code_of (perform image.now len (walk_call above headword.now (zeros 248) (zeros 3000))).observed }
{
    let mut word = [0u8; LONGEST_HEADWORD];
    let mut text = [0u8; LONGEST_TEXT];
    found_code(reader::walk(image, len, headword, above, &mut word, &mut text))
}

// An insertion.
fn insert(
    image: &mut [u8],
    len: usize,
    work: &mut [u8],
    headword: &[u8],
    attribute: u8,
    text: &[u8],
) -> After
    ensures { record {
      code = result.code;
      image = image.new;
      length_after = result.len;
      work = work.new;
    }
        ≡ told image.old len work.old
        (insert_call (zeros (length work.old)) headword.now attribute text.now) }
{
    let answer = editor::insert(image, len, work, headword, attribute, text);
    after_change(answer, len)
}

// A deletion.
fn delete(image: &mut [u8], len: usize, work: &mut [u8], headword: &[u8]) -> After
    ensures { record {
      code = result.code;
      image = image.new;
      length_after = result.len;
      work = work.new;
    }
        ≡ told image.old len work.old
        (delete_call (zeros (length work.old)) headword.now) }
{
    match editor::delete(image, len, work, headword) {
        Err(refusal) => After {
            code: refusal.into(),
            len,
        },
        Ok(None) => After { code: ABSENT, len },
        Ok(Some(n)) => After { code: 0, len: n },
    }
}

// An optimising.
fn optimise(image: &mut [u8], len: usize, work: &mut [u8]) -> After
    ensures { record {
      code = result.code;
      image = image.new;
      length_after = result.len;
      work = work.new;
    }
        ≡ told image.old len work.old
        (optimise_call (zeros (length work.old))) }
{
    after_change(editor::optimise(image, len, work), len)
}

// The call at the front of a script, which holds it whole.
// Kept: a call's kind is the byte of the script; an enum would name each kind once more, in a match of its own.
fn perform(s: &[u8], image: &mut [u8], len: usize, work: &mut [u8]) -> After
    requires { (call_size s.now ≤ length s.now) × (get_or s.now 0 0 ≤ 5) }
    ensures work_after { (c : Call) → call_of (length work.old) s.now ≡ some c
        → record {
          code = result.code;
          image = image.new;
          length_after = result.len;
          work = work.new;
        }
        ≡ told image.old len work.old c }
    ensures code_bound { result.code < 256 }
{
    let word = 5 + usize::from(s[1]);
    let headword = &s[5..word];
    match s[0] {
        0 => After {
            code: look_up(image, len, headword),
            len,
        },
        1 => After {
            code: walk(image, len, headword, false),
            len,
        },
        2 => After {
            code: walk(image, len, headword, true),
            len,
        },
        3 => {
            let end = word + read_u16(s, 2);
            insert(image, len, work, headword, s[4], &s[word..end])
        }
        4 => delete(image, len, work, headword),
        _ => optimise(image, len, work),
    }
}

// Stores the code of call `n`, if there is room.
fn put_code(codes: &mut [u8], n: usize, code: u32)
    requires { code < 256 }
    ensures { codes.new ≡ set codes.old n code }
{
    if n < codes.len() {
        codes[n] = code as u8;
    }
}

// Performs the calls of a script in order on the image slice, each with the length that stands then, the changing ones with
// the working slice `work`; their codes go to `codes`, one byte a call, as far as there is room. Answers the length at the end.
pub fn play(script: &[u8], image: &mut [u8], len: usize, work: &mut [u8], codes: &mut [u8]) -> usize
    ensures codes_after { record {
      image = image.new;
      length_after = result;
      work = work.new;
      codes = codes.new;
    }
        ≡ played (calls_of (length work.old) script.now)
        image.old len work.old codes.old }
    ensures claimed { Claimed (calls_of (length work.old) script.now) image.old len image.new result }
{
    let mut l = len;
    let mut at = 0;
    let mut n = 0;
    while let Some(size) = first_call(&script[at..]) {
        let done = perform(&script[at..], image, l, work);
        put_code(codes, n, done.code);
        l = done.len;
        at += size;
        n += 1;
    }
    l
}
