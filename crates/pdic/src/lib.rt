// The calls from C, as include/pdic.h declares them.
#![tactic(auto)]

ghost use Rattle.std.specs.Prelude.{◌≡◌, ℕ, Result, not, ◌∷◌, eqb};
ghost use Rattle.spec.specs.Lists.{◌∈◌};
ghost use Rattle.spec.specs.Calls.{create, check, look_up, walk, insert, delete, optimise};
ghost use Rattle.spec.specs.Answers.{code, code_or_absent, lent_number, lent_number_or_absent, length_answer, delete_answer};
ghost use Rattle.spec.specs.Rows.{No};
ghost use Rattle.spec.specs.CallRows.{change_numbers};
ghost use Rattle.pdic.specs.Lent.{create_lent, check_lent, look_up_lent, walk_lent, change_lent, delete_lent};

use spec::{NewFile, Refusal};

// What a call returns where there is no such entry.
const ABSENT: u32 = 100;

// What a call returns that answers a length: the length goes to the number lent for it, a refusal leaves that as it is.
fn tell_length(answer: Result<usize, Refusal>, new_len: &mut usize) -> u32
    ensures returned { result ≡ code (length_answer answer) }
    ensures new_len_after { new_len.new ≡ lent_number (λ l. l) new_len.old (length_answer answer) }
{
    match answer {
        Err(refusal) => refusal.into(),
        Ok(n) => {
            *new_len = n;
            0
        }
    }
}

#[unsafe(no_mangle)]
pub extern "C" fn pdic_create(image: &mut [u8], version: u8, ident: u64, new_len: &mut usize) -> u32
    ensures { record {
      returned = result;
      image = image.new;
      new_length = new_len.new;
    }
        ≡ create_lent (create image.old (record { version = version; identifier = ident })) new_len.old }
{
    let new = NewFile {
        version,
        identifier: ident,
    };
    tell_length(editor::create(image, new), new_len)
}

#[unsafe(no_mangle)]
pub extern "C" fn pdic_check(
    image: &[u8],
    len: usize,
    headwords: &mut u64,
    index_blocks: &mut u64,
    data_blocks: &mut u64,
    free_blocks: &mut u64,
) -> u32
    ensures { record {
      returned = result;
      headwords = headwords.new;
      index_blocks = index_blocks.new;
      data_blocks = data_blocks.new;
      free_blocks = free_blocks.new;
    }
        ≡ check_lent (check image.now len)
        headwords.old index_blocks.old data_blocks.old free_blocks.old }
{
    match reader::check(image, len) {
        Err(refusal) => refusal.into(),
        Ok(counts) => {
            *headwords = counts.headwords as u64;
            *index_blocks = counts.index_blocks as u64;
            *data_blocks = counts.data_blocks as u64;
            *free_blocks = counts.free_blocks as u64;
            0
        }
    }
}

#[unsafe(no_mangle)]
pub extern "C" fn pdic_look_up(
    image: &[u8],
    len: usize,
    headword: &[u8],
    text: &mut [u8],
    attribute: &mut u8,
    text_len: &mut usize,
) -> u32
    ensures { record {
      returned = result;
      text = text.new;
      attribute = attribute.new;
      text_length = text_len.new;
    }
        ≡ look_up_lent (look_up image.now len headword.now text.old)
        attribute.old text_len.old }
{
    match reader::look_up(image, len, headword, text) {
        Err(refusal) => refusal.into(),
        Ok(None) => ABSENT, // nothing is written
        Ok(Some(found)) => {
            *attribute = found.attribute;
            *text_len = found.text_length;
            0
        }
    }
}

#[unsafe(no_mangle)]
pub extern "C" fn pdic_walk(
    image: &[u8],
    len: usize,
    headword: &[u8],
    above: u8,
    headword_out: &mut [u8],
    text: &mut [u8],
    attribute: &mut u8,
    headword_len: &mut usize,
    text_len: &mut usize,
) -> u32
    ensures { record {
      returned = result;
      headword = headword_out.new;
      text = text.new;
      attribute = attribute.new;
      headword_length = headword_len.new;
      text_length = text_len.new;
    }
        ≡ walk_lent
        (walk image.now len (not (eqb above 0)) headword.now headword_out.old text.old)
        attribute.old headword_len.old text_len.old }
{
    match reader::walk(image, len, headword, above != 0, headword_out, text) {
        Err(refusal) => refusal.into(),
        Ok(None) => ABSENT,
        Ok(Some(entry)) => {
            *attribute = entry.attribute;
            *headword_len = entry.headword_length;
            *text_len = entry.text_length;
            0
        }
    }
}

#[unsafe(no_mangle)]
pub extern "C" fn pdic_insert(
    image: &mut [u8],
    len: usize,
    work: &mut [u8],
    headword: &[u8],
    attribute: u8,
    text: &[u8],
    new_len: &mut usize,
) -> u32
    ensures { record {
      returned = result;
      image = image.new;
      work = work.new;
      new_length = new_len.new;
    }
        ≡ change_lent (insert image.old len work.old headword.now attribute text.now)
        new_len.old }
{
    tell_length(
        editor::insert(image, len, work, headword, attribute, text),
        new_len,
    )
}

#[unsafe(no_mangle)]
pub extern "C" fn pdic_delete(
    image: &mut [u8],
    len: usize,
    work: &mut [u8],
    headword: &[u8],
    new_len: &mut usize,
) -> u32
    ensures { record {
      returned = result;
      image = image.new;
      work = work.new;
      new_length = new_len.new;
    }
        ≡ delete_lent (delete image.old len work.old headword.now) new_len.old }
{
    match editor::delete(image, len, work, headword) {
        Err(refusal) => refusal.into(),
        Ok(None) => ABSENT,
        Ok(Some(n)) => {
            *new_len = n;
            0
        }
    }
}

// Never 15, but 0 or one of 1 to 11.
#[unsafe(no_mangle)]
pub extern "C" fn pdic_optimise(
    image: &mut [u8],
    len: usize,
    work: &mut [u8],
    new_len: &mut usize,
) -> u32
    ensures new_len_after { record {
      returned = result;
      image = image.new;
      work = work.new;
      new_length = new_len.new;
    }
        ≡ change_lent (optimise image.old len work.old) new_len.old }
    ensures never_fifteen { No (result ≡ 15) }
    ensures known_number { result ∈ 0 ∷ change_numbers }
{
    tell_length(editor::optimise(image, len, work), new_len)
}
