// The header of an image: its fields, rows 1, 3 to 5 and 11 of the refusals, and what is written in it.
#![tactic(auto)]

ghost use Rattle.std.specs.Prelude.{◌≡◌, ◌+◌, ◌%◌, ◌<◌, ◌≤◌, true, length};
ghost use Rattle.spec.specs.Outcome.{accepted};
ghost use Rattle.spec.specs.Bytes.{write};
ghost use Rattle.spec.specs.Header.{layout4, layout_of, block_position, known_version, format_of, high_version_of, get, put, put_all, writable, changed_header, new_image};
ghost use Rattle.spec.specs.Check.{slice_ok, kind_ok, options_ok, frame_from};
ghost use Rattle.header.specs.Form.{layout_named};
ghost use Rattle.header.specs.Framed.{framed, FormTold};
ghost use Rattle.header.specs.Fields.{Placed, InHeader};
ghost use Rattle.header.specs.Empty.{size_settings};

mod area;

pub use area::Area;
use byteops::{
    LIST_END, LONGEST_HEADWORD, LONGEST_TEXT, read_u16, read_u32, write_u8, write_u16, write_u32,
    write_u64,
};
use spec::{NewFile, Refusal};

// Offsets of the fields that both versions have at one place, and of version 5's identifier.
const VERSION: usize = 140;

const LWORD: usize = 142;

const LJAPA: usize = 144;

const BLOCK_SIZE: usize = 146;

const INDEX_BLOCK: usize = 148;

const HEADER_SIZE: usize = 150;

const EMPTY_BLOCK: usize = 154;

const NWORD: usize = 160;

const DICORDER: usize = 164;

const DICTYPE: usize = 165;

const ATTRLEN: usize = 166;

const UPDATE_COUNT: usize = 208;

const IDENTIFIER: usize = 216;

// The high bytes of the versions that are known.
const VERSION_4: usize = 4;

const VERSION_5: usize = 5;

// Bytes of the header itself, and the most blocks of an index and of a data area.
pub const HEADER: usize = 256;

pub const MOST_INDEX_BLOCKS: usize = 32767;

pub const MOST_BLOCKS: usize = 65536;

// The bytes that a part may take when a list is cut.
const RUN_LIMIT: usize = 1024;

// The offsets of the fields that version 5 moves.
#[derive(Clone, Copy, Debug, PartialEq, Eq)]
struct Moved {
    os: usize,
    index_blkbit: usize,
    extheader: usize,
    empty_block2: usize,
    nindex2: usize,
    nblock2: usize,
}

// What a file fixes by its header for all that stands behind: the bytes of the extended header, the bytes of a block number in the
// index, the order of headwords, and the bytes that a part may take when a list is cut.
// Kept: the order is a number, as the header's field has it and as `below_of` takes it in every clause that names an order.
#[derive(Clone, Copy, Debug, PartialEq, Eq)]
pub struct Form {
    pub extended: usize,
    pub width: usize,
    pub order: usize,
    pub limit: usize,
}

// The form of an image, and how many blocks its index and its data area have.
#[derive(Clone, Copy, Debug, PartialEq, Eq)]
pub struct FrameFound {
    pub form: Form,
    pub index: usize,
    pub data: usize,
}

// What a change stores of an image's counts: its index blocks, its entries, its first free block, and the index elements and the
// blocks of its runs.
#[derive(Clone, Copy, Debug, PartialEq, Eq)]
pub struct Counts {
    pub index_blocks: usize,
    pub entries: usize,
    pub first_free: usize,
    pub elements: usize,
    pub run_blocks: usize,
}

// The position in the file of data block b, behind an extended header of so many bytes and so many index blocks. The page of the
// format's description (source document 000, page 26, section 4.5.3: the position on disk of a physical block number) adds
//     header_size + extheader + index_block × block_size + block_size × number
// with a block_size of 256. This is the only place that adds them: block 0 is where the data area starts, and block D, the first that
// is not there, where the image ends.
pub fn position(extended: usize, index: usize, b: usize) -> usize
    requires { block_position extended index b ≤ 0xFFFFFFFFFFFFFFFF }
    ensures { result ≡ block_position extended index b }
{
    HEADER + extended + index * 256 + 256 * b
}

// Whether the first `len` bytes of a slice can be an image: row 1.
pub fn slice_ok(s: &[u8], len: usize) -> bool
    ensures { result ≡ accepted (slice_ok s.now len) }
{
    HEADER <= len && len % 256 == 0 && len <= s.len()
}

// Whether a high version byte is one that row 3 lets pass.
pub fn known_version(version: usize) -> bool
    ensures { result ≡ known_version version }
{
    version == VERSION_4 || version == VERSION_5
}

// Where a version has the moved fields. Every version but 5 is read as 4; row 3 refuses those that are not 4.
// Kept: the version is a number, since the layout is that of 4 for every number but 5; an enum of the kinds would need a case for the numbers that are neither.
fn places_of(version: usize) -> Moved
    ensures placed { Placed (layout_of version) result }
    ensures in_header { InHeader result }
{
    if version == VERSION_5 {
        Moved {
            os: 167,
            index_blkbit: 182,
            extheader: 184,
            empty_block2: 188,
            nindex2: 192,
            nblock2: 196,
        }
    } else {
        Moved {
            os: 171,
            index_blkbit: 198,
            extheader: 182,
            empty_block2: 186,
            nindex2: 190,
            nblock2: 194,
        }
    }
}

// The high version byte.
fn version(s: &[u8]) -> usize
    requires { 256 ≤ length s.now }
    ensures { result ≡ high_version_of layout4 s.now }
{
    read_u16(s, VERSION) / 256
}

// Where a header has the moved fields.
fn places(s: &[u8]) -> Moved
    requires { 256 ≤ length s.now }
    ensures placed { Placed (layout_named s.now) result }
    ensures in_header { InHeader result }
{
    places_of(version(s))
}

// The number of index elements.
// Kept: each field has a function by its name; what the four share is one line, `read_u32` at its place.
pub fn nindex2(s: &[u8]) -> usize
    requires { 256 ≤ length s.now }
    ensures value { result ≡ get (layout_named s.now).nindex2 s.now }
    ensures upper_bound { result < 4294967296 }
{
    read_u32(s, places(s).nindex2)
}

// The number of entries.
pub fn nword(s: &[u8]) -> usize
    requires { 256 ≤ length s.now }
    ensures value { result ≡ get (layout_named s.now).nword s.now }
    ensures upper_bound { result < 4294967296 }
{
    read_u32(s, NWORD)
}

// The number of data blocks in runs.
pub fn nblock2(s: &[u8]) -> usize
    requires { 256 ≤ length s.now }
    ensures value { result ≡ get (layout_named s.now).nblock2 s.now }
    ensures upper_bound { result < 4294967296 }
{
    read_u32(s, places(s).nblock2)
}

// The first free block.
pub fn empty_block2(s: &[u8]) -> usize
    requires { 256 ≤ length s.now }
    ensures value { result ≡ get (layout_named s.now).empty_block2 s.now }
    ensures upper_bound { result < 4294967296 }
{
    read_u32(s, places(s).empty_block2)
}

// Whether the header is of a known kind of file: row 3.
fn kind_ok(s: &[u8]) -> bool
    requires { 256 ≤ length s.now }
    ensures { result ≡ kind_ok (layout_named s.now) s.now }
{
    known_version(version(s))
        && read_u16(s, BLOCK_SIZE) == 256
        && read_u16(s, HEADER_SIZE) == 256
        && s[ATTRLEN] == 1
}

// Whether the header asks for nothing that is left out: row 4.
fn options_ok(s: &[u8]) -> bool
    requires { 256 ≤ length s.now }
    ensures { result ≡ options_ok (layout_named s.now) s.now }
{
    let at = places(s);
    s[DICORDER] == 0
        && s[DICTYPE] == 0
        && s[at.os] == 0
        && s[at.index_blkbit] == 0
        && read_u32(s, at.extheader) == 0
}

// The frame of the image in all bytes of `s`: rows 3 to 5.
pub fn frame(s: &[u8]) -> Result<FrameFound, Refusal>
    requires { 256 ≤ length s.now }
    ensures result_value { framed (layout_named s.now) result ≡ frame_from (format_of s.now) s.now }
    ensures form_told { FormTold result }
{
    if !kind_ok(s) {
        return Err(Refusal::BadVersion);
    }
    if !options_ok(s) {
        return Err(Refusal::LeftOut);
    }
    let form = Form {
        extended: 0,
        width: 2,
        order: 0,
        limit: RUN_LIMIT,
    };
    let index = read_u16(s, INDEX_BLOCK);
    let start = position(form.extended, index, 0);
    if MOST_INDEX_BLOCKS < index {
        return Err(Refusal::BadAreas);
    }
    if s.len() < start {
        return Err(Refusal::BadAreas);
    }
    let data = (s.len() - start) / 256;
    if MOST_BLOCKS < data {
        return Err(Refusal::BadAreas);
    }
    Ok(FrameFound { form, index, data })
}

// Whether the image may be changed: row 11.
pub fn writable(s: &[u8]) -> bool
    requires { 256 ≤ length s.now }
    ensures { result ≡ writable (layout_named s.now) s.now }
{
    read_u16(s, VERSION) % 256 < 16
}

// The update count with one added; it goes from 4,294,967,295 to 0.
fn next_update(s: &[u8]) -> usize
    requires { 256 ≤ length s.now }
    ensures { result ≡ (get (layout_named s.now).update_count s.now + 1) % 4294967296 }
{
    let count = read_u32(s, UPDATE_COUNT) as u32;
    count.wrapping_add(1) as usize
}

// Stores the counts of a change, and adds one to the update count.
pub fn write_counts(s: &mut [u8], counts: Counts)
    requires { 256 ≤ length s.old }
    ensures s_after { s.new ≡ changed_header (layout_named s.old)
        (record { index_blocks = counts.index_blocks; entries = counts.entries; first_free = counts.first_free; elements = counts.elements; run_blocks = counts.run_blocks }) s.old }
    ensures s_len_unchanged { length s.new ≡ length s.old }
{
    let at = places(s);
    let update = next_update(s);
    write_u32(s, UPDATE_COUNT, update);
    write_u32(s, at.nblock2, counts.run_blocks);
    write_u32(s, at.nindex2, counts.elements);
    write_u32(s, at.empty_block2, counts.first_free);
    write_u32(s, NWORD, counts.entries);
    write_u16(s, INDEX_BLOCK, counts.index_blocks);
}

// Stores the version and the sizes of the empty image.
fn write_sizes(s: &mut [u8], version: u8)
    requires { (256 ≤ length s.old) × (known_version version ≡ true) }
    ensures s_after { s.new ≡ put_all (size_settings (layout_of version)) s.old }
    ensures s_len_unchanged { length s.new ≡ length s.old }
{
    write_u16(s, HEADER_SIZE, 256);
    write_u16(s, BLOCK_SIZE, 256);
    write_u16(s, LJAPA, LONGEST_TEXT);
    write_u16(s, LWORD, LONGEST_HEADWORD);
    write_u16(s, VERSION, 256 * usize::from(version));
}

// Stores the identifier, where the version has one.
fn write_identifier(s: &mut [u8], version: usize, identifier: usize)
    requires { 256 ≤ length s.old }
    ensures s_after { s.new ≡ put (layout_of version).identifier identifier s.old }
    ensures s_len_unchanged { length s.new ≡ length s.old }
{
    if version == VERSION_5 {
        write_u64(s, IDENTIFIER, identifier);
    }
}

// Stores the empty image of a new file.
pub fn write_empty(s: &mut [u8], new: NewFile)
    requires { (256 ≤ length s.old) × (known_version new.version ≡ true) }
    ensures s_after { s.new ≡ write 0 (new_image new) s.old }
    ensures s_len_unchanged { length s.new ≡ length s.old }
{
    let version = usize::from(new.version);
    let at = places_of(version);
    byteops::fill_zero(s, 0, HEADER);
    write_identifier(s, version, new.identifier as usize);
    write_u32(s, at.empty_block2, LIST_END);
    write_u16(s, EMPTY_BLOCK, 0xFFFF);
    write_u8(s, ATTRLEN, 1);
    write_sizes(s, new.version);
}
