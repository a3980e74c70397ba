// The 20-byte CCSDS label of one object, read from bytes. Renders document 01, "The label" (CCSDS
// 620.0 version 1; source documents 001, section 3.5.12, and 004, section 4.4.146), with the length
// field of document 02, item 2, and version 2 of its item 11. Writing a label, and how labelled
// objects stand in a file, is left to the crates above.
#![tactic(auto)]

ghost use Rattle.answer.specs.Told.{told};
ghost use Rattle.std.specs.Prelude.{◌≡◌, ◌+◌, ◌≤◌, ◌==◌, not, length as size, drop, position};
ghost use Rattle.label.specs.Version.{version_number, version_byte, numbered_version, version_for};
ghost use Rattle.label.specs.Head.{head_size, is_code, is_agency, is_form, is_description, head_good, is_head, four_at};
ghost use Rattle.label.specs.Length.{field_size, spaces_in, number_in, after, binary, length_of};
ghost use Rattle.label.specs.Opened.{is_opened};
ghost use Rattle.label.specs.Label.{labelled, label_as, read_label};

use answer::{Refusal, Refused};

// How many bytes a label has, and how many of them stand before its length field.
pub const LABEL: usize = 20;

pub const HEAD: usize = 12;

// How many bytes the length field has.
const FIELD: usize = 8;

// The versions of the label: its length is in digits, or a binary number.
#[derive(Clone, Copy, Debug, PartialEq, Eq)]
pub enum Version {
    One,
    Two,
}

impl Version {
    // The document's number of a version, by a `match` as its definition.
    pub fn number(self) -> u8
        ensures { result ≡ version_number self }
    {
        match self {
            Version::One => 1,
            Version::Two => 2,
        }
    }
}

// The version with a number; with any other number no byte 4 agrees, which is 2.
impl TryFrom<u8> for Version {
    type Error = Refused;

    ghost try_from_gives = { λ number result. told result ≡ numbered_version number };

    fn try_from(number: u8) -> Result<Version, Refused> {
        match number {
            1 => Ok(Version::One),
            2 => Ok(Version::Two),
            _ => Err(Refused(Refusal::BadLabel, 0)),
        }
    }
}

// Which versions a call allows.
#[derive(Clone, Copy, Debug, PartialEq, Eq)]
pub enum Versions {
    One,
    OneAndTwo,
}

// What a label says. `length` is the number of bytes after the label: its value. `spaces` is how many
// spaces stand before the length's digits, 0 to 7; in version 2 there are none. (In this order no
// field crosses a word's end. With the length last, the compiler sends it through memory once more.)
#[derive(Clone, Copy, Debug, PartialEq, Eq)]
pub struct Label {
    pub agency: [u8; 4],
    pub description: [u8; 4],
    pub length: usize,
    pub version: Version,
    pub class: u8,
    pub spaces: u8,
}

// What a length field says: how many bytes stand after the label, and how many spaces stand before
// the field's digits, none where it has no digits.
#[derive(Clone, Copy)]
struct Length {
    bytes: usize,
    spaces: u8,
}

// Whether a value of this class is itself divided into labelled objects. (By `|`: of `matches!` the
// compiler makes a jump, which took 2.9 ns more a label where classes are mixed.)
pub fn is_opened(class: u8) -> bool
    ensures { result ≡ is_opened class }
{
    (class == b'F') | (class == b'U') | (class == b'Z')
}

// An upper-case letter or a digit.
fn is_code(b: u8) -> bool
    ensures { result ≡ is_code b }
{
    b.is_ascii_uppercase() | b.is_ascii_digit()
}

// Byte 4 of a label of this version, by a `match` as its definition.
fn version_byte(version: Version) -> u8
    ensures { result ≡ version_byte version }
{
    match version {
        Version::One => b'1',
        Version::Two => b'2',
    }
}

fn is_form(version: Version, f: [u8; 4]) -> bool
    ensures { result ≡ is_form version f }
{
    (f[0] == version_byte(version)) & f[1].is_ascii_uppercase() & ((f[2] == b'0') & (f[3] == b'0'))
}

fn is_description(f: [u8; 4]) -> bool
    ensures { result ≡ is_description f }
{
    is_code(f[0]) & is_code(f[1]) & (is_code(f[2]) & is_code(f[3]))
}

// Four characters of `s` from place `i` on.
fn four_at(s: &[u8], i: usize) -> [u8; 4]
    requires { i + 4 ≤ size s.now }
    ensures { result ≡ four_at s.now i }
{
    [s[i], s[i + 1], s[i + 2], s[i + 3]]
}

// Whether bytes 0-3 are `NJPL` or `CCSD`. (Each as one number: of `==` on arrays the compiler makes a
// test for each byte, which took 1.5 ns more a label.)
fn has_agency(s: &[u8]) -> bool
    requires { head_size ≤ size s.now }
    ensures { result ≡ is_agency (four_at s.now 0) }
{
    let n = u32::from_le_bytes(four_at(s, 0));
    (n == u32::from_le_bytes(*b"NJPL")) | (n == u32::from_le_bytes(*b"CCSD"))
}

// Whether bytes 0-11 are those of a label of this version.
fn head_is_good(version: Version, s: &[u8]) -> bool
    requires { head_size ≤ size s.now }
    ensures { result ≡ head_good version s.now }
{
    has_agency(s) & (is_form(version, four_at(s, 4)) & is_description(four_at(s, 8)))
}

// Whether these are bytes 0-11 of a label of this version, all twelve of them and no more.
pub fn is_head(version: Version, head: &[u8]) -> bool
    ensures { result ≡ is_head version head.now }
{
    head.len() == HEAD && head_is_good(version, head)
}

// The place of the first byte that is no space.
fn first_other(field: &[u8]) -> Option<usize>
    ensures { result ≡ position (λ b. not (b == 32)) field.now }
{
    field.iter().position(|b| *b != b' ')
}

// How many spaces stand at the front of a length field.
#[tactic(auto, using(crate::proofs::Spaces::spaces_at_most))]
fn spaces_in(field: &[u8]) -> usize
    ensures value { result ≡ spaces_in field.now }
    ensures within { result ≤ size field.now }
{
    first_other(field).unwrap_or(field.len())
}

// The number that the digits of a field from a place on write. (A digit is widened before 48 is taken from
// it: by `digit - b'0'` a label of eight digits took 1.1 ns more. `from_str_radix` would take a sign. By place:
// with the iterator of a part the compiler tests beforehand for each length, and a padded label takes 2 ns more.)
#[tactic(auto, using(crate::proofs::Spaces::number_starts, crate::proofs::Spaces::tens))]
fn number_from(field: &[u8; FIELD], from: usize) -> Option<usize>
    requires { from ≤ field_size }
    ensures { result ≡ number_in (drop from field.now) }
{
    if from == FIELD {
        return None;
    }
    let mut n = 0;
    for i in from..FIELD {
        let digit = field[i];
        if !digit.is_ascii_digit() {
            return None;
        }
        n = n * 10 + (usize::from(digit) - 48);
    }
    Some(n)
}

// What a length field says where so many spaces are passed: digits stand behind them.
fn digits_after(field: &[u8; FIELD], spaces: usize) -> Option<Length>
    requires { spaces ≤ field_size }
    ensures { result ≡ after spaces (number_in (drop spaces field.now)) }
{
    let bytes = number_from(field, spaces)?;
    Some(Length {
        bytes,
        spaces: spaces as u8,
    })
}

// What the length field of a version 1 label says. Eight digits are read at once, and spaces looked for
// only where that fails, so that a field without spaces costs nothing more.
fn digits_field(field: &[u8; FIELD]) -> Option<Length>
    ensures { result ≡ length_of Version.One field.now }
{
    digits_after(field, 0).or_else(|| digits_after(field, spaces_in(field)))
}

// The binary number in the length field of a version 2 label, most significant byte first.
fn binary_field(field: &[u8; FIELD]) -> usize
    ensures { result ≡ binary 0 field.now }
{
    usize::from_be_bytes(*field)
}

// The length field of a label's twenty bytes.
fn field_of(b: &[u8; LABEL]) -> &[u8; FIELD]
    ensures { result.now ≡ drop head_size b.now }
{
    b.last_chunk().unwrap()
}

// The label of this version with bytes 0-11 as in `b`, this length and so many spaces.
fn label_with(version: Version, b: &[u8; LABEL], length: usize, spaces: u8) -> Label
    ensures { result ≡ labelled version b.now «length» spaces }
{
    Label {
        agency: four_at(b, 0),
        version,
        class: b[5],
        description: four_at(b, 8),
        length,
        spaces,
    }
}

// The version 1 label that twenty bytes are. (By one function for both versions, told the version, a
// version 1 label took 19.5 ns in place of 16.3, and 17.2 where each is a call of its own.)
#[tactic(auto, using(crate::proofs::Reading::good_head))]
fn digits_label(b: &[u8; LABEL]) -> Result<Label, Refused>
    ensures { told result ≡ label_as Version.One b.now }
{
    if !head_is_good(Version::One, b) {
        return Err(Refused(Refusal::BadLabel, 0));
    }
    let length = digits_field(field_of(b)).ok_or(Refused(Refusal::BadLength, 0))?;
    Ok(label_with(Version::One, b, length.bytes, length.spaces))
}

// The version 2 label that twenty bytes are.
fn binary_label(b: &[u8; LABEL]) -> Result<Label, Refused>
    ensures { told result ≡ label_as Version.Two b.now }
{
    if !head_is_good(Version::Two, b) {
        return Err(Refused(Refusal::BadLabel, 0));
    }
    let length = binary_field(field_of(b));
    Ok(label_with(Version::Two, b, length, 0))
}

// The version as which a label with this byte 4 is read: 2 where it says so and is allowed.
fn version_for(versions: Versions, byte: u8) -> Version
    ensures { result ≡ version_for versions byte }
{
    match versions {
        Versions::OneAndTwo if byte == b'2' => Version::Two,
        _ => Version::One,
    }
}

// The label at the front of `s`: 1, 2, 3 in that order, at place 0. (Each caller takes a part of the label alone, so
// that the compiler is told to put the call in line: a check takes 3 ns a label less, of version 2 4 ns.)
#[inline(always)]
#[tactic(auto, unfolding(crate::specs::Label::read_label))]
pub fn read_label(versions: Versions, s: &[u8]) -> Result<Label, Refused>
    ensures { told result ≡ read_label versions s.now }
{
    let b = s.first_chunk::<LABEL>().ok_or(Refused(Refusal::Short, 0))?;
    // By a `match`: there are two versions, and the definitions go by them.
    match version_for(versions, b[4]) {
        Version::One => digits_label(b),
        Version::Two => binary_label(b),
    }
}
