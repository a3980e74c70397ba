// The label writer: bytes 0-11 as lent and a length, in eight digits or as a binary number, to the front
// of a buffer. Renders document 01, "The label writer is lent bytes 0-11 .. and told the length", and
// document 02, item 11, "The writer is told the version". That what is written reads back, and that
// every label that can be read is written again as the same label with no spaces, is stated in
// `specs/ReadBack.antt` and proved in `proofs/RoundTrip.antt`.
#![tactic(auto)]

ghost use Rattle.answer.specs.Told.{told};
ghost use Rattle.std.specs.Prelude.{◌≡◌, length as size};
ghost use Rattle.answer.specs.Filled.{Writes};
ghost use Rattle.text.specs.Digits.{digits_of};
ghost use Rattle.label_writer.specs.Write.{holds, field_of, write_label};

use answer::{Refusal, Refused};
use label::Version;

// The largest length that eight digits write.
const LONGEST: usize = 99999999;

// The last eight decimal digits of a number, as characters, the last first. (By `iter_mut().rev()` in
// place of `7 - i`: tried, and the proof didn't close.)
fn eight_digits(n: usize) -> [u8; 8]
    ensures { result ≡ digits_of 8 n }
{
    let mut digits = [b'0'; 8];
    let mut rest = n;
    for i in 0..8 {
        digits[7 - i] = text::last_digit(rest);
        rest /= 10;
    }
    digits
}

// Whether a label of this version can hold this length.
fn can_hold(version: Version, n: usize) -> bool
    ensures { result ≡ holds version n }
{
    match version {
        Version::One => n <= LONGEST,
        Version::Two => true,
    }
}

// The length field of a label of this version: eight digits, or eight bytes, most significant first. (A
// `match`, as its definition.)
fn field_of(version: Version, n: usize) -> [u8; 8]
    ensures { result ≡ field_of version n }
{
    match version {
        Version::One => eight_digits(n),
        Version::Two => n.to_be_bytes(),
    }
}

// Writes the label of this version with bytes 0-11 as lent and this length to the first 20 bytes of
// `out`: 2, in version 1 15, then 8.
#[tactic(auto, unfolding(crate::specs::Write::write_label))]
pub fn write_label(
    version: Version,
    head: &[u8],
    length: usize,
    out: &mut [u8],
) -> Result<usize, Refused>
    ensures { Writes (write_label version head.now «length» (size out.old))
        out.old (told result) out.new }
{
    if !label::is_head(version, head) {
        return Err(Refused(Refusal::BadLabel, 0));
    }
    if !can_hold(version, length) {
        return Err(Refused(Refusal::TooLong, 0));
    }
    if out.len() < label::LABEL {
        return Err(Refused(Refusal::Small, 0));
    }
    let field = field_of(version, length);
    out[..label::HEAD].copy_from_slice(head);
    out[label::HEAD..label::LABEL].copy_from_slice(&field);
    Ok(label::LABEL)
}
