// VAX F and D numbers (F_floating, D_floating) as 64-bit floats: document 01, "Numbers", document 02,
// item 5, and source document 001, appendix B. A number stands in the first bytes of what is lent, and
// the bytes after it are not looked at. Which bytes of a file hold a number is left to the caller.
#![tactic(auto)]

ghost use Rattle.std.specs.Prelude.{◌≡◌, ◌+◌, ◌*◌, ◌/◌, ◌^◌, ◌<◌, ◌≤◌, length};
ghost use Rattle.std.specs.Float.Ieee.Nearest.{closest};
ghost use Rattle.answer.specs.Told.{told};
ghost use Rattle.vax.specs.Fields.{word_at};
ghost use Rattle.vax.specs.Numbers.{by_exponent, vax_F, vax_D, vax_D_dropped};
ghost use Rattle.vax.specs.Exact.{ExactF, ExactDroppedD};
ghost use Rattle.vax.specs.Nearest.{NearestD};
ghost use Rattle.vax.specs.Private.{patterned, below_sign_F, below_sign_D, BitsF, BitsD};

use answer::{Refusal, Refused};

// The little-endian word of 16 bits at `at`. (By std: `little::two` gives the same in 32 bits, which would have to
// be widened here once more. Told the place and not the two bytes, so that the compiler reads them at once.)
fn word(bytes: &[u8], at: usize) -> u64
    requires { at + 1 < length bytes.now }
    ensures { (result ≡ word_at bytes.now at) × (result < 65536) }
{
    u64::from(u16::from_le_bytes([bytes[at], bytes[at + 1]]))
}

// The number whose first word is in `bytes`: refusal 9 or zero for exponent 0, else the float whose pattern is
// the sign, then `size` and 894 more in the exponent's field. `size` is the number's exponent, then 52
// digits of its fraction; digits that were rounded up run over into the exponent. (The word's fields are taken
// by division, since they are no whole bytes. Both forms come here, and of both the first word alone is read.)
#[tactic(auto, using(crate::proofs::Patterns::no_nan))]
fn number(bytes: &[u8], size: u64) -> Result<f64, Refused>
    requires { (2 ≤ length bytes.now) × (size ≤ 2 ^ 60) }
    ensures { told result ≡ by_exponent (patterned size bytes.now) bytes.now }
{
    let first = word(bytes, 0);
    let sign = first / 32768;
    let float = if first / 128 % 256 == 0 {
        if sign == 1 {
            return Err(Refused(Refusal::Reserved, 0));
        }
        0.0
    } else {
        let pattern = sign * 0x8000_0000_0000_0000 + 0x37e0_0000_0000_0000 + size;
        f64::from_bits(pattern)
    };
    Ok(float)
}

// The 31 bits of an F number below its sign, exponent and fraction, which are also the upper ones of a D
// number. (Its words stand highest first, each little-endian: no method of the library reads that order.)
fn bits_f(bytes: &[u8; 4]) -> u64
    ensures { (result ≡ below_sign_F bytes.now) × BitsF bytes.now }
{
    word(bytes, 0) % 32768 * 65536 + word(bytes, 2)
}

// The 63 bits of a D number below its sign.
fn bits_d(bytes: &[u8; 8]) -> u64
    ensures { (result ≡ below_sign_D bytes.now) × BitsD bytes.now }
{
    let front = bytes.first_chunk::<4>().unwrap();
    (bits_f(front) * 65536 + word(bytes, 4)) * 65536 + word(bytes, 6)
}

// The F number in the first 4 bytes, exactly: `exact` says what the float is over whole numbers.
pub fn vax_f(bytes: &[u8]) -> Result<f64, Refused>
    ensures answers { told result ≡ vax_F bytes.now }
    ensures exact { ExactF bytes.now (told result) }
{
    let four = bytes.first_chunk::<4>().ok_or(Refused(Refusal::Short, 0))?;
    // 23 digits of a fraction and 29 zeros
    number(four, bits_f(four) * 0x2000_0000)
}

// An eighth, to the nearest whole number and at a tie to the even one: three is added, and one more where
// the eighth that is cut off is odd.
fn nearest_eighth(bits: u64) -> u64
    requires { bits < 2 ^ 63 }
    ensures { (result ≡ closest bits 8) × (8 * result ≤ bits + 4) × (bits ≤ 8 * result + 4) }
{
    (bits + 3 + bits / 8 % 2) / 8
}

// An eighth, cut off.
fn dropped_eighth(bits: u64) -> u64
    requires { bits < 2 ^ 63 }
    ensures { result ≡ bits / 8 }
{
    bits >> 3
}

// The D number in the first 8 bytes as the nearest 64-bit float, a tie going to the even one: `nearest`
// says over whole numbers what that means and how far the float is from the number.
pub fn vax_d(bytes: &[u8]) -> Result<f64, Refused>
    ensures answers { told result ≡ vax_D bytes.now }
    ensures nearest { NearestD bytes.now (told result) }
{
    let eight = bytes.first_chunk::<8>().ok_or(Refused(Refusal::Short, 0))?;
    number(eight, nearest_eighth(bits_d(eight)))
}

// The D number in the first 8 bytes, its three lowest fraction bits dropped and the rest exact, for old
// jobs: `exact` says what the float is over whole numbers. (A twin of `vax_d` but for the eighth and what
// is promised of it; one function over the eighth would have to be promised for any, and is no plainer.)
pub fn vax_d_dropped(bytes: &[u8]) -> Result<f64, Refused>
    ensures answers { told result ≡ vax_D_dropped bytes.now }
    ensures exact { ExactDroppedD bytes.now (told result) }
{
    let eight = bytes.first_chunk::<8>().ok_or(Refused(Refusal::Short, 0))?;
    number(eight, dropped_eighth(bits_d(eight)))
}
