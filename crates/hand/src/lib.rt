// How numbers of the C boundary become the library's choices, and how an answer of the library is
// handed over: its parts through the pointers, and the status by value. On a refusal no pointer is
// written. Renders document 01's "Every refusal carries its number and a place" as numbers. The
// exported functions are left to `capi`.
#![tactic(auto)]

ghost use Rattle.std.specs.Prelude.{◌≡◌};
ghost use Rattle.answer.specs.Refusal.{number_of};
ghost use Rattle.answer.specs.Told.{told};
ghost use Rattle.hand.specs.Parts.{row_numbers, side_number, bits_of, in_numbers};
ghost use Rattle.hand.specs.Handed.{refused_as, status_of, handed};
ghost use Rattle.hand.specs.Numbers.{choice_of};

use answer::{Refused, Shown};
use burst_fields::Value;
use label::Versions;
use verdicts::Side;

// What every call across the boundary returns: a refusal's number and its place; 0 and 0 for an answer.
#[repr(C)]
#[derive(Clone, Copy)]
pub struct Status {
    pub refusal: usize,
    pub place: usize,
}

// The status of a call that answered.
pub const DONE: Status = Status {
    refusal: 0,
    place: 0,
};

// The status of a call that refused.
impl From<Refused> for Status {
    ghost from_gives = { λ refused status. status ≡ refused_as (number_of refused.0) refused.1 };

    fn from(refused: Refused) -> Status {
        let refusal = refused.0.number();
        Status {
            refusal,
            place: refused.1,
        }
    }
}

// Which versions are allowed, where version 2 is or is not. (A flag, as the C interface has it; so are the
// numbers that the functions below write.)
pub fn choice(version_2: bool) -> Versions
    ensures { result ≡ choice_of version_2 }
{
    if version_2 {
        return Versions::OneAndTwo;
    }
    Versions::One
}

// An answer of one part: a number, a float, or nothing but that it is one.
pub fn value<T: Copy>(answer: Result<T, Refused>, memory: &mut T) -> Status
    ensures value { result ≡ status_of (told answer) }
    ensures memory_after { memory.new ≡ handed (λ x. x) (told answer) memory.old }
{
    match answer {
        Ok(x) => {
            *memory = x;
            DONE
        }
        Err(refused) => Status::from(refused),
    }
}

// What is shown of a row, in six numbers: its place, how many bytes it has, its label's place, whether
// its depth is known, its depth, and its outermost object's place. Where the last two are absent, they
// stay as they were.
pub fn row(answer: Result<Shown, Refused>, numbers: &mut [usize; 6]) -> Status
    ensures value { result ≡ status_of (told answer) }
    ensures numbers_after { numbers.new ≡ handed (row_numbers numbers.old) (told answer) numbers.old }
{
    match answer {
        Ok(row) => {
            let place = row.part.place;
            let count = row.part.count;
            let label = row.address.label;
            match row.address.nesting {
                Some(nesting) => {
                    *numbers = [place, count, label, 1, nesting.depth, nesting.outermost];
                    DONE
                }
                None => {
                    *numbers = [place, count, label, 0, numbers[4], numbers[5]];
                    DONE
                }
            }
        }
        Err(refused) => Status::from(refused),
    }
}

// The number of a verdict for C: 0 below, 1 inside, 2 above.
fn side_number(side: Side) -> usize
    ensures { result ≡ side_number side }
{
    match side {
        Side::Below => 0,
        Side::Inside => 1,
        Side::Above => 2,
    }
}

// A verdict.
pub fn side(answer: Result<Side, Refused>, number: &mut usize) -> Status
    ensures value { result ≡ status_of (told answer) }
    ensures number_after { number.new ≡ handed side_number (told answer) number.old }
{
    value(answer.map(side_number), number)
}

// What a field holds, in numbers: that of its type, its bits, and of a text the place and how many
// bytes it has.
#[derive(Clone, Copy)]
pub struct Stored {
    pub kind: usize,
    pub bits: usize,
    pub place: usize,
    pub shown: usize,
}

// The 64 bits of a signed number, in two's complement.
fn signed_bits(number: i64) -> usize
    ensures { result ≡ bits_of number }
{
    number.cast_unsigned() as usize
}

// A number that is no text.
fn plain(kind: usize, bits: usize) -> Stored
    ensures { result ≡ record { kind = kind; bits = bits; place = 0; shown = 0 } }
{
    Stored {
        kind,
        bits,
        place: 0,
        shown: 0,
    }
}

// What a field holds, in numbers.
impl From<Value> for Stored {
    ghost from_gives = { λ value stored. stored ≡ in_numbers value };

    fn from(value: Value) -> Stored {
        match value {
            Value::Unsigned(n) => plain(0, n as usize),
            Value::Signed(n) => plain(1, signed_bits(n)),
            Value::Float4(bits) => plain(2, bits as usize),
            Value::Float8(bits) => plain(3, bits as usize),
            Value::Text(part) => Stored {
                kind: 4,
                bits: 0,
                place: part.place,
                shown: part.count,
            },
        }
    }
}
