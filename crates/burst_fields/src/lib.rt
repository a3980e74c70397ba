// The fields of Cassini short bursts: a field of a row, by its position in section 8.1 of source
// document 000, read by its storage type, and the verdict on it by its limits. Renders document 02,
// item 1. Where rows and fields stand is left to `bursts` and `burst_layout`, which limits there are
// and how they are judged to `limits` and `verdicts`.
#![tactic(auto)]

ghost use Rattle.answer.specs.Told.{told};
ghost use Rattle.std.specs.Prelude.{◌≡◌, ◌+◌, ◌≤◌, length};
ghost use Rattle.bursts.specs.Rows.{record_size};
ghost use Rattle.burst_layout.specs.Row.{SizeFits};
ghost use Rattle.burst_fields.specs.Fields.{signed_of, content_of, field_from, field_of, integer_in, field_verdict};

use answer::{Part, Refusal, Refused};
use burst_layout::Storage;
use limits::Table;
use verdicts::Side;

// What a field holds: a number, the stored bits of a float of 4 or 8 bytes, or the part of the file
// where a text stands, whose bytes `answer::bytes_of` lends.
#[derive(Clone, Copy)]
pub enum Value {
    Unsigned(u32),
    Signed(i64),
    Float4(u32),
    Float8(u64),
    Text(Part),
}

impl Value {
    // The integer that is held: 10 for a float and for a text, which have no limits.
    fn integer(self) -> Result<i64, Refused>
        ensures { told result ≡ integer_in self }
    {
        match self {
            Value::Unsigned(n) => Ok(i64::from(n)),
            Value::Signed(n) => Ok(n),
            Value::Float4(_) | Value::Float8(_) | Value::Text(_) => {
                Err(Refused(Refusal::Unknown, 0))
            }
        }
    }
}

// The signed number with these bits, a name for the library's two conversions.
fn signed(bits: u32) -> i64
    ensures { result ≡ signed_of bits }
{
    i64::from(bits.cast_signed())
}

// What the bytes of a part that lies in the file hold, by their storage type: an arm for each, as in the
// definition.
fn content(file: &[u8], stored: Storage, part: Part) -> Value
    requires { (part.place + part.count ≤ length file.now) × SizeFits stored part.count }
    ensures { result ≡ content_of stored file.now part }
{
    let at = part.place;
    match stored {
        Storage::Unsigned => Value::Unsigned(little::four_at(file, at).unwrap()),
        Storage::Signed => Value::Signed(signed(little::four_at(file, at).unwrap())),
        Storage::Float4 => Value::Float4(little::four_at(file, at).unwrap()),
        Storage::Float8 => Value::Float8(little::eight_at(file, at).unwrap()),
        Storage::Text => Value::Text(part),
    }
}

// The field at a position of the row that starts at a place: 10 for a position that section 8.1 does
// not have.
#[tactic(auto, using(burst_layout::proofs::EndToEnd::field_is_in_the_row, burst_layout::proofs::EndToEnd::field_fits_its_type))]
fn field_from(file: &[u8], start: usize, position: usize) -> Result<Value, Refused>
    requires { start + record_size ≤ length file.now }
    ensures { told result ≡ field_from file.now start position }
{
    let line = burst_layout::line_of(position)?;
    let part = Part {
        place: start + line.place,
        count: line.size,
    };
    Ok(content(file, line.stored, part))
}

// The field at a position of row `k`, jumped to: 14, 16, 12, 6, 10.
#[tactic(auto, using(fixed_rows::proofs::JumpIsRead::jump_is_read, bursts::proofs::Rows::takes_bytes), unfolding(crate::specs::Fields::field_of))]
pub fn field(file: &[u8], first: usize, k: usize, position: usize) -> Result<Value, Refused>
    ensures { told result ≡ field_of file.now first k position }
{
    let row = bursts::jump_to(file, first, k)?;
    field_from(file, row.part.place, position)
}

// Where the field at a position of row `k` stands against its limits: 14, 16, 12, 6, and 10 for a field
// without plain limits.
pub fn verdict(file: &[u8], first: usize, k: usize, position: usize) -> Result<Side, Refused>
    ensures { told result ≡ field_verdict file.now first k position }
{
    let number = field(file, first, k, position)?.integer()?;
    verdicts::verdict(Table::Bursts, position, number)
}
