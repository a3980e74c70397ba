// Cassini short burst files (SBDR): whole records of 1,272 bytes from a first place on, which the
// caller gives (document 02, item 1; source document 000, section 8). They are one kind of fixed rows:
// `fixed_rows` has their check and both ways to a record. The fields of a record are left to
// `burst_fields`, windows of it to the reader.
//
// The caller vouches for the kind of the file and for the first place: nothing here looks into a
// record. (A file's bytes and the first place are two parameters of the C calls, and so of these. The four calls are the generic ones of `fixed_rows`:
// docs/AUDIT.md names them, and so they stay.)
#![tactic(auto)]

ghost use Rattle.answer.specs.Told.{told};
ghost use Rattle.std.specs.Prelude.{◌≡◌};
ghost use Rattle.fixed_rows.specs.Check.{count_rows};
ghost use Rattle.fixed_rows.specs.Read.{find_row};
ghost use Rattle.fixed_rows.specs.Jump.{jump_to};
ghost use Rattle.fixed_rows.specs.From.{row_from};
ghost use Rattle.bursts.specs.Rows.{bursts};

use answer::{Refused, Shown};
use fixed_rows::FixedRows;

// The bytes of a record.
const RECORD: usize = 1272;

// The records of a file, from the place `first` on.
#[derive(Clone, Copy)]
struct Bursts {
    first: usize,
}

impl FixedRows for Bursts {
    ghost shape = { λ b. bursts b.first };

    fn first(self) -> usize {
        self.first
    }

    fn skip(self) -> usize {
        0
    }

    fn step(self) -> usize {
        RECORD
    }

    fn bytes_before(self, k: u32) -> usize {
        RECORD * k as usize
    }
}

// The number of records from `first` on: 14, 16 for a first place beyond the file, 12 where the rest is
// not whole records.
pub fn check(file: &[u8], first: usize) -> Result<usize, Refused>
    ensures { told result ≡ count_rows (bursts first) file.now }
{
    fixed_rows::count(Bursts { first }, file)
}

// Record `k`, found by passing the records before it: 14, 16, 12, 6.
pub fn find_row(file: &[u8], first: usize, k: usize) -> Result<Shown, Refused>
    ensures { told result ≡ find_row (bursts first) file.now k }
{
    fixed_rows::find_row(Bursts { first }, file, k)
}

// The same record, found by computing its place: 14, 16, 12, 6.
pub fn jump_to(file: &[u8], first: usize, k: usize) -> Result<Shown, Refused>
    ensures { told result ≡ jump_to (bursts first) file.now k }
{
    fixed_rows::jump_to(Bursts { first }, file, k)
}

// Going on: the record that begins at place `from`: 14, 16, 12, and 6 where none begins there.
pub fn row_from(file: &[u8], first: usize, from: usize) -> Result<Shown, Refused>
    ensures { told result ≡ row_from (bursts first) file.now from }
{
    fixed_rows::row_from(Bursts { first }, file, from)
}
