// Cassini RPWS wideband (WBR) files: rows of 2,080 bytes, each a prefix of 32 and then 2,048 samples of one byte
// (document 01, "Waveform files"; source document 003, appendix E). They are one kind of fixed rows: `fixed_rows` has
// their check and both ways to a row. Windows of a row are left to the reader.
//
// The caller vouches for the kind of the file. The RPWS waveform receiver's product (WFR) has rows of the same 2,080
// bytes with 1,024 samples of two bytes: nothing in the size of a file tells the two apart, and nothing here looks into
// the prefix.
#![tactic(auto)]

ghost use Rattle.answer.specs.Told.{told};
ghost use Rattle.std.specs.Prelude.{◌≡◌, ◌≢◌, ◌≤◌, nat_abs, pos};
ghost use Rattle.fixed_rows.specs.Check.{count_rows};
ghost use Rattle.fixed_rows.specs.Read.{find_row};
ghost use Rattle.fixed_rows.specs.Jump.{jump_to};
ghost use Rattle.fixed_rows.specs.From.{row_from};
ghost use Rattle.waveform.specs.Rows.{waveform};
ghost use Rattle.waveform.specs.Sample.{twice_amplitude};

use answer::{Refused, Shown};
use fixed_rows::FixedRows;

// The rows of a waveform file, from its first byte on.
#[derive(Clone, Copy)]
struct Waveform;

impl FixedRows for Waveform {
    ghost shape = { λ w. waveform };

    fn first(self) -> usize {
        0
    }

    // The prefix.
    fn skip(self) -> usize {
        32
    }

    // The prefix and the samples.
    fn step(self) -> usize {
        2080
    }

    // 2,080·k by shifts and sums, as 2,080 is 2,048 and 32. The prefixes of 64 rows are 2,048 bytes, as many as one row's
    // samples, so in front of row `k` there are `parts` of 2,048 bytes and `left` prefixes of 32. The compiler would join
    // `(k << 11) + (k << 5)` into one multiply (docs/landings/04-shifts.md).
    fn bytes_before(self, k: u32) -> usize {
        let k = k as usize;
        let parts = k + (k >> 6);
        let left = k % 64;
        (parts << 11) + (left << 5)
    }
}

// The four calls from here on are the generic ones of `fixed_rows`: docs/AUDIT.md names them, and so they stay.

// The number of rows; 14 for a file that is too large, 12 for one that is not whole rows.
pub fn check(file: &[u8]) -> Result<usize, Refused>
    ensures { told result ≡ count_rows waveform file.now }
{
    fixed_rows::count(Waveform, file)
}

// The samples of row `k`, found by passing the rows before it: 14, 12, 6.
pub fn find_row(file: &[u8], k: usize) -> Result<Shown, Refused>
    ensures { told result ≡ find_row waveform file.now k }
{
    fixed_rows::find_row(Waveform, file, k)
}

// The same samples, found by computing the row's place: 14, 12, 6.
pub fn jump_to(file: &[u8], k: usize) -> Result<Shown, Refused>
    ensures { told result ≡ jump_to waveform file.now k }
{
    fixed_rows::jump_to(Waveform, file, k)
}

// Going on: the samples of the row that begins at place `from`: 14, 12, and 6 where none begins there.
pub fn row_from(file: &[u8], from: usize) -> Result<Shown, Refused>
    ensures { told result ≡ row_from waveform file.now from }
{
    fixed_rows::row_from(Waveform, file, from)
}

// Twice the amplitude that a sample byte stands for, from -255 to 255 and never 0.
pub fn sample(s: u8) -> i64
    ensures twice { result ≡ twice_amplitude s }
    ensures range { nat_abs result ≤ 255 }
    ensures never_0 { result ≢ pos 0 }
{
    2 * i64::from(s) - 255
}
