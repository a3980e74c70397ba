// Rows of one size, one behind the other from a first place to the end of a file, whatever the size and
// the place: how many there are, row k, found by passing the rows before it or by computing its place,
// and the row that starts at a place. Renders what document 01 says of waveform rows and document 02,
// item 1, of short bursts, for both. Each kind of rows says how the place of row k is computed; that the
// two ways to a row agree is proved here.
#![tactic(auto)]

ghost use Rattle.answer.specs.Told.{told};
ghost use Rattle.answer.specs.Size.{largest_file};
ghost use Rattle.std.specs.Prelude.{◌≡◌, ◌*◌, ◌+◌, ◌%◌, ◌≤◌, ◌<◌, drop, length, IfOk};
ghost use Rattle.fixed_rows.specs.Shape.{Shape, step, row_at};
ghost use Rattle.fixed_rows.specs.Check.{count_rows};
ghost use Rattle.fixed_rows.specs.Read.{passing, find_row};
ghost use Rattle.fixed_rows.specs.Jump.{jump_to};
ghost use Rattle.fixed_rows.specs.From.{starts, row_from};

use answer::{Refusal, Refused, Shown};

// The rows of one kind of file.
pub trait FixedRows: Copy {
    ghost shape: { Self → Shape };

    // Where the first row begins.
    fn first(self) -> usize
        ensures { result ≡ (shape self).first };

    // The bytes of a row that are passed over in front; behind them stand those that are shown.
    fn skip(self) -> usize
        ensures { result ≡ (shape self).skip };

    // All bytes of a row: from the start of one to the start of the next.
    fn step(self) -> usize
        ensures { result ≡ step (shape self) };

    // The bytes of the `k` rows in front of row `k`, computed, where they are a number of 64 bits. (A file has
    // fewer than 2^32 rows.)
    fn bytes_before(self, k: u32) -> usize
        ensures { step (shape self) * k ≤ 18446744073709551615 → result ≡ step (shape self) * k };
}

// What is left of so many bytes behind whole rows of `step`: of rows of 0 bytes all.
#[tactic(auto, using(crate::proofs::Dividing::none_taken))]
fn left(bytes: usize, step: usize) -> usize
    ensures { result ≡ bytes % step }
{
    bytes.checked_rem(step).unwrap_or(bytes)
}

// The number of rows: 14, 16, 12. There are no rows of 0 bytes: no byte divides into them.
#[tactic(auto, using(crate::proofs::Dividing::no_rows))]
pub fn count<R: FixedRows>(rows: R, file: &[u8]) -> Result<usize, Refused>
    ensures { told result ≡ count_rows (R.shape rows) file.now }
{
    if answer::LARGEST_FILE < file.len() {
        return Err(Refused(Refusal::TooBig, 0));
    }
    if file.len() < rows.first() {
        return Err(Refused(Refusal::BadStart, 0));
    }
    let rest = file.len() - rows.first();
    if left(rest, rows.step()) != 0 {
        return Err(Refused(Refusal::Ragged, 0));
    }
    Ok(rest.checked_div(rows.step()).unwrap_or(0))
}

// Passes `k` rows from the first place on; 6 where no bytes are left. So the row found stands in front of bytes.
#[tactic(auto, using(crate::proofs::Passing::past_the_end, crate::proofs::Passing::passes_one, crate::proofs::Passing::arrives))]
fn pass<R: FixedRows>(rows: R, file: &[u8], k: usize) -> Result<usize, Refused>
    ensures passed { told result ≡ passing (step (R.shape rows)) k (R.shape rows).first (drop (R.shape rows).first file.now) }
    ensures inside { IfOk result (λ start. start < length file.now) }
{
    let mut at = rows.first();
    if file.len() <= at {
        return Err(Refused(Refusal::NoRow, 0));
    }
    for _ in 0..k {
        if file.len() - at <= rows.step() {
            return Err(Refused(Refusal::NoRow, 0));
        }
        at += rows.step();
    }
    Ok(at)
}

// What is shown of the row whose bytes start at `start`, and end in a file.
fn shown_at<R: FixedRows>(rows: R, start: usize) -> Shown
    requires { start + step (R.shape rows) ≤ largest_file }
    ensures { result ≡ row_at (R.shape rows) start }
{
    answer::unlabelled(start + rows.skip(), rows.step() - rows.skip())
}

// Row `k`, found by passing the rows before it: 14, 16, 12, 6. (Three parameters: a struct of
// two of them would be made for one call and be taken apart in it.)
#[tactic(auto, using(crate::proofs::Ends::passed_ends_inside))]
pub fn find_row<R: FixedRows>(rows: R, file: &[u8], k: usize) -> Result<Shown, Refused>
    ensures { told result ≡ find_row (R.shape rows) file.now k }
{
    count(rows, file)?;
    Ok(shown_at(rows, pass(rows, file, k)?))
}

// Row `k`, found by computing its place: 14, 16, 12, 6. It is asked first whether there is such a row, so
// that no number wraps.
#[tactic(auto, using(crate::proofs::Ends::jumped_ends_inside, crate::proofs::Ends::few_rows))]
pub fn jump_to<R: FixedRows>(rows: R, file: &[u8], k: usize) -> Result<Shown, Refused>
    ensures { told result ≡ jump_to (R.shape rows) file.now k }
{
    if k < count(rows, file)? {
        return Ok(shown_at(rows, rows.first() + rows.bytes_before(k as u32)));
    }
    Err(Refused(Refusal::NoRow, 0))
}

// Whether a row starts at the place `from`, in a file of so many bytes.
fn row_starts<R: FixedRows>(rows: R, bytes: usize, from: usize) -> bool
    ensures { result ≡ starts (R.shape rows).first (step (R.shape rows)) bytes from }
{
    rows.first() <= from && from < bytes && left(from - rows.first(), rows.step()) == 0
}

// Going on: the row that starts at the place `from`: 14, 16, 12, and 6 where none does.
#[tactic(auto, using(crate::proofs::Ends::begun_ends_inside))]
pub fn row_from<R: FixedRows>(rows: R, file: &[u8], from: usize) -> Result<Shown, Refused>
    ensures { told result ≡ row_from (R.shape rows) file.now from }
{
    count(rows, file)?;
    if row_starts(rows, file.len(), from) {
        return Ok(shown_at(rows, from));
    }
    Err(Refused(Refusal::NoRow, 0))
}
