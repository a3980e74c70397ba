// The calls on a labelled file that go through all of it from the first byte: its check, and reading a
// row, with the row's address. Renders document 01's check of labelled files and its paragraph on
// reading a row of one, and document 02, item 8. Both are one nested search, which is left to `sfdu`;
// windows are left to the reader.
#![tactic(auto)]

ghost use Rattle.answer.specs.Told.{told};
ghost use Rattle.std.specs.Prelude.{◌≡◌, ◌≤◌};
ghost use Rattle.answer.specs.Size.{largest_file};
ghost use Rattle.sfdu.specs.Row.{whole};
ghost use Rattle.sfdu.specs.Check.{check_labelled};
ghost use Rattle.sfdu.specs.Find.{find_row};
ghost use Rattle.sfdu.specs.Search.{row_marked};

use answer::{Address, Nesting, Part, Refusal, Refused, Shown};
use label::Versions;
use sfdu::Mark;

// The check of a labelled file, with labels of these versions: how many rows it has, or its first fault.
#[tactic(auto, using(crate::proofs::Seen::counts_so_many, crate::proofs::Seen::meets_the_fault), unfolding(sfdu::specs::Check::check_labelled))]
pub fn check(versions: Versions, file: &[u8]) -> Result<usize, Refused>
    ensures { told result ≡ check_labelled versions file.now }
{
    let seen = sfdu::search_file(versions, file, 0)?;
    Ok(seen.rows)
}

// The row that was marked, whole.
fn marked_row(mark: Mark) -> Shown
    requires { mark.label ≤ largest_file }
    ensures { result ≡ whole (row_marked mark) }
{
    Shown {
        part: Part {
            place: mark.label + label::LABEL,
            count: mark.size,
        },
        address: Address {
            label: mark.label,
            nesting: Some(Nesting {
                depth: mark.depth,
                outermost: mark.outermost,
            }),
        },
    }
}

// Row `k` of a labelled file, whole, read from the first byte in one pass, which also checks the file;
// 6 where there is no such row.
pub fn find_row(versions: Versions, file: &[u8], k: usize) -> Result<Shown, Refused>
    ensures { told result ≡ find_row versions file.now k }
{
    let seen = sfdu::search_file(versions, file, k)?;
    // By `match`: with `ok_or` and `?` it is as long, and its proof longer.
    match seen.mark {
        Some(mark) => Ok(marked_row(mark)),
        None => Err(Refused(Refusal::NoRow, 0)),
    }
}
