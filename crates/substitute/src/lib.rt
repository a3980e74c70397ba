// A row of a substitute file, or of the original: which of the two serves, and the row's bytes, lent
// again from that file and not copied. Renders document 02, item 6. Files are checked and rows read
// by `reader`, whose promises are all that is known of them here.
#![tactic(auto)]

ghost use Rattle.answer.specs.Told.{told};
ghost use Rattle.std.specs.Prelude.{◌≡◌};
ghost use Rattle.answer.specs.Outcome.{mapped};
ghost use Rattle.answer.specs.Window.{bytes_at};
ghost use Rattle.reader.specs.Rows.{row_of};
ghost use Rattle.substitute.specs.Chosen.{from, file_named};
ghost use Rattle.substitute.specs.Substitute.{read_either};

use answer::{Refusal, Refused, Shown};
use label::Versions;
use reader::Kind;

// Which of the two files.
#[derive(Clone, Copy, Debug, PartialEq, Eq)]
pub enum Source {
    Original,
    Substitute,
}

// A row, whole, and the file that it came from; its places are counted in that file.
#[derive(Clone, Copy)]
pub struct Chosen {
    pub source: Source,
    pub row: Shown,
}

// Row `k` of the original, or its refusal.
#[tactic(auto, using(crate::proofs::Rows::found_is_row))]
fn read_original(versions: Versions, original: &[u8], k: usize) -> Result<Chosen, Refused>
    ensures { told result ≡ mapped (from Source.Original) (row_of (Kind.Labelled versions) original.now k) }
{
    let row = reader::find_labelled(versions, original, k)?;
    Ok(Chosen {
        source: Source::Original,
        row,
    })
}

// Row `k`, whole: of the substitute where that is accepted and has the row, whatever the original is;
// else of the original. The original's refusal where neither serves; the substitute's is never told.
pub fn read_row(
    versions: Versions,
    original: &[u8],
    substitute: &[u8],
    k: usize,
) -> Result<Chosen, Refused>
    ensures { told result ≡ read_either versions original.now substitute.now k }
{
    match reader::find_labelled(versions, substitute, k) {
        Ok(row) => Ok(Chosen {
            source: Source::Substitute,
            row,
        }),
        Err(_) => read_original(versions, original, k),
    }
}

// The bytes of a row that was chosen, lent again from the file that it came from. Of a row that no call
// chose for these files, what of it lies in the file that it names.
pub fn bytes_of<'a>(original: &'a [u8], substitute: &'a [u8], found: Chosen) -> &'a [u8]
    ensures { result.now ≡ bytes_at (file_named found.source original.now substitute.now) found.row.part.place found.row.part.count }
{
    let file = match found.source {
        Source::Original => original,
        Source::Substitute => substitute,
    };
    answer::bytes_of(file, found.row.part)
}
