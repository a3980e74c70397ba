// A kept index with its file at hand: a record of kind 1 turned into one of kind 2, with the file's row
// count, and the check of a record of kind 2. Renders document 02, item 9. That each way and back gives
// the same bytes is stated in `specs/SameBytes.antt`; the way back, and reading, need no file and are left
// to `kept_rows`. (The versions and a file's bytes stay two parameters, as in `row_index`.)
#![tactic(auto)]

ghost use Rattle.answer.specs.Told.{told};
ghost use Rattle.std.specs.Prelude.{◌≡◌, ◌+◌, ◌/◌, length};
ghost use Rattle.answer.specs.Filled.{Writes};
ghost use Rattle.house_record.specs.Record.{entries_of};
ghost use Rattle.kept_check.specs.Check.{to_kind2, check_kept2};
ghost use Rattle.kept_check.specs.Private.{rows_borne_out};

use answer::{Refusal, Refused};
use house_record::Kind;
use label::Versions;
use row_index::IndexList;

// The entries of a record, by their bytes.
#[derive(Clone, Copy)]
struct Entries<'a> {
    bytes: &'a [u8],
}

impl IndexList for Entries<'_> {
    ghost entries = { λ e. entries_of (length e.bytes.now / 4) e.bytes.now };

    #[tactic(auto, using(house_record::proofs::Entries::length_entries))]
    fn count(self) -> usize {
        self.bytes.len() / 4
    }

    fn entry(self, i: usize) -> Option<usize> {
        let (fours, _) = self.bytes.as_chunks::<4>();
        Some(u32::from_le_bytes(*fours.get(i)?) as usize)
    }
}

// How many rows the file has, where a record of this kind keeps its index: 14, faults, 13, 11.
#[tactic(auto, using(crate::proofs::Borne::not_accepted, crate::proofs::Borne::no_record, crate::proofs::Borne::as_indexed))]
fn rows_borne_out(
    versions: Versions,
    file: &[u8],
    kind: Kind,
    kept: &[u8],
) -> Result<usize, Refused>
    ensures { told result ≡ rows_borne_out versions kind.number (6 + kind.between) file.now kept.now }
{
    if !house_record::is_record(kind, kept) {
        labelled::check(versions, file)?;
        return Err(Refused(Refusal::BadKept, 0));
    }
    let bytes = &kept[house_record::FRONT + kind.between..];
    row_index::rows_indexed(versions, file, Entries { bytes })
}

// Checks a record of kind 2 against the file: its list must be the file's index, and its count the file's
// row count.
#[tactic(auto, using(crate::proofs::Borne::check_by_rows))]
pub fn check(versions: Versions, file: &[u8], kept: &[u8]) -> Result<(), Refused>
    ensures { told result ≡ check_kept2 versions file.now kept.now }
{
    let rows = rows_borne_out(versions, file, kept_rows::KIND, kept)?;
    let told = house_record::number_at(kept, house_record::FRONT) as usize;
    if told != rows {
        return Err(Refused(Refusal::BadIndex, 0));
    }
    Ok(())
}

// Writes a record of kind 1 that keeps the file's index as one of kind 2, with the file's row count, to
// the front of `out`, and answers how many bytes it is: 14, faults, 13, 11, 8.
#[tactic(auto, using(crate::proofs::Borne::not_there))]
pub fn to_kind_2(
    versions: Versions,
    file: &[u8],
    kept: &[u8],
    out: &mut [u8],
) -> Result<usize, Refused>
    ensures { Writes (to_kind2 versions file.now kept.now (length out.old))
        out.old (told result) out.new }
{
    let rows = rows_borne_out(versions, file, kept::KIND, kept)?;
    let follows = house_record::number_at(kept, 0) + 4;
    let mut front = [0; kept_rows::ENTRIES];
    front[..house_record::FRONT].copy_from_slice(&house_record::front(follows, kept_rows::KIND));
    front[house_record::FRONT..].copy_from_slice(&little::bytes_of(rows as u32));
    house_record::put(&front, &kept[house_record::FRONT..], out)
}
