// Two labelled files set end to end for one roll: the index of the joined file, from the two files and
// their indexes, with no joined file built. Renders document 02, item 10. That the joined file is
// accepted, and which rows it has, is stated in `specs/Joining.antt`; what holds of several rolls, and
// of the empty file, in `specs/Rolls.antt`.
#![tactic(auto)]

ghost use Rattle.answer.specs.Told.{told};
ghost use Rattle.std.specs.Prelude.{◌≡◌, ◌++◌, ◌+◌, ◌≤◌, length, take, drop};
ghost use Rattle.answer.specs.Outcome.{answer, mapped};
ghost use Rattle.answer.specs.Size.{largest_file};
ghost use Rattle.answer.specs.Filled.{filled};
ghost use Rattle.sfdu.specs.Check.{check_labelled};
ghost use Rattle.row_index.specs.Index.{index_of, built_of, build_index, check_index};
ghost use Rattle.row_index.specs.Private.{the_index};
ghost use Rattle.joined.specs.Joined.{join_index};
ghost use Rattle.joined.specs.Private.{further};

use answer::{Refusal, Refused};
use label::Versions;
use row_index::Built;

// Copies entries to the front of a list.
fn put_entries(entries: &[u32], list: &mut [u32])
    requires { length entries.now ≤ length list.old }
    ensures { list.new ≡ take (length entries.now) entries.now ++ drop (length entries.now) list.old }
{
    list[..entries.len()].copy_from_slice(entries);
}

// Writes the entries that stand in the second file, `base` bytes behind their places in it, into a list
// that has just as many: each is found by a walk over the rows that are passed, from an entry of that
// file's own index.
fn put_further(
    versions: Versions,
    base: usize,
    file: &[u8],
    index: &[u32],
    passed: usize,
    list: &mut [u32],
)
    requires { (base + length file.now ≤ largest_file) × (index.now ≡ the_index versions file.now) × (passed ≤ 15)
        × (length list.old ≡ length (further versions base file.now passed)) }
    ensures { list.new ≡ further versions base file.now passed }
{
    // By place: of what is written behind a `zip` with `iter_mut` std promises nothing.
    for (i, entry) in list.iter_mut().enumerate() {
        let from = index[i] as usize;
        let place = row_index::entry_from(versions, file, from, passed);
        let moved = base + place;
        *entry = moved as u32;
    }
}

// The index of the joined file, where `index` is the first file's and `other` the second's: 14 of the
// sum; faults of the first file, 11 for its list; the same for the second, with places in its own file; 8.
// Its entries are written to the front of the list, and the rest is left as it is.
pub fn join_index(
    versions: Versions,
    first: &[u8],
    index: &[u32],
    second: &[u8],
    other: &[u32],
    list: &mut [u32],
) -> Result<Built, Refused>
    ensures answers { told result ≡ mapped built_of (join_index versions first.now index.now
        second.now other.now (length list.old)) }
    ensures leaves { list.new ≡ filled (mapped index_of (join_index versions first.now index.now
        second.now other.now (length list.old))) list.old }
{
    let sum = first.len() + second.len();
    if answer::LARGEST_FILE < sum {
        return Err(Refused(Refusal::TooBig, 0));
    }
    let rows = row_index::rows_indexed(versions, first, index)?;
    let more = row_index::rows_indexed(versions, second, other)?;
    let all = rows + more;
    let entries = row_index::groups(all);
    if list.len() < entries {
        return Err(Refused(Refusal::Small, 0));
    }
    let done = index.len();
    let passed = row_index::GROUP * done - rows;
    put_entries(index, list);
    put_further(
        versions,
        first.len(),
        second,
        other,
        passed,
        &mut list[done..entries],
    );
    Ok(Built { entries, rows: all })
}
