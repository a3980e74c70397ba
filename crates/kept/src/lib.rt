// The kept form of an index: a list of 32-bit numbers written to bytes, and read back from them.
// Renders document 01, "Kept form": kind 1 of the house record, whose rules are left to `house_record`.
// What the numbers stand for, and whether they are the index of some file, is left to the crates above.
#![tactic(auto)]

ghost use Rattle.answer.specs.Told.{told};
ghost use Rattle.std.specs.Prelude.{◌≡◌, ◌*◌, length};
ghost use Rattle.answer.specs.Filled.{Writes};
ghost use Rattle.house_record.specs.Record.{entry_bytes};
ghost use Rattle.kept.specs.Kept.{keep_index, load_kept};

use answer::{Refusal, Refused};
use house_record::Kind;

// Kind 1: nothing stands between the kind and the entries.
pub const KIND: Kind = Kind {
    number: 1,
    between: 0,
};

// Writes the entries to bytes that are just so many, four each.
#[tactic(auto, using(crate::proofs::Entries::one_entry_put))]
fn put_entries(list: &[u32], out: &mut [u8])
    requires { length out.old ≡ 4 * length list.now }
    ensures { out.new ≡ entry_bytes list.now }
{
    // By place: neither `chunks_exact_mut` nor `as_chunks_mut` says what the slice ends as, so they have no proof.
    for (i, entry) in list.iter().enumerate() {
        let at = 4 * i;
        out[at..at + 4].copy_from_slice(&little::bytes_of(*entry));
    }
}

// Writes the kept form of a list to the front of `out`, and answers how many bytes it is: 14, then 8.
#[tactic(auto, unfolding(crate::specs::Kept::keep_index, house_record::specs::Record::kept_as), using(house_record::proofs::Writing::length_kept_as, house_record::proofs::Entries::length_entry_bytes))]
pub fn keep(list: &[u32], out: &mut [u8]) -> Result<usize, Refused>
    ensures { Writes (keep_index list.now (length out.old))
        out.old (told result) out.new }
{
    let count = list.len();
    if 1073741823 < count {
        return Err(Refused(Refusal::TooBig, 0));
    }
    let follows = 2 + 4 * count;
    let size = 4 + follows;
    if out.len() < size {
        return Err(Refused(Refusal::Small, 0));
    }
    out[..house_record::FRONT].copy_from_slice(&house_record::front(follows as u32, KIND));
    put_entries(list, &mut out[house_record::FRONT..size]);
    Ok(size)
}

// Reads the list that a record of kind 1 keeps to the front of `list`, and answers how many entries it
// has: 13, then 8.
pub fn load(bytes: &[u8], list: &mut [u32]) -> Result<usize, Refused>
    ensures { Writes (load_kept bytes.now (length list.old))
        list.old (told result) list.new }
{
    house_record::load(KIND, bytes, list)
}
