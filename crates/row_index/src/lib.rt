// The index of a labelled file, built, checked, and the jump to a row by it. Renders document 01,
// "The index and the jump"; the kept form of an index is a crate of its own, and windows are left to
// the reader. (The versions and a file's bytes stay two parameters, as in the definitions and in the C
// interface: a struct of both would be written out in each clause.)
#![tactic(auto)]

ghost use Rattle.answer.specs.Told.{told};
ghost use Rattle.std.specs.Prelude.{◌≡◌, ℕ, ◌+◌, ◌/◌, ◌≤◌, List, length, slice_get};
ghost use Rattle.answer.specs.Outcome.{and_then, mapped};
ghost use Rattle.answer.specs.Size.{largest_file};
ghost use Rattle.answer.specs.Filled.{filled};
ghost use Rattle.sfdu.specs.Check.{check_labelled};
ghost use Rattle.walk.specs.Walk.{walk_from};
ghost use Rattle.row_index.specs.Index.{index_of, built_of, build_index, same, check_index, place_found};
ghost use Rattle.row_index.specs.Jump.{jump_to};
ghost use Rattle.row_index.specs.Private.{the_index};

use answer::{Refusal, Refused, Shown};
use label::Versions;

// How many rows an entry stands for.
pub const GROUP: usize = 16;

// What the builder wrote: so many entries, for a file with so many rows.
#[derive(Clone, Copy)]
pub struct Built {
    pub entries: usize,
    pub rows: usize,
}

// A list of entries, wherever they stand: numbers in memory, or the bytes of a record.
pub trait IndexList: Copy {
    ghost entries: { Self → List ℕ };

    // How many there are.
    fn count(self) -> usize
        ensures { result ≡ length (entries self) };

    // Entry `i`; none past the end.
    fn entry(self, i: usize) -> Option<usize>
        ensures { result ≡ slice_get (entries self) i };
}

impl IndexList for &[u32] {
    ghost entries = { λ list. list.now };

    fn count(self) -> usize {
        self.len()
    }

    fn entry(self, i: usize) -> Option<usize> {
        Some(*self.get(i)? as usize)
    }
}

// Row k, whole, by the list: the entry of its group of sixteen, and then a walk. Its depth is absent.
#[tactic(auto, using(crate::proofs::JumpIsRead::too_big_to_jump, crate::proofs::JumpIsRead::no_entry, crate::proofs::JumpIsRead::entry_beyond, crate::proofs::JumpIsRead::jumps_from_entry))]
pub fn jump_to(versions: Versions, file: &[u8], list: &[u32], k: usize) -> Result<Shown, Refused>
    ensures { told result ≡ jump_to versions file.now list.now k }
{
    if answer::LARGEST_FILE < file.len() {
        return Err(Refused(Refusal::TooBig, 0));
    }
    let group = k / GROUP;
    let entry = *list.get(group).ok_or(Refused(Refusal::NoRow, 0))? as usize;
    if file.len() < entry {
        return Err(Refused(Refusal::BadIndex, 0));
    }
    walk::row_from(versions, file, entry, k % GROUP)
}

// The place of the label that a walk comes to; 0 where it comes to none, as callers are promised.
pub fn entry_from(versions: Versions, file: &[u8], from: usize, leaves: usize) -> usize
    ensures { (result ≡ place_found (walk_from versions file.now from leaves)) × (result ≤ length file.now) }
{
    match walk::walk_from(versions, file, from, leaves) {
        Ok(leaf) => leaf.place,
        Err(_) => 0,
    }
}

// Writes the file's index into a list that has just as many entries: each is found by a walk of sixteen
// leaves from the one before it.
#[tactic(auto, using(crate::proofs::Building::nothing_written, crate::proofs::Building::all_written))]
fn write_entries(versions: Versions, file: &[u8], list: &mut [u32])
    requires { (length file.now ≤ largest_file) × (length list.old ≡ length (the_index versions file.now)) }
    ensures { list.new ≡ the_index versions file.now }
{
    let mut from: usize = 0;
    let mut leaves: usize = 0;
    for entry in list.iter_mut() {
        let place = entry_from(versions, file, from, leaves);
        *entry = place as u32;
        from = place;
        leaves = GROUP;
    }
}

// Whether the list is the file's index, where it has as many entries.
fn entries_agree<E: IndexList>(versions: Versions, file: &[u8], list: E) -> bool
    requires { length (E.entries list) ≡ length (the_index versions file.now) }
    ensures { result ≡ same (E.entries list) (the_index versions file.now) }
{
    let mut from: usize = 0;
    let mut leaves: usize = 0;
    // By index: a list that stands in bytes has no iterator of its own.
    for i in 0..list.count() {
        let place = entry_from(versions, file, from, leaves);
        if list.entry(i) != Some(place) {
            return false;
        }
        from = place;
        leaves = GROUP;
    }
    true
}

// How many groups of sixteen so many rows start.
pub fn groups(rows: usize) -> usize
    ensures { result ≡ (rows + 15) / 16 }
{
    rows.div_ceil(GROUP)
}

// Builds the index: writes its entries to the front of the list, and leaves the rest as it is.
pub fn build_index(versions: Versions, file: &[u8], list: &mut [u32]) -> Result<Built, Refused>
    ensures answers { told result ≡ mapped built_of (build_index versions file.now (length list.old)) }
    ensures leaves { list.new ≡ filled (mapped index_of (build_index versions file.now (length list.old)))
        list.old }
{
    let rows = labelled::check(versions, file)?;
    let entries = groups(rows);
    if list.len() < entries {
        return Err(Refused(Refusal::Small, 0));
    }
    write_entries(versions, file, &mut list[..entries]);
    Ok(Built { entries, rows })
}

// How many rows the file has, where the list is its index, entry for entry: 14, faults, 11.
pub fn rows_indexed<E: IndexList>(
    versions: Versions,
    file: &[u8],
    list: E,
) -> Result<usize, Refused>
    ensures { told result ≡ and_then (check_index versions file.now (E.entries list)) (λ _. check_labelled versions file.now) }
{
    let rows = labelled::check(versions, file)?;
    if list.count() != groups(rows) {
        return Err(Refused(Refusal::BadIndex, 0));
    }
    if entries_agree(versions, file, list) {
        return Ok(rows);
    }
    Err(Refused(Refusal::BadIndex, 0))
}

// Checks a list against the file: it must be the file's index, entry for entry.
pub fn check_index(versions: Versions, file: &[u8], list: &[u32]) -> Result<(), Refused>
    ensures { told result ≡ check_index versions file.now list.now }
{
    rows_indexed(versions, file, list)?;
    Ok(())
}
