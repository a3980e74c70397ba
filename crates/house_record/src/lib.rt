// The house record, in which an index is kept: its length, its kind, what this kind has between the kind
// and the entries, and the entries. Renders document 01, "Kept form" (a house format), over the kind
// and over what stands between. Which kinds there are is left to the crates above: `kept` has kind 1,
// `kept_rows` kind 2.
#![tactic(auto)]

ghost use Rattle.answer.specs.Told.{told};
ghost use Rattle.std.specs.Prelude.{◌≡◌, ◌++◌, ◌+◌, ◌*◌, ◌≤◌, length, drop};
ghost use Rattle.answer.specs.Filled.{Writes};
ghost use Rattle.little.specs.LittleEndian.{le};
ghost use Rattle.house_record.specs.Record.{in_room, number_at, entries_of, is_kept, load_as};

use answer::{Refusal, Refused};

// The bytes of the length and the kind, in front of all else.
pub const FRONT: usize = 6;

// A kind of record: its number, and how many bytes stand between the kind and the entries.
#[derive(Clone, Copy)]
pub struct Kind {
    pub number: u32,
    pub between: usize,
}

// The number in the four bytes from place `at` on; 0 where not all four are there, which is promised to
// callers and so is no `Option`.
pub fn number_at(bytes: &[u8], at: usize) -> u32
    ensures { result ≡ number_at bytes.now at }
{
    little::four_at(bytes, at).unwrap_or(0)
}

// Whether these bytes are a whole record of this kind.
pub fn is_record(kind: Kind, bytes: &[u8]) -> bool
    ensures { result ≡ is_kept kind.number (6 + kind.between) bytes.now }
{
    FRONT <= bytes.len()
        && kind.between <= bytes.len() - FRONT
        && number_at(bytes, 0) as usize == bytes.len() - 4
        && little::two_at(bytes, 4) == Some(kind.number)
        && (bytes.len() - FRONT - kind.between) % 4 == 0
}

// Reads as many entries as the list has from bytes that are just so many.
fn take_entries(bytes: &[u8], list: &mut [u32])
    requires { length bytes.now ≡ 4 * length list.old }
    ensures { list.new ≡ entries_of (length list.old) bytes.now }
{
    let (fours, _) = bytes.as_chunks::<4>();
    // By place: of what is written behind a `zip` with `iter_mut` std promises nothing.
    for (i, entry) in list.iter_mut().enumerate() {
        *entry = u32::from_le_bytes(fours[i]);
    }
}

// Reads the list that a record of this kind keeps to the front of `list`, and answers how many entries
// it has: 13, then 8.
#[tactic(auto, unfolding(crate::specs::Record::load_as, crate::specs::Record::read_as), using(crate::proofs::Entries::length_entries))]
pub fn load(kind: Kind, bytes: &[u8], list: &mut [u32]) -> Result<usize, Refused>
    ensures { Writes (load_as kind.number (6 + kind.between) bytes.now (length list.old))
        list.old (told result) list.new }
{
    if !is_record(kind, bytes) {
        return Err(Refused(Refusal::BadKept, 0));
    }
    let entries = &bytes[FRONT + kind.between..];
    let count = entries.len() / 4;
    if list.len() < count {
        return Err(Refused(Refusal::Small, 0));
    }
    take_entries(entries, &mut list[..count]);
    Ok(count)
}

// The front of a record: its length, how many bytes follow it, and its kind.
pub fn front(follows: u32, kind: Kind) -> [u8; FRONT]
    ensures { result ≡ le 4 follows ++ le 2 kind.number }
{
    let [a, b, c, d] = little::bytes_of(follows);
    let [low, high, ..] = little::bytes_of(kind.number);
    [a, b, c, d, low, high]
}

// Writes a record in two pieces, what stands in front of its entries and then their bytes, to the front
// of `out`, and answers how many bytes it is; 8 where there is no room for it.
pub fn put(front: &[u8], entries: &[u8], out: &mut [u8]) -> Result<usize, Refused>
    ensures { Writes (in_room (length out.old) (front.now ++ entries.now))
        out.old (told result) out.new }
{
    let at = front.len();
    if out.len() < at || out.len() - at < entries.len() {
        return Err(Refused(Refusal::Small, 0));
    }
    let size = at + entries.len();
    out[..at].copy_from_slice(front);
    out[at..size].copy_from_slice(entries);
    Ok(size)
}
