// Kind 2 of the kept form of an index, which has the file's row count in front of the entries: read, and
// turned back into kind 1 without the file. Renders document 02, item 9. The house record, of which it
// is a use, is left to `house_record`; what takes the file, which is the check and turning kind 1 into
// kind 2, is left to `kept_check`.
#![tactic(auto)]

ghost use Rattle.answer.specs.Told.{told};
ghost use Rattle.std.specs.Prelude.{◌≡◌, length};
ghost use Rattle.answer.specs.Outcome.{mapped};
ghost use Rattle.answer.specs.Filled.{Writes, filled};
ghost use Rattle.kept_rows.specs.Kind2.{list_of, loaded_of, load_kept2, to_kind1};

use answer::{Refusal, Refused};
use house_record::Kind;

// The bytes of the row count.
pub const COUNT: usize = 4;

// Kind 2: the row count stands between the kind and the entries.
pub const KIND: Kind = Kind {
    number: 2,
    between: COUNT,
};

// The place of the first entry.
pub const ENTRIES: usize = house_record::FRONT + COUNT;

// What a record of kind 2 tells: how many rows the file has, and how many entries its index has.
#[derive(Clone, Copy)]
pub struct Loaded {
    pub rows: usize,
    pub entries: usize,
}

// Reads the list that a record of kind 2 keeps to the front of `list`, and answers the row count and how
// many entries there are: 13, then 8.
#[tactic(auto, unfolding(house_record::specs::Record::load_as, house_record::specs::Record::read_as))]
pub fn load(kept: &[u8], list: &mut [u32]) -> Result<Loaded, Refused>
    ensures answers { told result ≡ mapped loaded_of (load_kept2 kept.now (length list.old)) }
    ensures leaves { list.new ≡ filled (mapped list_of (load_kept2 kept.now (length list.old)))
        list.old }
{
    let entries = house_record::load(KIND, kept, list)?;
    let rows = house_record::number_at(kept, house_record::FRONT) as usize;
    Ok(Loaded { rows, entries })
}

// Writes the list that a record of kind 2 keeps as a record of kind 1 to the front of `out`, and answers
// how many bytes it is: 13, then 8.
#[tactic(auto, using(crate::proofs::Kind2::no_way_back))]
pub fn to_kind_1(kept: &[u8], out: &mut [u8]) -> Result<usize, Refused>
    ensures { Writes (to_kind1 kept.now (length out.old))
        out.old (told result) out.new }
{
    if !house_record::is_record(KIND, kept) {
        return Err(Refused(Refusal::BadKept, 0));
    }
    let follows = house_record::number_at(kept, 0) - 4;
    let front = house_record::front(follows, kept::KIND);
    house_record::put(&front, &kept[ENTRIES..], out)
}
