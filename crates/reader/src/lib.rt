// The reader: files of every kind, checked, their rows read from the first byte, jumped to or gone on
// to, each answered as a part of the lent file (`answer::bytes_of` lends its bytes). Renders document
// 01's demands 2 and 3 over every kind; how a kind is framed is known to the crates below alone. The
// caller names the kind and vouches for it; the labelled kind says which versions of the label are
// allowed, that of bursts where the first record begins. A caller that knows the kind when it is
// written jumps by the kind's own function, which costs less.
#![tactic(auto, using(crate::proofs::Found::row_inside, crate::proofs::Found::jumped_inside, fixed_rows::proofs::JumpIsRead::jump_is_read), unfolding(crate::specs::Rows::check_file, crate::specs::Read::find_row, crate::specs::Read::jump_to, crate::specs::Read::read_row, crate::specs::Read::jump_row, crate::specs::Read::row_from))]

ghost use Rattle.answer.specs.Told.{told};
ghost use Rattle.std.specs.Prelude.{◌≡◌, [], ◌+◌, ◌≤◌};
ghost use Rattle.answer.specs.Outcome.{answer, and_then};
ghost use Rattle.answer.specs.Window.{window_in};
ghost use Rattle.reader.specs.Rows.{check_file};
ghost use Rattle.reader.specs.Read.{find_row, read_row, jump_row, row_from, beginning as beginning_of};

use answer::{Part, Refusal, Refused, Shown, Window};
use label::Versions;

// The kinds of file. (They are few and closed, and the C interface and the definitions go by them: a
// `match` is plainer than a trait or closures. A kind and a file's bytes stay two parameters, as in the
// definitions: a struct of both would be written out in each clause; so do a row's number and its window,
// of which many go with one row.)
#[derive(Clone, Copy)]
pub enum Kind {
    // Objects with CCSDS labels of these versions, inside one another.
    Labelled(Versions),
    // RPWS wideband rows of 2,080 bytes.
    Waveform,
    // Cassini short bursts: records of 1,272 bytes from this place on.
    Bursts(usize),
}

// How many rows a file has, or its first fault.
pub fn check(kind: Kind, file: &[u8]) -> Result<usize, Refused>
    ensures { told result ≡ check_file kind file.now }
{
    match kind {
        Kind::Labelled(versions) => labelled::check(versions, file),
        Kind::Waveform => waveform::check(file),
        Kind::Bursts(first) => bursts::check(file, first),
    }
}

// Row `k`, whole, found from the first byte. (A twin of `whole_row` that must stay: reading
// passes row after row, as document 01 has it, and a row that is only sought is computed.)
fn find_row(kind: Kind, file: &[u8], k: usize) -> Result<Shown, Refused>
    ensures { told result ≡ find_row kind file.now k }
{
    match kind {
        Kind::Labelled(versions) => labelled::find_row(versions, file, k),
        Kind::Waveform => waveform::find_row(file, k),
        Kind::Bursts(first) => bursts::find_row(file, first, k),
    }
}

// The window of a row that was found, or 7. The row's address stays.
fn window_in(row: Shown, window: Window) -> Result<Shown, Refused>
    requires { row.part.place + row.part.count ≤ 9223372036854775807 }
    ensures { told result ≡ window_in window.first window.count row }
{
    if !window.fits(row.part.count) {
        return Err(Refused(Refusal::NoPart, 0));
    }
    Ok(Shown {
        part: Part {
            place: row.part.place + window.first,
            count: window.count,
        },
        address: row.address,
    })
}

// The window of row `k`, read from the first byte.
pub fn read_row(kind: Kind, file: &[u8], k: usize, window: Window) -> Result<Shown, Refused>
    ensures { told result ≡ read_row kind file.now k window.first window.count }
{
    let row = find_row(kind, file, k)?;
    window_in(row, window)
}

// Row `k` of a labelled file, whole, found from the first byte.
pub fn find_labelled(versions: Versions, file: &[u8], k: usize) -> Result<Shown, Refused>
    ensures { told result ≡ find_row (Kind.Labelled versions) file.now k }
{
    labelled::find_row(versions, file, k)
}

// Row `k`, whole: of a labelled file found from the first byte, of rows of one size by computing its place, which by
// demand 3 is where reading finds it.
pub fn whole_row(kind: Kind, file: &[u8], k: usize) -> Result<Shown, Refused>
    ensures { told result ≡ find_row kind file.now k }
{
    match kind {
        Kind::Labelled(versions) => labelled::find_row(versions, file, k),
        Kind::Waveform => waveform::jump_to(file, k),
        Kind::Bursts(first) => bursts::jump_to(file, first, k),
    }
}

// The window of row `k` of a labelled file, jumped to by the list. The row's depth is absent.
pub fn jump_labelled(
    versions: Versions,
    file: &[u8],
    list: &[u32],
    k: usize,
    window: Window,
) -> Result<Shown, Refused>
    ensures { told result ≡ jump_row (Kind.Labelled versions) file.now list.now k window.first window.count }
{
    let row = row_index::jump_to(versions, file, list, k)?;
    window_in(row, window)
}

// The window of row `k` of a waveform file, jumped to with no list.
pub fn jump_waveform(file: &[u8], k: usize, window: Window) -> Result<Shown, Refused>
    ensures { told result ≡ jump_row Kind.Waveform file.now [] k window.first window.count }
{
    let row = waveform::jump_to(file, k)?;
    window_in(row, window)
}

// The window of record `k` of bursts that begin at `first`, jumped to with no list.
pub fn jump_bursts(file: &[u8], first: usize, k: usize, window: Window) -> Result<Shown, Refused>
    ensures { told result ≡ jump_row (Kind.Bursts first) file.now [] k window.first window.count }
{
    let row = bursts::jump_to(file, first, k)?;
    window_in(row, window)
}

// The window of row `k`, jumped to by the list. Only a labelled file needs one.
pub fn jump_row(
    kind: Kind,
    file: &[u8],
    list: &[u32],
    k: usize,
    window: Window,
) -> Result<Shown, Refused>
    ensures { told result ≡ jump_row kind file.now list.now k window.first window.count }
{
    match kind {
        Kind::Labelled(versions) => jump_labelled(versions, file, list, k, window),
        Kind::Waveform => jump_waveform(file, k, window),
        Kind::Bursts(first) => jump_bursts(file, first, k, window),
    }
}

// Where going on begins: the place from which the first row is row 0.
pub fn beginning(kind: Kind) -> usize
    ensures { result ≡ beginning_of kind }
{
    match kind {
        Kind::Labelled(_) => 0,
        Kind::Waveform => 0,
        Kind::Bursts(first) => first,
    }
}

// Going on: the first whole row from a place on, of a labelled file without its depth. From 0, in bursts
// from the first record's place, it is row 0; from the end of one row's bytes, the next row. A strip of n
// rows is read so in time that grows with the strip and not with the file.
pub fn row_from(kind: Kind, file: &[u8], from: usize) -> Result<Shown, Refused>
    ensures { told result ≡ row_from kind file.now from }
{
    match kind {
        Kind::Labelled(versions) => walk::row_from(versions, file, from, 0),
        Kind::Waveform => waveform::row_from(file, from),
        Kind::Bursts(first) => bursts::row_from(file, first, from),
    }
}
