// Which byte of a file stands behind a dot of a strip: its place, the byte, its tone, and whether the dot is
// set. Renders document 02, item 7, for whoever asks it of a dot on the paper. Rows are found by `reader`; that
// the lines which `plotter` draws have this dot is the theorem `strip_is_traced`.
#![tactic(auto)]

ghost use Rattle.answer.specs.Told.{told};
ghost use Rattle.std.specs.Prelude.{◌≡◌, ◌+◌};
ghost use Rattle.reader.specs.Read.{find_row};
ghost use Rattle.trace.specs.Behind.{dot_behind};

use answer::{Refusal, Refused, Shown, Window};
use reader::Kind;

// A dot of a strip: the place in the file of the byte behind it, the byte, its tone, and whether the dot is
// set.
#[derive(Clone, Copy)]
pub struct Dot {
    pub place: usize,
    pub byte: u8,
    pub tone: u8,
    pub set: bool,
}

// Row `first` + `y`, whole; 6 where that number is none of 64 bits, in a file that the check accepts: a file has
// fewer rows, since they are counted in 64 bits.
#[tactic(auto, using(crate::proofs::OneDot::of_a_refused_file))]
fn row_of_line(kind: Kind, file: &[u8], first: usize, y: usize) -> Result<Shown, Refused>
    ensures { told result ≡ find_row kind file.now (first + y) }
{
    match first.checked_add(y) {
        Some(k) => reader::whole_row(kind, file, k),
        None => {
            reader::check(kind, file)?;
            Err(Refused(Refusal::NoRow, 0))
        }
    }
}

// The dot at column `x` of line `y` of a strip that starts with row `first`. (A dot is asked for once: a
// struct of strip and place would be made for the one call.)
pub fn behind(
    kind: Kind,
    file: &[u8],
    first: usize,
    window: Window,
    x: usize,
    y: usize,
) -> Result<Dot, Refused>
    ensures { told result ≡ dot_behind kind file.now first window.first window.count x y }
{
    let row = row_of_line(kind, file, first, y)?;
    if !window.fits(row.part.count) || window.count <= x {
        return Err(Refused(Refusal::NoPart, 0));
    }
    let place = row.part.place + window.first + x;
    let byte = file[place];
    let tone = dots::tone(byte);
    let set = dots::is_dot(tone, x, y);
    Ok(Dot {
        place,
        byte,
        tone,
        set,
    })
}
