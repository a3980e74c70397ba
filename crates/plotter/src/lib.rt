// Strips for the plotter: the lines of dots of consecutive rows of a file of any kind, through one window.
// Renders document 02, item 7. Files are checked and rows found by `reader`, whose promises are all that is
// known of them here; a line of dots is `dot_lines`', and which byte stands behind a dot is left to `trace`.
#![tactic(auto)]

ghost use Rattle.answer.specs.Told.{told};
ghost use Rattle.std.specs.Prelude.{◌≡◌, ◌++◌, ◌+◌, ◌*◌, ◌≤◌, length, take, drop, IsTrue};
ghost use Rattle.answer.specs.Filled.{Writes, filled};
ghost use Rattle.answer.specs.Window.{bytes_at};
ghost use Rattle.dot_lines.specs.Line.{line_bytes, line_into};
ghost use Rattle.plotter.specs.Strip.{strip_into};
ghost use Rattle.plotter.specs.Private.{start_of, is_start, judged};

use answer::{Part, Refusal, Refused, Window};
use reader::Kind;

// Where going on to row `first` starts: at the end of the row before it, or where the rows begin. One pass over
// the file, which also checks it; 6 where the row before it is missing.
#[tactic(auto, using(crate::proofs::Starting::start_behind, reader::proofs::Found::row_inside))]
fn start_of(kind: Kind, file: &[u8], first: usize) -> Result<usize, Refused>
    ensures { told result ≡ start_of kind file.now first }
{
    if first == 0 {
        reader::check(kind, file)?;
        return Ok(reader::beginning(kind));
    }
    let row = reader::whole_row(kind, file, first - 1)?;
    Ok(row.part.place + row.part.count)
}

// Draws line `y`, of the bytes of this part of the file, from byte `at` of `out` on; nothing where there is no room.
fn draw_row(file: &[u8], part: Part, y: usize, at: usize, out: &mut [u8])
    ensures { out.new ≡ take at out.old ++ filled (line_into (length (drop at out.old)) y (bytes_at file.now part.place part.count))
        (drop at out.old) }
{
    let samples = answer::bytes_of(file, part);
    if at <= out.len() {
        let _ = dot_lines::draw_line(samples, y, &mut out[at..]);
    }
}

// Consecutive rows of a file, of which the first is come to from `start`, and a window of each. The number of the
// first row is read by contracts alone.
#[derive(Drop)]
struct Rows<'a> {
    kind: Kind,
    file: &'a [u8],
    first: usize,
    start: usize,
    count: usize,
    window: Window,
    ghost starts: { IsTrue (is_start kind file.now first start) },
}

impl<'a> Rows<'a> {
    ghost use Rattle.plotter.specs.Rows.{windows_in, lines_into, AllThere};

    // Whether all rows are there and the window fits each of them; else the strip's refusal. Each row is found
    // from the end of the one before it.
    fn judge(&self) -> Result<(), Refused>
        ensures { told result ≡ judged (windows_in self.now) }
    {
        let mut fit = true;
        let mut from = self.start;
        for _ in 0..self.count {
            let row = reader::row_from(self.kind, self.file, from)?;
            fit &= self.window.fits(row.part.count);
            from = row.part.place + row.part.count;
        }
        if !fit {
            return Err(Refused(Refusal::NoPart, 0));
        }
        Ok(())
    }

    // Draws the lines of a strip whose rows are all there and that the window fits, to the front of `out`.
    fn draw(&self, out: &mut [u8])
        requires there { AllThere self.now }
        requires room { self.now.count * line_bytes self.now.window.count ≤ length out.old }
        ensures { out.new ≡ filled (lines_into (length out.old) self.now) out.old }
    {
        let bytes = dot_lines::line_bytes(self.window.count);
        let mut from = self.start;
        // By number: `y` is also the row of the matrix, and of what is written to the parts that
        // `chunks_exact_mut` lends std promises nothing.
        for y in 0..self.count {
            let row = reader::row_from(self.kind, self.file, from).unwrap();
            let part = Part {
                place: row.part.place + self.window.first,
                count: self.window.count,
            };
            draw_row(self.file, part, y, y * bytes, out);
            from = row.part.place + row.part.count;
        }
    }

    // The strip: its refusal, or its lines drawn and how many bytes they are.
    fn strip(&self, out: &mut [u8]) -> Result<usize, Refused>
        ensures { Writes (lines_into (length out.old) self.now) out.old (told result) out.new }
    {
        self.judge()?;
        let bytes = dot_lines::line_bytes(self.window.count);
        match self.count.checked_mul(bytes) {
            Some(drawn) if drawn <= out.len() => {
                self.draw(out);
                Ok(drawn)
            }
            _ => Err(Refused(Refusal::Small, 0)),
        }
    }
}

// The lines of `rows` rows from row `first` on, through one window, end to end at the front of `out`; how many
// bytes they are.
pub fn strip(
    kind: Kind,
    file: &[u8],
    first: usize,
    rows: usize,
    window: Window,
    out: &mut [u8],
) -> Result<usize, Refused>
    ensures { Writes (strip_into (length out.old) kind file.now first rows window.first window.count) out.old (told result) out.new }
{
    if rows == 0 {
        reader::check(kind, file)?;
        return Ok(0);
    }
    let start = start_of(kind, file, first)?;
    let rows = Rows {
        kind,
        file,
        first,
        start,
        count: rows,
        window,
    };
    rows.strip(out)
}
