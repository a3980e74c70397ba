// The listing of a labelled file as one text. Renders document 01, "The list program", with the last
// column of document 02, item 2: `rows N` and a line for each row, or `refused NUMBER PLACE` alone.
// Version 1 of the label alone is allowed (item 11). Reading the file and printing the text are left to
// the programs above.
#![tactic(auto)]

ghost use Rattle.answer.specs.Told.{told};
ghost use Rattle.std.specs.Prelude.{ℕ, ◌≡◌, ◌+◌, ◌≤◌, ◌<◌, ◌^◌, List, [], ◌++◌, length, take};
ghost use Rattle.answer.specs.Outcome.{answer};
ghost use Rattle.answer.specs.Filled.{Writes};
ghost use Rattle.sfdu.specs.Check.{counting};
ghost use Rattle.text.specs.Decimal.{decimal_text};
ghost use Rattle.label.specs.Head.{label_size};
ghost use Rattle.listing.specs.Line.{head_text};
ghost use Rattle.listing.specs.Listing.{rows_listed, row_lines, listing_of, Front};
ghost use Rattle.listing.specs.Private.{leaf_text, Puts};

use answer::{Refusal, Refused};
use label::Versions;
use std::marker::Model;
use walk::Leaf;

// Puts a text at place `at` of `out` and answers where it ends. (Lent memory and a place in it: the project
// has no heap.)
fn put(text: &[u8], out: &mut [u8], at: usize) -> usize
    requires { at + length text.now ≤ length out.old }
    ensures { Puts at text.now out.old result out.new }
{
    let end = at + text.len();
    out[at..end].copy_from_slice(text);
    end
}

// A line of text, which contracts see as the list of its bytes: the first `size`. (Fixed memory: the
// project has no heap, and so no `String`.)
#[derive(Drop)]
struct Line {
    bytes: [u8; 96],
    size: usize,
}

impl Model for Line {
    ghost Value = { List ℕ };

    ghost view = { λ line. take line.size line.bytes };

    ghost invariant = { λ line. line.size ≤ 96 };
}

impl Line {
    fn new() -> Self
        ensures { result ≡ [] }
    {
        Line {
            bytes: [0; 96],
            size: 0,
        }
    }

    fn text(&self) -> &[u8]
        ensures text { result.now ≡ self.now }
        ensures short { length result.now ≤ 96 }
    {
        &self.bytes[..self.size]
    }

    fn push(&mut self, piece: &[u8])
        requires { length self.old + length piece.now ≤ 96 }
        ensures { self.new ≡ self.old ++ piece.now }
    {
        self.size = put(piece, &mut self.bytes, self.size);
    }

    fn push_number(&mut self, n: usize)
        requires { length self.old + 20 ≤ 96 }
        ensures text { self.new ≡ self.old ++ decimal_text n }
        ensures short { length self.new ≤ length self.old + 20 }
    {
        self.push(text::decimal(n).digits());
    }
}

// The first line: how many rows were found, or the refusal. (By hand, though `Refused` has a `Display`: that
// wants a `fmt::Write` for the line, with its ghost output, and is no plainer.)
fn head_line(checked: Result<usize, Refused>) -> Line
    ensures { result ≡ head_text (told checked) }
{
    let mut line = Line::new();
    match checked {
        Ok(rows) => {
            line.push(b"rows ");
            line.push_number(rows);
        }
        Err(Refused(why, place)) => {
            line.push(b"refused ");
            line.push_number(why.number());
            line.push(b" ");
            line.push_number(place);
        }
    }
    line.push(b"\n");
    line
}

// A row's line: its number, the place of its value, its length, its description and its spaces.
fn row_line(number: usize, leaf: Leaf) -> Line
    requires { leaf.place + label_size < 2 ^ 64 }
    ensures { result ≡ leaf_text number leaf }
{
    let mut line = Line::new();
    line.push_number(number);
    line.push(b" ");
    line.push_number(leaf.place + label::LABEL);
    line.push(b" ");
    line.push_number(leaf.label.length);
    line.push(b" ");
    line.push(&leaf.label.description);
    line.push(b" ");
    line.push_number(usize::from(leaf.label.spaces));
    line.push(b"\n");
    line
}

// The largest file that is listed, in bytes.
const LARGEST_LISTED: usize = 65536;

// The check of a file that is listed.
#[tactic(auto, unfolding(crate::specs::Listing::rows_listed, sfdu::specs::Check::check_labelled))]
fn check_listed(file: &[u8]) -> Result<usize, Refused>
    ensures { told result ≡ counting (rows_listed file.now) }
{
    if LARGEST_LISTED < file.len() {
        return Err(Refused(Refusal::TooBig, 0));
    }
    labelled::check(Versions::One, file)
}

// Puts the lines of an accepted file's rows at place `at` of `out`, walking on from each row to
// the next, and answers where they end.
#[tactic(auto, using(crate::proofs::Underway::sets_out, crate::proofs::Underway::arrives, crate::proofs::Underway::turns))]
fn put_rows(file: &[u8], rows: usize, out: &mut [u8], at: usize) -> usize
    requires all { counting (rows_listed file.now) ≡ answer rows }
    requires room { (at ≤ 26) × (length out.old ≡ 81920) }
    ensures { Puts at (row_lines file.now (rows_listed file.now)) out.old result out.new }
{
    let mut end = at;
    let mut from = 0;
    for number in 0..rows {
        let Ok(leaf) = walk::walk_from(Versions::One, file, from, 0) else {
            return end;
        };
        end = put(row_line(number, leaf).text(), out, end);
        from = leaf.place + label::LABEL + leaf.label.length;
    }
    end
}

// The listing of a file, written to the front of `out`; answers how many bytes it has. `out` holds
// the longest there is: a file that is listed has at most 3,276 rows, and a row's line 24 bytes.
pub fn write_listing(file: &[u8], out: &mut [u8; 81920]) -> usize
    ensures writes { Writes (answer (listing_of file.now)) out.old (answer result) out.new }
    ensures front { Front result out.new }
{
    let checked = check_listed(file);
    let head = put(head_line(checked).text(), out, 0);
    match checked {
        Ok(rows) => put_rows(file, rows, out, head),
        Err(_) => head,
    }
}
