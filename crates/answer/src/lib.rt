// What every call of this library answers: a value, or one of the refusals of document 01's table
// with its place; parts of a lent file, and windows. Renders the section "Refusals and what they
// carry". It knows no file format.
#![tactic(auto)]

ghost use Rattle.std.specs.Prelude.{◌≡◌, Some};
ghost use Rattle.answer.specs.Refusal.{number_of};
ghost use Rattle.answer.specs.Text.{refused_text};
ghost use Rattle.answer.specs.Address.{unlabelled as unlabelled_row};
ghost use Rattle.answer.specs.Window.{fits, bytes_at};

use std::error::Error;
use std::fmt;

// The most bytes that a file may have; more is refusal 14.
pub const LARGEST_FILE: usize = 4294967295;

// The refusals of document 01's table, in its order, then those of document 02, which adds 17 later.
#[derive(Clone, Copy, Debug, PartialEq, Eq)]
pub enum Refusal {
    Short,
    BadLabel,
    BadLength,
    Overrun,
    Deep,
    NoRow,
    NoPart,
    Small,
    Reserved,
    Unknown,
    BadIndex,
    Ragged,
    BadKept,
    TooBig,
    TooLong,
    BadStart,
}

impl Refusal {
    // The document's number of a refusal. (By a `match`, as its definition: a cast would tie the numbers to
    // the order of the arms.)
    pub fn number(self) -> usize
        ensures { result ≡ number_of self }
    {
        match self {
            Refusal::Short => 1,
            Refusal::BadLabel => 2,
            Refusal::BadLength => 3,
            Refusal::Overrun => 4,
            Refusal::Deep => 5,
            Refusal::NoRow => 6,
            Refusal::NoPart => 7,
            Refusal::Small => 8,
            Refusal::Reserved => 9,
            Refusal::Unknown => 10,
            Refusal::BadIndex => 11,
            Refusal::Ragged => 12,
            Refusal::BadKept => 13,
            Refusal::TooBig => 14,
            Refusal::TooLong => 15,
            Refusal::BadStart => 16,
        }
    }
}

// The error of every call: a refusal and its place. `told` is what a `Result` with it stands for.
#[derive(Clone, Copy, Debug, PartialEq, Eq)]
pub struct Refused(pub Refusal, pub usize);

impl fmt::Display for Refused {
    ghost output = { λ e. Some (refused_text e) };

    fn fmt<W: fmt::Write>(&self, f: &mut fmt::Formatter<W>) -> fmt::Result {
        write!(f, "refused {} {}", self.0.number(), self.1)
    }
}

impl Error for Refused {}

// A part of a lent file: the place of its first byte and how many bytes it has.
#[derive(Clone, Copy)]
pub struct Part {
    pub place: usize,
    pub count: usize,
}

// How a row is nested: how deep its label stands, and the place of the outermost object that it lies in.
#[derive(Clone, Copy)]
pub struct Nesting {
    pub depth: usize,
    pub outermost: usize,
}

// Where a row is found again in its file: the place of its label, and how it is nested; `None` where the
// row was come to without the labels around it. A row without a label has its own first byte for both
// places, at depth 0.
#[derive(Clone, Copy)]
pub struct Address {
    pub label: usize,
    pub nesting: Option<Nesting>,
}

// What is shown of a row: a part of the lent file, and the row's address, which no window moves. Each
// place is counted from the file's first byte.
#[derive(Clone, Copy)]
pub struct Shown {
    pub part: Part,
    pub address: Address,
}

// A row that has no label, of `count` bytes from `place` on: depth 0, and its own place for both others.
pub fn unlabelled(place: usize, count: usize) -> Shown
    ensures { result ≡ unlabelled_row place count }
{
    Shown {
        part: Part { place, count },
        address: Address {
            label: place,
            nesting: Some(Nesting {
                depth: 0,
                outermost: place,
            }),
        },
    }
}

// A window of a row: its first byte, counted in the row, and how many bytes it has.
#[derive(Clone, Copy)]
pub struct Window {
    pub first: usize,
    pub count: usize,
}

impl Window {
    // Whether the window fits a row of `size` bytes.
    pub fn fits(self, size: usize) -> bool
        ensures { result ≡ fits size self.first self.count }
    {
        self.first <= size && self.count <= size - self.first
    }
}

// The bytes of a part, lent again and not copied. Of a part that no call showed for this file,
// what of it lies in the file.
pub fn bytes_of(file: &[u8], part: Part) -> &[u8]
    ensures { result.now ≡ bytes_at file.now part.place part.count }
{
    let first = part.place.min(file.len());
    let count = part.count.min(file.len() - first);
    &file[first..first + count]
}
