// A line of dots in whole bytes, drawn from the samples of a window. Renders document 02, item 7: "each in
// whole bytes, eight dots a byte, leftmost highest, unused bits zero". Which dots are set is known from
// `dots`; it knows no file: a line is drawn from the bytes that it is lent.
//
// Eight samples are compared at once, four in each of two words, with the least samples that set no dot, and
// no tone is looked up for a dot: t < 4 * M + 2 for the largest t with t * t <= 255 * s says that 255 * s is
// below the square of 4 * M + 2.
#![tactic(auto)]

ghost use Rattle.answer.specs.Told.{told};
ghost use Rattle.std.specs.Prelude.{◌≡◌, ◌++◌, ℕ, ◌+◌, ◌/◌, ◌≤◌, ◌<◌, length, drop, slice_index_or};
ghost use Rattle.std.specs.Int.Bits.{bit_and};
ghost use Rattle.answer.specs.Filled.{Writes};
ghost use Rattle.dots.specs.Matrix.{level};
ghost use Rattle.dot_lines.specs.Line.{line_bytes, line, line_into};
ghost use Rattle.dot_lines.specs.Private.{cut, lanes as lanes_of, cuts_from, gathered, dots_of};

use answer::{Refusal, Refused};
use std::array;

// 255 and 1 in each of four numbers of 16 bits.
const BYTES: usize = 0x00ff_00ff_00ff_00ff;

const ONES: usize = 0x0001_0001_0001_0001;

// The largest sample, which sets no dot.
const WHITE: u8 = 255;

// How many bytes a line of `c` dots has.
pub fn line_bytes(c: usize) -> usize
    ensures { result ≡ line_bytes c }
{
    c.div_ceil(8)
}

// Four numbers of 16 bits in a word, the first of them lowest. (No method of the library makes one of four.)
fn lanes(p: usize, q: usize, r: usize, s: usize) -> usize
    requires { (p < 65536) × (q < 65536) × (r < 65536) × (s < 65536) }
    ensures { result ≡ lanes_of p q r s }
{
    ((s * 65536 + r) * 65536 + q) * 65536 + p
}

// The number to compare with at column `x` of row `y`: 255 and the least sample whose tone is not below the
// threshold, by the squares, so that no tone is looked up for a dot.
fn cut_at(x: usize, y: usize) -> usize
    ensures { (result ≡ 255 + cut (level y x)) × (result < 65536) }
{
    let threshold = 4 * dots::matrix_at(x, y) + 2;
    // `div_ceil` is slower: 24 ns in place of 18 for a line of 13 dots.
    255 + (threshold * threshold + 254) / 255
}

// Those of four columns: of each second one, from `x` on.
#[tactic(auto, unfolding(crate::specs::Private::cuts_from))]
fn cuts_from(x: usize, y: usize) -> usize
    requires { x < 2 }
    ensures { result ≡ cuts_from x y }
{
    lanes(
        cut_at(x, y),
        cut_at(x + 2, y),
        cut_at(x + 4, y),
        cut_at(x + 6, y),
    )
}

// The bits of a word that the mask has, eight places lower.
fn masked(word: usize, mask: usize) -> usize
    ensures { (result ≡ bit_and (word / 256) mask) × (result ≤ mask) }
{
    (word >> 8) & mask
}

// Four times two bits, the first leftmost, as a byte. (Bits of a word, which the library has no type for.)
fn gather(word: usize) -> u8
    requires { word < 1125899906842624 }
    ensures { result ≡ gathered word }
{
    let folded = 16 * word + word / 4294967296;
    ((4 * folded + folded / 65536) % 256) as u8
}

// What the samples of a row are compared with: the numbers of the even columns, and those of the odd ones. The
// row is read by contracts alone.
#[derive(Clone, Copy)]
struct Cuts {
    row: usize,
    even: usize,
    odd: usize,
    ghost even_of_row: { even ≡ cuts_from 0 row },
    ghost odd_of_row: { odd ≡ cuts_from 1 row },
}

impl Cuts {
    fn of_row(row: usize) -> Cuts
        ensures { result.row ≡ row }
    {
        Cuts {
            row,
            even: cuts_from(0, row),
            odd: cuts_from(1, row),
        }
    }

    // The dots of eight samples: four samples are taken from four cuts at once, and what is left of a cut has
    // its bit 8 set where the sample sets a dot.
    fn dots(self, samples: &[u8; 8]) -> u8
        ensures { result ≡ dots_of self.row samples.now }
    {
        let word = usize::from_le_bytes(*samples);
        let of_odd = masked(word, BYTES);
        let of_even = word & BYTES;
        let even_dots = masked(self.even - of_even, ONES);
        let odd_dots = masked(self.odd - of_odd, ONES);
        gather(2 * even_dots + odd_dots)
    }
}

// The samples of a byte whose dots are not all there: behind the last one samples that set no dot.
fn filled_up(samples: &[u8]) -> [u8; 8]
    ensures { (i : ℕ) → i < 8 → slice_index_or result i 0 ≡ slice_index_or samples.now i 255 }
{
    array::from_fn(|i| samples.get(i).copied().unwrap_or(WHITE))
}

// Writes line `y` to the front of `out`.
fn put_line(samples: &[u8], y: usize, out: &mut [u8])
    requires { line_bytes (length samples.now) ≤ length out.old }
    ensures { out.new ≡ line y samples.now ++ drop (length (line y samples.now)) out.old }
{
    let cuts = Cuts::of_row(y);
    let (eights, rest) = samples.as_chunks::<8>();
    // By place: of what is written behind a `zip` with `iter_mut` std promises nothing, and the rest of `out` stays.
    for (j, eight) in eights.iter().enumerate() {
        out[j] = cuts.dots(eight);
    }
    if !rest.is_empty() {
        out[eights.len()] = cuts.dots(&filled_up(rest));
    }
}

// Line `y` of the dots of these samples, written to the front of `out`.
#[tactic(auto, using(crate::proofs::Bytes::line_long), unfolding(crate::specs::Line::line_into))]
pub fn draw_line(samples: &[u8], y: usize, out: &mut [u8]) -> Result<usize, Refused>
    ensures { Writes (line_into (length out.old) y samples.now) out.old (told result) out.new }
{
    let bytes = line_bytes(samples.len());
    if out.len() < bytes {
        return Err(Refused(Refusal::Small, 0));
    }
    put_line(samples, y, out);
    Ok(bytes)
}
