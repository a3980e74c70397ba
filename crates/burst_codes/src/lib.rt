// What the numbers in two fields of Cassini short bursts stand for: in field 33, the beam mask, how many
// beams are enabled; in field 34 the compression mode. Renders document 02, item 1, and source document
// 000, sections 8.2.n.33 and 8.2.n.34. It reads no file: the caller brings the number.
#![tactic(auto)]

ghost use Rattle.std.specs.Prelude.{◌≡◌, option_map};
ghost use Rattle.burst_codes.specs.Beams.{beams_of};
ghost use Rattle.burst_codes.specs.Modes.{mode_number, numbered};

// The compression modes, in the order of section 8.2.n.34. Those named Baq are Block Adaptive
// Quantization, from 8 bits to so many; those named Top keep so many of the most significant bits.
#[derive(Clone, Copy, Debug, PartialEq, Eq)]
pub enum Compression {
    Baq8To2,
    Baq8To1,
    NoData,
    Top8To2,
    Top8To4,
    Straight8,
    Baq8To4LowRes,
    Baq8To4HighRes,
}

impl Compression {
    // The mode's number. (The modes stand in the order of their numbers, which the clause holds.)
    pub fn number(self) -> usize
        ensures { result ≡ mode_number self }
    {
        self as usize
    }
}

// The number of beams that a mask enables: how many of its five bits are set. A mask above 31 is none,
// and has no number of beams.
#[tactic(auto, using(crate::proofs::Mask::ones_are_the_sum))]
pub fn beams(mask: usize) -> Option<usize>
    ensures { result ≡ beams_of mask }
{
    if 31 < mask {
        return None;
    }
    Some(mask.count_ones() as usize)
}

// The compression mode with this number, where one has it. (docs/AUDIT.md names it;
// a `TryFrom` beside it would say the same twice.)
pub fn mode(number: usize) -> Option<Compression>
    ensures { option_map mode_number result ≡ numbered number }
{
    match number {
        0 => Some(Compression::Baq8To2),
        1 => Some(Compression::Baq8To1),
        2 => Some(Compression::NoData),
        3 => Some(Compression::Top8To2),
        4 => Some(Compression::Top8To4),
        5 => Some(Compression::Straight8),
        6 => Some(Compression::Baq8To4LowRes),
        7 => Some(Compression::Baq8To4HighRes),
        _ => None,
    }
}
