// Dots on paper: the tone of a sample, the ordered matrix, and whether a dot is set. Renders document 02,
// item 7, but for lines and strips, which are left to `dot_lines` and `plotter`. It knows no file and no
// line.
#![tactic(auto)]

ghost use Rattle.std.specs.Prelude.{◌≡◌, ◌<◌};
ghost use Rattle.dots.specs.Tone.{tone as tone_of};
ghost use Rattle.dots.specs.Matrix.{level};
ghost use Rattle.dots.specs.Dot.{is_dot};

// The tone curve: for each sample i the largest t with t * t <= 255 * i.
const TONES: [u8; 256] = [
    0, 15, 22, 27, 31, 35, 39, 42, 45, 47, 50, 52, 55, 57, 59, 61, 63, 65, 67, 69, 71, 73, 74, 76,
    78, 79, 81, 82, 84, 85, 87, 88, 90, 91, 93, 94, 95, 97, 98, 99, 100, 102, 103, 104, 105, 107,
    108, 109, 110, 111, 112, 114, 115, 116, 117, 118, 119, 120, 121, 122, 123, 124, 125, 126, 127,
    128, 129, 130, 131, 132, 133, 134, 135, 136, 137, 138, 139, 140, 141, 141, 142, 143, 144, 145,
    146, 147, 148, 148, 149, 150, 151, 152, 153, 153, 154, 155, 156, 157, 158, 158, 159, 160, 161,
    162, 162, 163, 164, 165, 165, 166, 167, 168, 168, 169, 170, 171, 171, 172, 173, 174, 174, 175,
    176, 177, 177, 178, 179, 179, 180, 181, 182, 182, 183, 184, 184, 185, 186, 186, 187, 188, 188,
    189, 190, 190, 191, 192, 192, 193, 194, 194, 195, 196, 196, 197, 198, 198, 199, 200, 200, 201,
    201, 202, 203, 203, 204, 205, 205, 206, 206, 207, 208, 208, 209, 210, 210, 211, 211, 212, 213,
    213, 214, 214, 215, 216, 216, 217, 217, 218, 218, 219, 220, 220, 221, 221, 222, 222, 223, 224,
    224, 225, 225, 226, 226, 227, 228, 228, 229, 229, 230, 230, 231, 231, 232, 233, 233, 234, 234,
    235, 235, 236, 236, 237, 237, 238, 238, 239, 240, 240, 241, 241, 242, 242, 243, 243, 244, 244,
    245, 245, 246, 246, 247, 247, 248, 248, 249, 249, 250, 250, 251, 251, 252, 252, 253, 253, 254,
    255,
];

// The ordered matrix, row by row.
const MATRIX: [[u8; 8]; 8] = [
    [0, 32, 8, 40, 2, 34, 10, 42],
    [48, 16, 56, 24, 50, 18, 58, 26],
    [12, 44, 4, 36, 14, 46, 6, 38],
    [60, 28, 52, 20, 62, 30, 54, 22],
    [3, 35, 11, 43, 1, 33, 9, 41],
    [51, 19, 59, 27, 49, 17, 57, 25],
    [15, 47, 7, 39, 13, 45, 5, 37],
    [63, 31, 55, 23, 61, 29, 53, 21],
];

// The tone of a sample.
#[tactic(auto, using(crate::proofs::Curve::entry_is))]
pub fn tone(sample: u8) -> u8
    ensures { result ≡ tone_of sample }
{
    TONES[usize::from(sample)]
}

// The number of the matrix for row `y` and column `x`, two numbers as the request has them.
pub fn matrix_at(x: usize, y: usize) -> usize
    ensures { (result ≡ level y x) × (result < 64) }
{
    usize::from(MATRIX[y % 8][x % 8])
}

// Whether the dot is set at column `x` and row `y`, where the tone is `t`.
pub fn is_dot(t: u8, x: usize, y: usize) -> bool
    ensures { result ≡ is_dot t x y }
{
    usize::from(t) < 4 * matrix_at(x, y) + 2
}
