// Little-endian numbers: the number that bytes are, the lowest first, and the four bytes of a number
// (document 01, "Kept form"; document 02, items 1 and 9). What stands where is left to the crates
// above.
#![tactic(auto)]

ghost use Rattle.std.specs.Prelude.{◌≡◌, ◌<◌, [], ◌∷◌};
ghost use Rattle.little.specs.LittleEndian.{le, le_number, number_in};

// The number that two bytes are.
pub fn two(a: u8, b: u8) -> u32
    ensures { (result ≡ le_number (a ∷ b ∷ [])) × (result < 65536) }
{
    u32::from(u16::from_le_bytes([a, b]))
}

// The number that four bytes are.
pub fn four(a: u8, b: u8, c: u8, d: u8) -> u32
    ensures { result ≡ le_number (a ∷ b ∷ c ∷ d ∷ []) }
{
    u32::from_le_bytes([a, b, c, d])
}

// The number in the two bytes from place `at` on; none where not both are there. (There is one function for
// each size: `from_le_bytes` is a function of each type, and a trait over three types would be no plainer.
// Bytes and a place stay two parameters: the callers have many places in the same bytes.)
pub fn two_at(bytes: &[u8], at: usize) -> Option<u32>
    ensures { result ≡ number_in 2 bytes.now at }
{
    let [a, b] = *bytes.get(at..)?.first_chunk::<2>()?;
    Some(two(a, b))
}

// The number in the four bytes from place `at` on; none where not all four are there.
pub fn four_at(bytes: &[u8], at: usize) -> Option<u32>
    ensures { result ≡ number_in 4 bytes.now at }
{
    let [a, b, c, d] = *bytes.get(at..)?.first_chunk::<4>()?;
    Some(four(a, b, c, d))
}

// The number in the eight bytes from place `at` on; none where not all eight are there.
pub fn eight_at(bytes: &[u8], at: usize) -> Option<u64>
    ensures { result ≡ number_in 8 bytes.now at }
{
    let eight = bytes.get(at..)?.first_chunk()?;
    Some(u64::from_le_bytes(*eight))
}

// The four bytes of a number.
pub fn bytes_of(n: u32) -> [u8; 4]
    ensures { result ≡ le 4 n }
{
    n.to_le_bytes()
}
