// The opening of the Magellan per-orbit parameters: document 01, "Per-orbit opening", and source
// document 001, appendix D, parameters 1 to 3. What a D number is worth is left to `vax`, and finding
// the parameters in a file to the caller.
#![tactic(auto)]

ghost use Rattle.std.specs.Prelude.{◌≡◌, ◌+◌, ◌≤◌};
ghost use Rattle.answer.specs.Told.{told};
ghost use Rattle.orbit.specs.Opening.{orbit_number, time_at, per_orbit_opening};

use answer::{Refusal, Refused};

// The orbit's number, and when its mapping starts and stops, in TDB seconds from J2000.
#[derive(Clone, Copy)]
pub struct Opening {
    pub orbit: usize,
    pub start: f64,
    pub stop: f64,
}

// Bytes 0-3, unsigned little-endian. (By std: `little` would be one crate more below, for one call.)
fn orbit_number(bytes: &[u8; 20]) -> usize
    ensures { result ≡ orbit_number bytes.now }
{
    let [a, b, c, d, ..] = *bytes;
    u32::from_le_bytes([a, b, c, d]) as usize
}

// The D number in the eight bytes from `at` on; its refusal's place is `at`.
fn time_at(bytes: &[u8; 20], at: usize) -> Result<f64, Refused>
    requires { at + 8 ≤ 20 }
    ensures { told result ≡ time_at bytes.now at }
{
    // By `match`: of `map_err` with a sum in its closure the search found no proof.
    match vax::vax_d(&bytes[at..at + 8]) {
        Ok(time) => Ok(time),
        Err(Refused(why, place)) => Err(Refused(why, at + place)),
    }
}

// The opening that 20 bytes are.
fn opening_in(bytes: &[u8; 20]) -> Result<Opening, Refused>
    ensures { told result ≡ per_orbit_opening bytes.now }
{
    let start = time_at(bytes, 4)?;
    let stop = time_at(bytes, 12)?;
    let orbit = orbit_number(bytes);
    Ok(Opening { orbit, start, stop })
}

// The opening in the first 20 bytes lent, with the times as `vax::vax_d` reads them, to the nearest. It
// skips nothing: lend it appendix D's data block. In a Magellan file-12 record that block starts 8 bytes
// into the value, after the secondary header.
#[tactic(auto, using(crate::proofs::Front::opening))]
pub fn per_orbit_opening(bytes: &[u8]) -> Result<Opening, Refused>
    ensures { told result ≡ per_orbit_opening bytes.now }
{
    let twenty = bytes.first_chunk::<20>().ok_or(Refused(Refusal::Short, 0))?;
    opening_in(twenty)
}
