// Labelled files: objects with the 20-byte label, inside one another to depth 8 (the field's name
// for such an object is SFDU), and the nested search of a file, which goes through all of its labels,
// counts its rows and marks one of them. Renders document 01, "The label", from the nesting on. The
// calls by it, the forward walk, indexes and windows are left to the crates above.
#![tactic(auto)]

ghost use Rattle.answer.specs.Told.{told};
ghost use Rattle.std.specs.Prelude.{◌≡◌, ◌+◌, ◌^◌, ◌≤◌, ◌<◌, length, unwrap_or};
ghost use Rattle.answer.specs.Size.{largest_file};
ghost use Rattle.answer.specs.Outcome.{mapped};
ghost use Rattle.sfdu.specs.Check.{rows_of_file};
ghost use Rattle.sfdu.specs.Search.{MarkedBy, nothing_seen, see_all, MarksInside};
ghost use Rattle.sfdu.specs.Private.{Stands, Searched};

use answer::{Refusal, Refused};
use label::Versions;

// The depths at which labels may stand.
const DEPTHS: usize = 8;

// An object of a part of a file: a leaf or an opened object, with the place in the part where it ends.
#[derive(Clone, Copy)]
enum Object {
    Leaf(usize),
    Group(usize),
}

// The object whose label stands at place `at` of a part, and whose value the part holds; or why there is
// none.
fn object_at(versions: Versions, part: &[u8], at: usize) -> Result<Object, Refusal>
    requires { at < length part.now }
    ensures { Stands versions part.now at result }
{
    match label::read_label(versions, &part[at..]) {
        // The search tells the place; `map_err` would be no plainer.
        Err(Refused(why, _)) => Err(why),
        Ok(l) => {
            let body = at + label::LABEL;
            let room = part.len() - body;
            if room < l.length {
                return Err(Refusal::Overrun);
            }
            let end = body + l.length;
            if label::is_opened(l.class) {
                return Ok(Object::Group(end));
            }
            Ok(Object::Leaf(end))
        }
    }
}

// A row that a search has marked: its label's place, its size, its depth, its outermost object's place.
#[derive(Clone, Copy)]
pub struct Mark {
    pub label: usize,
    pub size: usize,
    pub depth: usize,
    pub outermost: usize,
}

// What a search for row `k` has seen: how many rows, and row `k` once it is one of them.
#[derive(Clone, Copy)]
pub struct Seen {
    pub rows: usize,
    pub mark: Option<Mark>,
}

// Searches a part of a file, from place `base` on, for row `k`, with `left` more depths allowed, to the
// part's end or to its first fault: siblings by the loop, what is inside an object by a call on its
// value. (A `while`: the places to stop at are the objects' ends, which a `for` would not count.) The
// objects of the part lie each in itself, or all in the outermost object `outer`.
fn search_part(
    versions: Versions,
    part: &[u8],
    base: usize,
    left: usize,
    outer: Option<usize>,
    k: usize,
    earlier: Seen,
) -> Result<Seen, Refused>
    requires { (base + length part.now ≤ largest_file) × (left ≤ 8) × (earlier.rows ≤ base) × MarkedBy base earlier.mark }
    ensures { Searched versions part.now base left (unwrap_or outer) k earlier (told result) }
{
    if part.len() == 0 {
        return Ok(earlier);
    }
    if left == 0 {
        return Err(Refused(Refusal::Deep, base));
    }
    let mut at: usize = 0;
    let mut seen = earlier;
    while at < part.len() {
        let place = base + at;
        let top = outer.unwrap_or(place);
        match object_at(versions, part, at) {
            // Told at a place of the file: `map_err` before the `?` is no plainer beside two arms more.
            Err(why) => {
                return Err(Refused(why, place));
            }
            Ok(Object::Leaf(next)) => {
                if seen.rows == k {
                    seen.mark = Some(Mark {
                        label: place,
                        size: next - at - label::LABEL,
                        depth: DEPTHS + 1 - left,
                        outermost: top,
                    });
                }
                seen.rows += 1;
                at = next;
            }
            Ok(Object::Group(end)) => {
                let body = at + label::LABEL;
                let inside = base + body;
                let value = &part[body..end];
                seen = search_part(versions, value, inside, left - 1, Some(top), k, seen)?;
                at = end;
            }
        }
    }
    Ok(seen)
}

// Searches a whole file for row `k`: 14, then its first fault.
#[tactic(auto, using(crate::proofs::Checking::too_big))]
pub fn search_file(versions: Versions, file: &[u8], k: usize) -> Result<Seen, Refused>
    ensures sees { told result ≡ mapped (see_all k nothing_seen) (rows_of_file versions file.now) }
    ensures inside { MarksInside (told result) }
{
    if answer::LARGEST_FILE < file.len() {
        return Err(Refused(Refusal::TooBig, 0));
    }
    let nothing = Seen {
        rows: 0,
        mark: None,
    };
    search_part(versions, file, 0, DEPTHS, None, k, nothing)
}
