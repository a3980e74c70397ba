// The forward walk through a labelled file from any place, with no memory of depth, and the row that
// it comes to. Renders document 01, "The index and the jump" (how the jump walks). Indexes and windows
// are left to the crates above.
#![tactic(auto)]

ghost use Rattle.answer.specs.Told.{told};
ghost use Rattle.std.specs.Prelude.{◌≡◌};
ghost use Rattle.answer.specs.Outcome.{and_then};
ghost use Rattle.walk.specs.Walk.{row_at_leaf, walk_from, step_at};

use answer::{Address, Part, Refusal, Refused, Shown};
use label::{Label, Versions};

// A leaf: the place of its label, and what the label says.
#[derive(Clone, Copy)]
pub struct Leaf {
    pub place: usize,
    pub label: Label,
}

// The label at the front of `s`, as a walk takes it: that of a leaf that ends inside the file, or `None`
// where the object is opened.
#[tactic(auto, using(label::proofs::Reading::read_has_20_bytes, crate::proofs::Walking::step_not_read, crate::proofs::Walking::step_opened, crate::proofs::Walking::step_too_long, crate::proofs::Walking::step_leaf))]
fn step_at(versions: Versions, s: &[u8]) -> Result<Option<Label>, Refused>
    ensures { told result ≡ step_at versions s.now }
{
    let l = label::read_label(versions, s)?;
    if label::is_opened(l.class) {
        return Ok(None);
    }
    if s.len() - label::LABEL < l.length {
        return Err(Refused(Refusal::Overrun, 0));
    }
    Ok(Some(l))
}

// Walks forward from place `from`, passing so many leaves, to the next leaf: 14, 6 for a place past the
// end, then as met. It reads no more of the file than it passes. (A `while`: the places to stop at are the
// labels', which a `for` would not count. A place and a number of leaves in a struct would be made for one call
// and be taken apart in it. In line, as each caller takes a part of the leaf: going on by a row takes 2 ns less.)
#[inline(always)]
pub fn walk_from(
    versions: Versions,
    file: &[u8],
    from: usize,
    leaves: usize,
) -> Result<Leaf, Refused>
    ensures { told result ≡ walk_from versions file.now from leaves }
{
    if answer::LARGEST_FILE < file.len() {
        return Err(Refused(Refusal::TooBig, 0));
    }
    if file.len() < from {
        return Err(Refused(Refusal::NoRow, 0));
    }
    let mut at = from;
    let mut left = leaves;
    while at < file.len() {
        match step_at(versions, &file[at..]) {
            // Told at a place of the file: `map_err` before the `?` is no plainer beside two arms more.
            Err(Refused(why, _)) => {
                return Err(Refused(why, at));
            }
            Ok(None) => {
                at += label::LABEL;
            }
            Ok(Some(found)) => {
                if left == 0 {
                    return Ok(Leaf {
                        place: at,
                        label: found,
                    });
                }
                left -= 1;
                at = at + label::LABEL + found.length;
            }
        }
    }
    Err(Refused(Refusal::NoRow, 0))
}

// The row of the leaf that a walk from place `from` comes to, after so many leaves. Its depth is absent.
#[tactic(auto, using(crate::proofs::Finding::walked_value_fits))]
pub fn row_from(
    versions: Versions,
    file: &[u8],
    from: usize,
    leaves: usize,
) -> Result<Shown, Refused>
    ensures { told result ≡ and_then (walk_from versions file.now from leaves) row_at_leaf }
{
    let leaf = walk_from(versions, file, from, leaves)?;
    Ok(Shown {
        part: Part {
            place: leaf.place + label::LABEL,
            count: leaf.label.length,
        },
        address: Address {
            label: leaf.place,
            nesting: None,
        },
    })
}
