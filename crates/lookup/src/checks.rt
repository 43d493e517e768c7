// What the flat calls refuse.
ghost use Rattle.std.specs.Prelude.{◌≡◌, false, ◌≤◌, ltb, length};
ghost use Rattle.replies.specs.Refusals.{number_of};
ghost use Rattle.lookup.specs.Lists.{lengths_fit, Looked, first_outside, list_number};

use super::count_fits;
use color::in_range;
use replies::Refusal;

// Four bytes an entry in both lists of bytes, three floats an entry.
#[tactic(auto, unfolding(crate::specs::Lists::lengths_fit))]
fn lengths_fit(reduced: usize, normalized: usize, oklab: usize) -> bool
    ensures { result ≡ lengths_fit reduced normalized oklab }
{
    (reduced % 4 == 0) & ((normalized == reduced) & (oklab == 3 * (reduced / 4)))
}

// Whether one of the components from `from` to before `to` is not from -2 to 2, where none before is. No branch, so that they
// are looked at side by side. No public call: the caller sees to the places.
fn some_outside(oklab: &[f32], from: usize, to: usize) -> bool
    requires { (from ≤ to) × (to ≤ length oklab.now) }
    ensures { Looked oklab.now from false → Looked oklab.now to result }
{
    let mut outside = false;
    for k in from..to {
        outside |= !in_range(oklab[k]);
    }
    outside
}

// Whether a component is not from -2 to 2. Eight at a time: a list is refused behind the first eight that hold such a one, and
// as many are looked at side by side.
fn any_outside(oklab: &[f32]) -> bool
    ensures { result ≡ ltb (first_outside oklab.now) (length oklab.now) }
{
    let parts = oklab.len() / 8;
    for part in 0..parts {
        if some_outside(oklab, 8 * part, 8 * part + 8) {
            return true;
        }
    }
    some_outside(oklab, 8 * parts, oklab.len())
}

// Whether a list is accepted: document 01's numbers 3, 4 and 6.
pub fn list_refusal(reduced: &[u8], normalized: &[u8], oklab: &[f32]) -> Result<(), Refusal>
    ensures { number_of result ≡ list_number reduced.now normalized.now oklab.now }
{
    if !lengths_fit(reduced.len(), normalized.len(), oklab.len()) {
        return Err(Refusal::Length);
    }
    if !count_fits(reduced.len() / 4) {
        return Err(Refusal::Entries);
    }
    if any_outside(oklab) {
        return Err(Refusal::Component);
    }
    Ok(())
}
