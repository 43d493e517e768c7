// Flat lists that are accepted, and the lookups over them. Such a list carries its own normalised bytes.
ghost use Rattle.std.specs.Prelude.{◌≡◌, ◌/◌, T, length, IfOk};
ghost use Rattle.replies.specs.Refusals.{number_of};
ghost use Rattle.color.specs.Oklab.{all_in_range};
ghost use Rattle.shortlist.specs.Candidates.{flat};
ghost use Rattle.shortlist.specs.Nearest.{nearest_of};
ghost use Rattle.lookup.specs.Second.{nearest_two_of};
ghost use Rattle.lookup.specs.Bracket.{bracket_of};
ghost use Rattle.lookup.specs.Lists.{list_number};

use super::brackets::{bracket_at, bracket_of_two};
use super::checks::list_refusal;
use super::seconds::second_of;
use super::{Bracket, Entries, Two};
use color::{NormalizedColor, Oklab, ReducedColor, oklab_at, rgba_at};
use replies::Refusal;
use shortlist::Shortlist;
use shortlist::near::nearest_position;

// A list that is accepted: reduced and normalised bytes four an entry, Oklab floats three an entry.
#[derive(Clone, Copy)]
pub struct Flat<'a> {
    reduced: &'a [u8],
    normalized: &'a [u8],
    oklab: &'a [f32],
    ghost accepted: { list_number reduced.now normalized.now oklab.now ≡ 0 },
}

impl<'a> Entries for Flat<'a> {
    ghost listed = { λ list. flat list.reduced.now list.normalized.now list.oklab.now };

    fn reduced_at(&self, k: usize) -> ReducedColor {
        ReducedColor(rgba_at(self.reduced, k))
    }

    fn normal_at(&self, k: usize) -> NormalizedColor {
        NormalizedColor(rgba_at(self.normalized, k))
    }

    fn oklab_at(&self, k: usize) -> Oklab {
        oklab_at(self.oklab, k)
    }
}

// Kept: the range of o in the contracts, and o beside the colour that it is of. A colour is converted once and before a lookup,
// so that the two largest frames do not stand in each other: a lookup takes 1 KiB of the stack at most.
impl<'a> Flat<'a> {
    // The list of these, or why it is refused.
    pub fn new(
        reduced: &'a [u8],
        normalized: &'a [u8],
        oklab: &'a [f32],
    ) -> Result<Flat<'a>, Refusal>
        ensures number { number_of result ≡ list_number reduced.now normalized.now oklab.now }
        ensures list { IfOk result (λ list. (list.reduced.now ≡ reduced.now) × (list.normalized.now ≡ normalized.now)
            × (list.oklab.now ≡ oklab.now)) }
    {
        list_refusal(reduced, normalized, oklab)?;
        Ok(Flat {
            reduced,
            normalized,
            oklab,
        })
    }

    // How many entries it has.
    fn count(&self) -> usize
        ensures { result ≡ length self.now.reduced.now / 4 }
    {
        self.reduced.len() / 4
    }

    // The nearest entry. No public call: the caller sees to the range.
    pub fn nearest(&self, o: Oklab) -> usize
        requires { T (all_in_range o) }
        ensures { result ≡ nearest_of (flat self.now.reduced.now self.now.normalized.now self.now.oklab.now) o }
    {
        nearest_position(self.oklab, self.count(), o.l, o.a, o.b, 0)
    }

    // The nearest two. No public call: the caller sees to the range.
    // Kept: alike in `Records` and in crate `remembered`. The shortlist comes otherwise in each: of slices, of records, out of a
    // memory that is lent; a trait over the three would need a method for it with a parameter more, and be no plainer.
    pub fn two(&self, width: u64, o: Oklab, color: NormalizedColor) -> Two
        requires { T (all_in_range o) }
        ensures { result ≡ nearest_two_of (flat self.now.reduced.now self.now.normalized.now self.now.oklab.now) width o color }
    {
        let a = self.nearest(o);
        let mut short = Shortlist::new();
        short.list(self.oklab, self.count(), a, width);
        Two {
            first: a,
            second: second_of(self, a, short.listed(), color),
        }
    }

    // The bracket. No public call: the caller sees to the range.
    pub fn bracket(&self, width: u64, o: Oklab, color: NormalizedColor) -> Bracket
        requires { T (all_in_range o) }
        ensures { result ≡ bracket_of (flat self.now.reduced.now self.now.normalized.now self.now.oklab.now) width o color }
    {
        let at = bracket_of_two(self, self.two(width, o, color), color);
        bracket_at(self, at)
    }
}
