// Lists of records that are accepted, and the lookups over them, which find positions.
ghost use Rattle.std.specs.Prelude.{◌≡◌, ℕ, ◌<◌, ◌↔◌, T, IsTrue, EachIndex, length, IfOk};
ghost use Rattle.replies.specs.Refusals.{number_of};
ghost use Rattle.color.specs.Oklab.{all_in_range};
ghost use Rattle.shortlist.specs.Nearest.{nearest_of};
ghost use Rattle.shortlist.specs.Shortlist.{shortlist_of, InArrays};
ghost use Rattle.lookup.specs.Second.{nearest_two_of};
ghost use Rattle.lookup.specs.Bracket.{bracket_of};
ghost use Rattle.records.specs.Lists.{candidates_of, ranged_to, records_number, far_of, record_at};
ghost use Rattle.records.specs.Answers.{taken_at, records_at};

use super::Taken;
use color::{CandidateColor, NormalizedColor, Oklab, ReducedColor, all_in_range, sqdist};
use lookup::brackets::{bracket_at, bracket_of_two};
use lookup::seconds::second_of;
use lookup::{Bracket, Entries, Two, count_fits};
use mixing::clamp_width;
use replies::Refusal;
use shortlist::Shortlist;

// Whether every component of every record is from -2 to 2.
fn all_ranged(list: &[CandidateColor]) -> bool
    ensures { result ≡ ranged_to list.now (length list.now) }
{
    list.iter().all(|record| all_in_range(record.oklab))
}

// A list that is accepted: from 1 to 65,536 records, whose components are from -2 to 2.
#[derive(Clone, Copy)]
pub struct Records<'a> {
    list: &'a [CandidateColor],
    ghost accepted: { records_number list.now ≡ 0 },
}

impl<'a> Entries for Records<'a> {
    ghost listed = { λ records. candidates_of records.list.now };

    fn reduced_at(&self, k: usize) -> ReducedColor {
        self.list[k].reduced
    }

    fn normal_at(&self, k: usize) -> NormalizedColor {
        self.list[k].normalized
    }

    fn oklab_at(&self, k: usize) -> Oklab {
        self.list[k].oklab
    }
}

impl<'a> Records<'a> {
    // The list, or why it is refused.
    #[tactic(auto, unfolding(crate::specs::Lists::number_by))]
    pub fn new(list: &'a [CandidateColor]) -> Result<Records<'a>, Refusal>
        ensures number { number_of result ≡ records_number list.now }
        ensures list { IfOk result (λ records. records.list.now ≡ list.now) }
    {
        if !count_fits(list.len()) {
            return Err(Refusal::Entries);
        }
        if !all_ranged(list) {
            return Err(Refusal::Component);
        }
        Ok(Records { list })
    }

    // Record k with its position. No public call: the caller sees to the position.
    pub fn taken(&self, k: usize) -> Taken
        requires { k < length self.now.list.now }
        ensures { result ≡ taken_at self.now.list.now k }
    {
        Taken {
            copy: self.list[k],
            position: k,
        }
    }

    // The records at the positions of two. No public call: the caller sees to the positions.
    pub fn both(&self, two: Two) -> (Taken, Option<Taken>)
        requires { (two.first < length self.now.list.now) × ((b : ℕ) → two.second ≡ Some b → b < length self.now.list.now) }
        ensures { result ≡ records_at self.now.list.now two.first two.second }
    {
        let first = self.taken(two.first);
        match two.second {
            Some(b) => (first, Some(self.taken(b))),
            None => (first, None),
        }
    }

    // The nearest record, the first of equals.
    pub fn nearest(&self, o: Oklab) -> usize
        ensures { result ≡ nearest_of (candidates_of self.now.list.now) o }
    {
        let mut nearest = 0;
        let mut least = sqdist(o, self.list[0].oklab);
        for (k, record) in self.list.iter().enumerate() {
            let d = sqdist(o, record.oklab);
            if d < least {
                nearest = k;
                least = d;
            }
        }
        nearest
    }

    // Lists the other records by distance from record a and then by position, at most `width`, brought to 1..16. It takes an
    // empty shortlist and gives none back: a struct that is answered is copied. No public call: the caller sees to the
    // position.
    fn list_others(&self, a: usize, width: u64, short: &mut Shortlist)
        requires { (a < length self.now.list.now) × (short.old.count ≡ 0) }
        ensures { InArrays (far_of self.now.list.now (record_at self.now.list.now a).oklab) short.new
            (shortlist_of (far_of self.now.list.now (record_at self.now.list.now a).oklab) a (length self.now.list.now) width) }
    {
        let w = clamp_width(width) as usize;
        let p = self.list[a].oklab;
        for (k, record) in self.list.iter().enumerate() {
            short.put(w, a, k, sqdist(p, record.oklab));
        }
    }

    // The nearest two.
    // Kept: alike over flat lists (crate `lookup`), for the reason that stands there.
    pub fn two(&self, width: u64, o: Oklab, color: NormalizedColor) -> Two
        ensures { result ≡ nearest_two_of (candidates_of self.now.list.now) width o color }
    {
        let a = self.nearest(o);
        let mut short = Shortlist::new();
        self.list_others(a, width, &mut short);
        Two {
            first: a,
            second: second_of(self, a, short.listed(), color),
        }
    }

    // The bracket.
    pub fn bracket(&self, width: u64, o: Oklab, color: NormalizedColor) -> Bracket
        ensures { result ≡ bracket_of (candidates_of self.now.list.now) width o color }
    {
        let at = bracket_of_two(self, self.two(width, o, color), color);
        bracket_at(self, at)
    }
}
