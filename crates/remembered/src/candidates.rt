// A picture's candidates, and the lookups among them that remember what they found. A colour that is recalled costs no look at
// the lists.
ghost use Rattle.std.specs.Prelude.{◌≡◌, ◌*◌, ◌<◌, ◌≤◌, length};
ghost use Rattle.shortlist.specs.Candidates.{RangedList};

use super::Memory;
use color::{NormalizedColor, Oklab, ReducedColor, normalize_color, oklab_at, rgba_at};
use conversion::linear::LinearTable;
use conversion::to_oklab_with;
use lookup::brackets::bracket_of_two;
use lookup::seconds::second_of;
use lookup::{BracketAt, Entries, Two};
use shortlist::Shortlist;
use shortlist::near::nearest_position;

// The candidates' Oklab colours, from -2 to 2, among which the nearest to a colour is found, and the table of linear values by
// which a colour comes to Oklab. Kept: a count beside the list, which may be longer; the promises are of its first `count`
// entries.
#[derive(Clone, Copy)]
pub struct Oklabs<'a> {
    pub linear: &'a LinearTable,
    pub oklab: &'a [f32],
    pub count: usize,
    pub ghost ranged: { RangedList oklab.now count },
}

// The candidates with their reduced bytes, four each, which the scale table normalises as they are read.
#[derive(Clone, Copy)]
pub struct Candidates<'a> {
    pub oklabs: Oklabs<'a>,
    pub colors: &'a [u8],
    pub scale: &'a [u8; 256],
    pub ghost room: { 4 * oklabs.count ≤ length colors.now },
}

impl<'a> Oklabs<'a> {
    ghost use Rattle.conversion.specs.Oklab.{to_oklab};
    ghost use Rattle.shortlist.specs.Nearest.{nearest_in};
    ghost use Rattle.remembered.specs.Table.{nearest_alone, TableOf};
    ghost use Rattle.remembered.specs.Lent.{labs};

    // The nearest entry, worked out. By value, since a call that is lent it would have all that it is a part of written to memory
    // and read from there at each pixel.
    fn nearest_anew(self, color: NormalizedColor, seed: usize) -> usize
        requires { seed < self.count }
        ensures { result ≡ nearest_in (labs self.entry) self.entry.count (to_oklab color) }
    {
        let o = to_oklab_with(self.linear, color);
        nearest_position(self.oklab, self.count, o.l, o.a, o.b, seed)
    }

    // The position of the nearest entry. No public call: the caller sees to an entry and the memory.
    // Kept: that there is an entry and whose answers are remembered stand in the contracts. A picture that is skipped whole has
    // no candidates, and a ghost field speaks of the fields alone, not of the lookup that a memory is lent to.
    pub fn nearest_position(&self, color: NormalizedColor, memory: &mut Memory) -> usize
        requires { (0 < self.now.count) × TableOf (nearest_alone (labs self.now) self.now.count) memory.old }
        ensures { (result ≡ nearest_in (labs self.now) self.now.count (to_oklab color))
            × TableOf (nearest_alone (labs self.now) self.now.count) memory.new }
    {
        if let Some(two) = memory.recalled(color) {
            return two.first;
        }
        let k = self.nearest_anew(color, memory.last(self.count));
        memory.keep(
            color,
            Two {
                first: k,
                second: None,
            },
        );
        memory.note_last(k);
        k
    }
}

impl<'a> Entries for Candidates<'a> {
    ghost use Rattle.remembered.specs.Lent.{entries};

    ghost listed = { entries };

    fn reduced_at(&self, k: usize) -> ReducedColor {
        ReducedColor(rgba_at(self.colors, k))
    }

    fn normal_at(&self, k: usize) -> NormalizedColor {
        normalize_color(self.scale, self.reduced_at(k))
    }

    fn oklab_at(&self, k: usize) -> Oklab {
        oklab_at(self.oklabs.oklab, k)
    }
}

impl<'a> Candidates<'a> {
    ghost use Rattle.conversion.specs.Oklab.{to_oklab};
    ghost use Rattle.lookup.specs.Second.{nearest_two_of};
    ghost use Rattle.lookup.specs.Bracket.{bracket_at_of};
    ghost use Rattle.remembered.specs.Shorts.{TableAndRows};
    ghost use Rattle.remembered.specs.Lent.{entries};

    // The nearest entry and the second, worked out, but for the shortlist where that is remembered.
    // Kept: whose answers are remembered stands here and below in the contracts, as above; alike `two` over flat lists (crate
    // `lookup`), for the reason that stands there.
    fn pair_anew(&self, width: u64, color: NormalizedColor, seed: usize, memory: &mut Memory) -> Two
        requires { (seed < self.now.oklabs.count) × TableAndRows (entries self.now) width memory.old }
        ensures { (result ≡ nearest_two_of (entries self.now) width (to_oklab color) color)
            × TableAndRows (entries self.now) width memory.new }
    {
        let a = self.oklabs.nearest_anew(color, seed);
        let mut short = Shortlist::new();
        memory.shortlist(&self.oklabs, a, width, &mut short);
        Two {
            first: a,
            second: second_of(self, a, short.listed(), color),
        }
    }

    // The positions of the nearest entry and the second.
    fn pair_positions(&self, width: u64, color: NormalizedColor, memory: &mut Memory) -> Two
        requires { (0 < self.now.oklabs.count) × TableAndRows (entries self.now) width memory.old }
        ensures { (result ≡ nearest_two_of (entries self.now) width (to_oklab color) color)
            × TableAndRows (entries self.now) width memory.new }
    {
        if let Some(two) = memory.recalled(color) {
            return two;
        }
        let seed = memory.last(self.oklabs.count);
        let pair = self.pair_anew(width, color, seed, memory);
        memory.keep(color, pair);
        memory.note_last(pair.first);
        pair
    }

    // The positions of the bracket for a colour, and its ratio. No public call: the caller sees to an entry and the memory.
    pub fn bracket_positions(
        &self,
        width: u64,
        color: NormalizedColor,
        memory: &mut Memory,
    ) -> BracketAt
        requires { (0 < self.now.oklabs.count) × TableAndRows (entries self.now) width memory.old }
        ensures { (result ≡ bracket_at_of (entries self.now) width (to_oklab color) color)
            × TableAndRows (entries self.now) width memory.new }
    {
        bracket_of_two(self, self.pair_positions(width, color, memory), color)
    }
}
