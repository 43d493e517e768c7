// Answers remembered by colour, so that a colour that comes again is not looked up again. The original keeps a `HashMap` of
// brackets, and document 01 has them worked out anew; here is a memory of fixed size: a table of 256 answers, one for each
// hash of a colour, 128 rows of shortlists, and the position that was found last, which is where the next search begins. What
// is answered is what would be worked out anew, so no promise of a call mentions the memory.
#![tactic(auto)]

mod candidates;
mod shorts;

ghost use Rattle.std.specs.Prelude.{◌≡◌, ℕ, ◌+◌, ◌*◌, ◌/◌, ◌%◌, ◌<◌, ◌≤◌, List, IfSome, IfOk};
ghost use Rattle.color.specs.declared.NormalizedColor.{NormalizedColor};
ghost use Rattle.lookup.specs.declared.Two.{Two};
ghost use Rattle.remembered.specs.Table.{key_of, two_of, TableOf, ByRgb};
ghost use Rattle.remembered.specs.Shorts.{RowsOf};

pub use candidates::{Candidates, Oklabs};
use color::NormalizedColor;
use lookup::Two;
use shorts::Row;
use std::num::TryFromIntError;

// How many answers the table has room for: a number of 8 bits picks one.
const KNOWN: usize = 256;

// How many rows of shortlists there are.
const ROWS: usize = 128;

// ---- pairs of positions

// A pair whose positions have 16 bits, as in every list that a call takes.
#[derive(Clone, Copy)]
struct Narrow {
    first: u16,
    second: Option<u16>,
}

impl From<Narrow> for Two {
    ghost from_gives = { λ pair two. two ≡ two_of pair };

    fn from(pair: Narrow) -> Two {
        Two {
            first: usize::from(pair.first),
            second: pair.second.map(usize::from),
        }
    }
}

impl TryFrom<Two> for Narrow {
    type Error = TryFromIntError;

    ghost try_from_gives = { λ two r. IfOk r (λ pair. two_of pair ≡ two) };

    fn try_from(two: Two) -> Result<Narrow, TryFromIntError> {
        Ok(Narrow {
            first: u16::try_from(two.first)?,
            second: two.second.map(u16::try_from).transpose()?,
        })
    }
}

// ---- the memory

// A colour's key, and its answer. No colour's key is 0.
// Kept: 0 for nothing. 256 options would take 1 KiB more of the stack, and each pixel a test more.
#[derive(Clone, Copy)]
struct Known {
    key: u32,
    pair: Narrow,
}

// What is remembered while a picture is drawn.
#[derive(Drop)]
pub struct Memory {
    known: [Known; KNOWN],
    rows: [Row; ROWS],
    last: usize,
}

// A colour's key.
// Kept: products and not `u32::from_le_bytes`: the definition is of the same products, by which a key is taken apart again.
fn key_of(c: NormalizedColor) -> u32
    ensures { (result ≡ key_of c) × (result ≤ 16777216) }
{
    u32::from(c.0.r) + 256 * u32::from(c.0.g) + 65536 * u32::from(c.0.b) + 1
}

// The place in the table for a key.
fn slot_of(key: u32) -> usize
    requires { key ≤ 16777216 }
    ensures { result < 256 }
{
    ((u64::from(key) * 2654435769 / 16777216) % 256) as usize
}

impl Memory {
    // Of nothing yet.
    pub fn new() -> Memory
        ensures { ((f : NormalizedColor → Two) → TableOf f result) × ((g : ℕ → List ℕ) → RowsOf g result) }
    {
        let nothing = Known {
            key: 0,
            pair: Narrow {
                first: 0,
                second: None,
            },
        };
        Memory {
            known: [nothing; KNOWN],
            rows: [Row::NONE; ROWS],
            last: 0,
        }
    }

    // What is remembered of a colour.
    fn recalled(&self, c: NormalizedColor) -> Option<Two>
        ensures { (f : NormalizedColor → Two) → TableOf f self.now → IfSome result (λ two. two ≡ f c) }
    {
        let key = key_of(c);
        let known = self.known[slot_of(key)];
        if known.key == key {
            return Some(Two::from(known.pair));
        }
        None
    }

    // Remembers a colour's answer, if its positions have 16 bits.
    fn keep(&mut self, c: NormalizedColor, two: Two)
        ensures table { (f : NormalizedColor → Two) → ByRgb f → two ≡ f c → TableOf f self.old → TableOf f self.new }
        ensures rows { self.new.rows ≡ self.old.rows }
    {
        let key = key_of(c);
        if let Ok(pair) = Narrow::try_from(two) {
            self.known[slot_of(key)] = Known { key, pair };
        }
    }

    // The position that was found last, or 0 where the list has not as many.
    fn last(&self, count: usize) -> usize
        requires { 0 < count }
        ensures { result < count }
    {
        if self.last < count { self.last } else { 0 }
    }

    // Notes the position that was found.
    fn note_last(&mut self, k: usize)
        ensures { self.new ≡ record self.old { last = k } }
    {
        self.last = k;
    }
}
