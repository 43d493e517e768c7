// Shortlists remembered by the entry that they belong to: an entry's row is its position modulo the number of rows, and a newer
// entry takes an older one's place.
ghost use Rattle.std.specs.Prelude.{◌≡◌, ℕ, ◌+◌, ◌-◌, ◌*◌, ◌%◌, ◌<◌, ◌≤◌, ◌↔◌, IsTrue, Some, min, length, get_or, take};
ghost use Rattle.color.specs.Oklab.{oklab_at};
ghost use Rattle.mixing.specs.Widths.{clamp_width};
ghost use Rattle.remembered.specs.Shorts.{shortlist_at, RowsOf};

use super::{Memory, Oklabs, ROWS};
use mixing::clamp_width;
use shortlist::Shortlist;

// An entry's shortlist, of positions that have 16 bits; no entry's where nothing stands there yet. A shortlist has as many
// entries as the width and the list allow, so no row has a count.
#[derive(Clone, Copy)]
pub struct Row {
    entry: Option<u16>,
    positions: [u16; 16],
}

impl Row {
    pub const NONE: Row = Row {
        entry: None,
        positions: [0; 16],
    };

    // Whether it is entry a's.
    fn is_of(&self, a: usize) -> bool
        ensures { IsTrue result ↔ (self.now.entry ≡ Some a) }
    {
        self.entry.map(usize::from) == Some(a)
    }

    // Entry a's; what is above 16 bits is lost.
    fn of(a: usize, short: &Shortlist) -> Row
        requires { a < 65536 }
        ensures entry { result.entry ≡ Some a }
        ensures positions { (i : ℕ) → i < 16 → get_or result.positions i 0 ≡ get_or short.now.positions i 0 % 65536 }
    {
        let mut positions = [0; 16];
        for i in 0..16 {
            positions[i] = (short.positions[i] % 65536) as u16;
        }
        Row {
            entry: Some(a as u16),
            positions,
        }
    }

    // Lists the first m positions; how far they are is not remembered.
    fn recall(&self, m: usize, short: &mut Shortlist)
        requires { m ≤ 16 }
        ensures { take short.new.count short.new.positions ≡ take m self.now.positions }
    {
        for i in 0..m {
            short.positions[i] = usize::from(self.positions[i]);
        }
        short.count = m;
    }
}

// How many entries a shortlist has.
fn length_of(n: usize, width: u64) -> usize
    requires { 0 < n }
    ensures { (result ≡ min (clamp_width width) (n - 1)) × (result ≤ 16) }
{
    (clamp_width(width) as usize).min(n - 1)
}

impl Memory {
    // Lists entry a's shortlist, recalled or worked out and then remembered, if the list's positions have 16 bits. No
    // public call: the caller sees to the entry and the memory.
    pub(crate) fn shortlist(
        &mut self,
        oklabs: &Oklabs<'_>,
        a: usize,
        width: u64,
        short: &mut Shortlist,
    )
        requires { (a < oklabs.now.count) × RowsOf (shortlist_at (oklab_at oklabs.now.oklab.now) oklabs.now.count width) self.old }
        ensures listed { take short.new.count short.new.positions ≡ shortlist_at (oklab_at oklabs.now.oklab.now) oklabs.now.count width a }
        ensures rows { RowsOf (shortlist_at (oklab_at oklabs.now.oklab.now) oklabs.now.count width) self.new }
        ensures known { self.new.known ≡ self.old.known }
    {
        let row = &self.rows[a % ROWS];
        if row.is_of(a) {
            row.recall(length_of(oklabs.count, width), short);
            return;
        }
        short.list(oklabs.oklab, oklabs.count, a, width);
        if oklabs.count <= 65536 {
            self.rows[a % ROWS] = Row::of(a, short);
        }
    }
}
