// The different colours of a tile so far, in the order in which they first occur.
ghost use Rattle.std.specs.Prelude.{◌≡◌, ◌<◌, ◌≤◌, List, [], length, take, map};
ghost use Rattle.color.specs.declared.ReducedColor.{ReducedColor};
ghost use Rattle.color.specs.Color.{same_reduced};
ghost use Rattle.lists.specs.Different.{add_new};
ghost use Rattle.judging.specs.Keys.{color_with_key};

use color::ReducedColor;
use std::marker::Model;

// A colour as a number, red lowest. Kept, a sum: the definition takes it apart by the same 256s, and `from_le_bytes` would need a
// law between.
fn key_of(color: ReducedColor) -> u32
    ensures { color_with_key result ≡ color }
{
    let c = color.0;
    c.r as u32 + 256 * (c.g as u32 + 256 * (c.b as u32 + 256 * (c.a as u32)))
}

// Kept as numbers, which are compared several at a time; four bytes of a colour are not, and took more by a third. There is one
// place more than the largest limit: the colour that overfills a tile has a place too.
// Kept, an array and a count: there is no heap.
#[derive(Drop)]
pub struct TileColors {
    keys: [u32; 257],
    count: usize,
}

// Clauses see the colours themselves.
impl Model for TileColors {
    ghost Value = { List ReducedColor };

    ghost view = { λ s. map color_with_key (take s.count s.keys) };

    ghost invariant = { λ s. s.count ≤ length s.keys };
}

impl TileColors {
    pub fn none() -> TileColors
        ensures { result ≡ [] }
    {
        TileColors {
            keys: [0; 257],
            count: 0,
        }
    }

    pub fn len(&self) -> usize
        ensures { result ≡ length self.now }
    {
        self.count
    }

    pub fn clear(&mut self)
        ensures { self.new ≡ [] }
    {
        self.count = 0;
    }

    // One colour more, unless it is there already. No public call: the caller sees to the room.
    pub fn add(&mut self, color: ReducedColor)
        requires { length self.old < 257 }
        ensures { self.new ≡ add_new same_reduced color self.old }
    {
        let key = key_of(color);
        if !self.keys[..self.count].contains(&key) {
            self.keys[self.count] = key;
            self.count += 1;
        }
    }
}
