// The conversion of a colour to Oklab: linear values of the bytes, three sums of them, their cube roots, and three sums of
// the roots in millionths. All is exact but the last step, the millionths as f32 values.
#![tactic(auto)]

pub mod linear;
pub mod list;
mod root;

ghost use Rattle.std.specs.Prelude.{◌≡◌, ◌+◌, ◌*◌, ◌≤◌, pos, ◌-ℤ◌};
ghost use Rattle.floats.specs.Over.{millionths};
ghost use Rattle.conversion.specs.Root.{root_of};
ghost use Rattle.conversion.specs.Nearest.{nearest, RaisedQuotient};
ghost use Rattle.conversion.specs.Oklab.{AtMost, lightness_of, a_of, b_of, millionths_from, millionths_of, oklab_of, to_oklab, ToOklabAnswered};

use color::{NormalizedColor, Oklab};
use linear::{LinearColor, LinearTable, LinearValues};
use root::Radicand;

// ---- the cube roots of l, m, s, from linear r, g, b

// What red, green and blue weigh in l, m or s, times 10^10: together no more than the whole.
#[derive(Clone, Copy)]
struct Weights {
    r: u64,
    g: u64,
    b: u64,
    ghost whole: { r + g + b ≤ 10000000000 },
}

const L: Weights = Weights {
    r: 4122214708,
    g: 5363325363,
    b: 514459929,
};

const M: Weights = Weights {
    r: 2119034982,
    g: 6806995451,
    b: 1073969566,
};

const S: Weights = Weights {
    r: 883024619,
    g: 2817188376,
    b: 6299787005,
};

// The cube root of a weighted sum.
fn weighted_root(weights: Weights, x: LinearColor) -> u64
    ensures { result ≡ root_of (weights.r * x.r + weights.g * x.g + weights.b * x.b) }
{
    let sum = Radicand {
        n: weights.r * x.r + weights.g * x.g + weights.b * x.b,
    };
    sum.cube_root()
}

// The roots l', m', s'.
#[derive(Clone, Copy)]
struct Roots {
    l: u64,
    m: u64,
    s: u64,
    ghost small: { AtMost 1000000 l m s },
}

// ---- L, a, b from the roots

// A sum and what is taken away from it, apart: so all is of unsigned numbers.
#[derive(Clone, Copy)]
struct Difference {
    plus: u64,
    minus: u64,
    ghost small: { (plus ≤ 30000000000000000) × (minus ≤ 30000000000000000) },
}

impl Difference {
    // The difference by 10^10 to the nearest, halves toward plus infinity, and 3 * 10^6 more: so the division is of unsigned
    // numbers.
    fn raised_quotient(self) -> u64
        ensures { RaisedQuotient self.plus self.minus result }
    {
        (self.plus + 30000005000000000 - self.minus) / 10000000000
    }

    // The quotient itself.
    fn divided(self) -> i32
        ensures { result ≡ nearest 10000000000 (pos self.plus -ℤ pos self.minus) }
    {
        self.raised_quotient() as i32 - 3000000
    }

    // The same as an f32, in millionths.
    fn component(self) -> f32
        ensures { result ≡ millionths (nearest 10000000000 (pos self.plus -ℤ pos self.minus)) }
    {
        self.divided() as f32 / 1000000.0
    }
}

// Kept: a function for each, since what is taken away is another root's part in each, and not the last in `a`.
impl Roots {
    fn lightness(self) -> f32
        ensures { result ≡ millionths (lightness_of self.l self.m self.s) }
    {
        let difference = Difference {
            plus: 2104542553 * self.l + 7936177850 * self.m,
            minus: 40720468 * self.s,
        };
        difference.component()
    }

    fn a(self) -> f32
        ensures { result ≡ millionths (a_of self.l self.m self.s) }
    {
        let difference = Difference {
            plus: 19779984951 * self.l + 4505937099 * self.s,
            minus: 24285922050 * self.m,
        };
        difference.component()
    }

    fn b(self) -> f32
        ensures { result ≡ millionths (b_of self.l self.m self.s) }
    {
        let difference = Difference {
            plus: 259040371 * self.l + 7827717662 * self.m,
            minus: 8086757660 * self.s,
        };
        difference.component()
    }
}

// ---- the conversion

impl From<Roots> for Oklab {
    ghost from_gives = { λ x o. o ≡ oklab_of (millionths_from x.l x.m x.s) };

    #[tactic(auto, unfolding(crate::specs::Oklab::oklab_of))]
    fn from(x: Roots) -> Oklab {
        Oklab {
            l: x.lightness(),
            a: x.a(),
            b: x.b(),
        }
    }
}

impl From<LinearColor> for Oklab {
    ghost from_gives = { λ x o. o ≡ oklab_of (millionths_of x.r x.g x.b) };

    fn from(x: LinearColor) -> Oklab {
        Oklab::from(Roots {
            l: weighted_root(L, x),
            m: weighted_root(M, x),
            s: weighted_root(S, x),
        })
    }
}

// From a colour, by the table of linear values that is lent.
pub fn to_oklab_with(linear: &LinearTable, c: NormalizedColor) -> Oklab
    ensures { result ≡ to_oklab c }
{
    Oklab::from(linear.color(c))
}

// The Oklab colour of a colour. Many colours go faster by `to_oklab_with`, over one table that is lent.
pub fn to_oklab(c: NormalizedColor) -> Oklab
    ensures { ToOklabAnswered c result }
{
    Oklab::from(LinearColor::from(c))
}
