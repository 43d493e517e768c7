// What a call answers: the refusals by their numbers, the replies in the order that the call states, the first that applies,
// and that a promise leaves one result.
#![tactic(auto)]

ghost use Rattle.std.specs.Prelude.{◌≡◌};
ghost use Rattle.replies.specs.Refusals.{number};

use std::fmt;

// Why a call refuses, with the numbers of document 01's table and of the requests behind it. The names are those of the C
// header, but for 8, which is of one call alone and says more than its number (crate `dither`).
#[derive(Clone, Copy, Debug, PartialEq, Eq, Hash)]
pub enum Refusal {
    KindOrShift = 1,
    Size = 2,
    Length = 3,
    Entries = 4,
    Tiles = 5,
    Component = 6,
    TooManyCandidates = 7,
    NoMatrix = 9,
    PamHeader = 10,
    PamPixels = 11,
    RetiredKind = 15,
}

impl Refusal {
    // The number in the table.
    pub fn number(self) -> u8
        ensures { result ≡ number self }
    {
        self as u8
    }
}

impl From<Refusal> for u32 {
    ghost from_gives = { λ refusal n. n ≡ number refusal };

    fn from(refusal: Refusal) -> u32 {
        u32::from(refusal.number())
    }
}

// The number, which the header, the binding and the documents explain.
impl fmt::Display for Refusal {
    fn fmt<W: fmt::Write>(&self, f: &mut fmt::Formatter<W>) -> fmt::Result {
        let number = self.number();
        write!(f, "refused with {number}")
    }
}
