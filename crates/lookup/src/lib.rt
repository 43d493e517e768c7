// Choosing colours: the nearest candidate, the nearest two, the ordered bracket and what is picked of it, over flat lists of
// candidates. `pick` has the name that src/dither.rs gives it; the lookups over records, which have its other names, are in crate
// `records`. Both kinds of list are `Entries`, of which `seconds` makes the second and `brackets` the bracket.
#![tactic(auto)]

pub mod brackets;
mod checks;
mod flat;
pub mod seconds;

ghost use Rattle.std.specs.Prelude.{◌≡◌, ℕ, ◌<◌};
ghost use Rattle.color.specs.Color.{same_reduced};
ghost use Rattle.shortlist.specs.Candidates.{Candidates};
ghost use Rattle.lookup.specs.Lists.{count_fits};
ghost use Rattle.lookup.specs.Bracket.{solid_at, choice_at};
ghost use Rattle.lookup.specs.Answers.{FlatNearest, FlatTwo, FlatBracket, PickedAt};

use color::{NormalizedColor, Oklab, ReducedColor, eq_rgb};
use conversion::to_oklab;
use flat::Flat;
use patterns::ordered_threshold;
use replies::Refusal;

// A list of candidates that are read by their positions: the flat lists here and in crate `remembered`, and the lists of
// records in crate `records`. What is made of the entries stands once, in `seconds` and `brackets`.
pub trait Entries {
    // the list, as the definitions ask it
    ghost listed: { Self → Candidates };

    // Entry k's reduced colour.
    fn reduced_at(&self, k: usize) -> ReducedColor
        requires { k < (listed self.now).count }
        ensures { result ≡ (listed self.now).reduced k };

    // Entry k's normalised colour.
    fn normal_at(&self, k: usize) -> NormalizedColor
        requires { k < (listed self.now).count }
        ensures { result ≡ (listed self.now).normalized k };

    // Entry k's colour in Oklab.
    fn oklab_at(&self, k: usize) -> Oklab
        requires { k < (listed self.now).count }
        ensures { result ≡ (listed self.now).oklab k };
}

// From 1 to 65,536 entries: what a lookup takes.
#[tactic(auto, unfolding(crate::specs::Lists::count_fits))]
pub fn count_fits(count: usize) -> bool
    ensures { result ≡ count_fits count }
{
    (0 < count) & !(65536 < count)
}

// ---- what the lookups answer

// The nearest candidate and the second, by position.
#[derive(Clone, Copy)]
pub struct Two {
    pub first: usize,
    pub second: Option<usize>,
}

// A bracket by positions.
#[derive(Clone, Copy)]
pub struct BracketAt {
    pub dark: usize,
    pub light: usize,
    pub ratio: f32,
}

impl BracketAt {
    // One entry alone.
    pub(crate) fn solid(a: usize) -> Self
        ensures { result ≡ solid_at a }
    {
        BracketAt {
            dark: a,
            light: a,
            ratio: 0.0,
        }
    }
}

// The two colours an ordered dither alternates between for one source colour, the share of `light` in the mix, and which
// entries of the list the two are.
#[derive(Clone, Copy)]
pub struct Bracket {
    pub dark: ReducedColor,
    pub light: ReducedColor,
    pub ratio: f32,
    pub dark_position: usize,
    pub light_position: usize,
}

// An entry that is taken: its reduced colour, and its position.
#[derive(Clone, Copy)]
pub struct Choice {
    pub color: ReducedColor,
    pub position: usize,
}

// ---- pick

// Whether two colours are the same, their alphas too. Kept beside the derived `==`, which asks for one byte after the other with
// a branch: a pixel of an ordered picture took 1.2 times as long, and a `pick` 1.3 times.
fn same_reduced(a: ReducedColor, b: ReducedColor) -> bool
    ensures { result ≡ same_reduced a b }
{
    eq_rgb(a, b) & (a.0.a == b.0.a)
}

// Light, if the two colours differ and its ratio exceeds the threshold; else dark.
pub fn pick_at(bracket: Bracket, threshold: f32) -> Choice
    ensures { result ≡ choice_at bracket threshold }
{
    let dark = bracket.dark;
    let light = bracket.light;
    if !same_reduced(dark, light) & (bracket.ratio > threshold) {
        return Choice {
            color: light,
            position: bracket.light_position,
        };
    }
    Choice {
        color: dark,
        position: bracket.dark_position,
    }
}

// The colour for column x and row y, and its position; 1 for a kind above 10, 15 for a retired one, 9 for one that has no
// matrix, also where the colours are equal.
// Kept: the public call takes a kind by its number, of which 1, 15 and 9 are answered (document 01).
pub fn pick(bracket: Bracket, kind: u32, x: u32, y: u32) -> Result<Choice, Refusal>
    ensures { PickedAt bracket kind x y result }
{
    Ok(pick_at(bracket, ordered_threshold(kind, x, y)?))
}

// ---- the lookups over flat lists: reduced and normalised bytes four an entry, Oklab floats three an entry. 3 where the
// lengths do not fit together, 4 where there is no entry or more than 65,536, 6 where a component is not from -2 to 2. Kept as
// three slices, in which the C interface lends them; inside they are one `Flat`.

// The position of the nearest entry.
pub fn flat_nearest(
    reduced: &[u8],
    normalized: &[u8],
    oklab: &[f32],
    color: NormalizedColor,
) -> Result<usize, Refusal>
    ensures { FlatNearest reduced.now normalized.now oklab.now color result }
{
    let list = Flat::new(reduced, normalized, oklab)?;
    Ok(list.nearest(to_oklab(color)))
}

// The positions of the nearest entry and of the second.
pub fn flat_nearest_two(
    reduced: &[u8],
    normalized: &[u8],
    oklab: &[f32],
    color: NormalizedColor,
    width: u64,
) -> Result<Two, Refusal>
    ensures { FlatTwo reduced.now normalized.now oklab.now color width result }
{
    let list = Flat::new(reduced, normalized, oklab)?;
    Ok(list.two(width, to_oklab(color), color))
}

// The two colours that an ordered dither alternates between, and the share of the lighter.
pub fn flat_ordered_bracket(
    reduced: &[u8],
    normalized: &[u8],
    oklab: &[f32],
    color: NormalizedColor,
    width: u64,
) -> Result<Bracket, Refusal>
    ensures { FlatBracket reduced.now normalized.now oklab.now color width result }
{
    let list = Flat::new(reduced, normalized, oklab)?;
    Ok(list.bracket(width, to_oklab(color), color))
}
