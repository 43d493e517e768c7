// The bracket: the nearest entry and the second, the darker first, and the share of the lighter.
ghost use Rattle.std.specs.Prelude.{◌≡◌, ℕ, ◌<◌};
ghost use Rattle.lookup.specs.Bracket.{bracket_with, bracket_two, colored};

use super::{Bracket, BracketAt, Entries, Two};
use color::NormalizedColor;
use mixing::lerp;

// The bracket of entries a and b. No public call: the caller sees to the positions.
fn bracket_between<E: Entries>(entries: &E, a: usize, b: usize, color: NormalizedColor) -> BracketAt
    requires { (a < (E.listed entries.now).count) × (b < (E.listed entries.now).count) }
    ensures { result ≡ bracket_with (E.listed entries.now).oklab a b ((E.listed entries.now).normalized a) ((E.listed entries.now).normalized b) color }
{
    let p = entries.oklab_at(a);
    let q = entries.oklab_at(b);
    let t = lerp(entries.normal_at(a), entries.normal_at(b), color, true);
    if q.l >= p.l {
        return BracketAt {
            dark: a,
            light: b,
            ratio: t,
        };
    }
    BracketAt {
        dark: b,
        light: a,
        ratio: 1.0 - t,
    }
}

// The bracket of two that were found. No public call: the caller sees to the positions.
pub fn bracket_of_two<E: Entries>(entries: &E, two: Two, color: NormalizedColor) -> BracketAt
    requires { (two.first < (E.listed entries.now).count) × ((b : ℕ) → two.second ≡ Some b → b < (E.listed entries.now).count) }
    ensures { result ≡ bracket_two (E.listed entries.now).oklab (E.listed entries.now).normalized color two.first two.second }
{
    match two.second {
        Some(b) => bracket_between(entries, two.first, b, color),
        None => BracketAt::solid(two.first),
    }
}

// The bracket with its reduced colours. No public call: the caller sees to the positions.
#[tactic(auto, unfolding(crate::specs::Bracket::colored))]
pub fn bracket_at<E: Entries>(entries: &E, at: BracketAt) -> Bracket
    requires { (at.dark < (E.listed entries.now).count) × (at.light < (E.listed entries.now).count) }
    ensures { result ≡ colored (E.listed entries.now).reduced at }
{
    Bracket {
        dark: entries.reduced_at(at.dark),
        light: entries.reduced_at(at.light),
        ratio: at.ratio,
        dark_position: at.dark,
        light_position: at.light,
    }
}
