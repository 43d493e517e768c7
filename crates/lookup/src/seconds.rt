// The second colour, of the shortlist's entries the one that mixes best with the nearest.
ghost use Rattle.std.specs.Prelude.{◌≡◌, ℕ, ◌<◌, length, get_or};
ghost use Rattle.mixing.specs.Lerp.{between};
ghost use Rattle.lookup.specs.Second.{second_beside, BestBeside, is_below, improved, weighed};

use super::Entries;
use color::NormalizedColor;
use mixing::{lerp, mix_residual};

// The best mix so far: how far it is from the colour, and the entry that it is of.
#[derive(Clone, Copy)]
struct Mix {
    error: f32,
    position: usize,
}

// From 0 to 1. Minus zero is, a NaN is not.
fn is_share(t: f32) -> bool
    ensures { result ≡ between t }
{
    (0.0 <= t) & (t <= 1.0)
}

// Whether an error is below the best's, if there is a best.
fn is_below(best: Option<Mix>, error: f32) -> bool
    ensures { result ≡ is_below best error }
{
    match best {
        Some(mix) => error < mix.error,
        None => true,
    }
}

// k with its error, where it mixes, and there is no best yet or its error is below the best's. One test, since which
// of its parts decides is anyone's guess.
fn improve(best: Option<Mix>, k: usize, mixes: bool, error: f32) -> Option<Mix>
    ensures { result ≡ improved best k mixes error }
{
    if mixes & is_below(best, error) {
        return Some(Mix {
            error: error,
            position: k,
        });
    }
    best
}

// Entry k's turn beside an entry whose colour is c1: it counts where the unclamped `lerp` is from 0 to 1.
fn weigh<E: Entries>(
    entries: &E,
    best: Option<Mix>,
    k: usize,
    c1: NormalizedColor,
    color: NormalizedColor,
) -> Option<Mix>
    requires { k < (E.listed entries.now).count }
    ensures { result ≡ weighed best k c1 ((E.listed entries.now).normalized k) color }
{
    let c2 = entries.normal_at(k);
    let t = lerp(c1, c2, color, false);
    improve(best, k, is_share(t), mix_residual(c1, c2, t, color))
}

// The best of the entries at some positions beside entry a, if one of them mixes.
fn best_of<E: Entries>(
    entries: &E,
    a: usize,
    positions: &[usize],
    color: NormalizedColor,
) -> Option<Mix>
    requires { (a < (E.listed entries.now).count)
        × ((i : ℕ) → i < length positions.now → get_or positions.now i 0 < (E.listed entries.now).count) }
    ensures { BestBeside (E.listed entries.now).normalized a color positions.now result }
{
    let c1 = entries.normal_at(a);
    let mut best = None;
    for k in positions {
        best = weigh(entries, best, *k, c1, color);
    }
    best
}

// Among the entries at a shortlist's positions that mix with entry a to the colour, the one with the smallest error, the
// first of equals; if none does, the shortlist's first; and nothing of an empty one. No public call: the caller sees to the
// positions.
pub fn second_of<E: Entries>(
    entries: &E,
    a: usize,
    positions: &[usize],
    color: NormalizedColor,
) -> Option<usize>
    requires { (a < (E.listed entries.now).count)
        × ((i : ℕ) → i < length positions.now → get_or positions.now i 0 < (E.listed entries.now).count) }
    ensures { result ≡ second_beside (E.listed entries.now).normalized a color positions.now }
{
    if let Some(best) = best_of(entries, a, positions, color) {
        return Some(best.position);
    }
    positions.first().copied()
}
