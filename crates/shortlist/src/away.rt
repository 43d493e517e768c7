// How far the entries of a flat list of Oklab colours are from a colour: one, and whether eight are farther than a limit.
ghost use Rattle.std.specs.Prelude.{◌≡◌, ◌+◌, ◌*◌, ◌<◌, length};
ghost use Rattle.color.specs.Oklab.{oklab_at};
ghost use Rattle.shortlist.specs.Nearest.{distances, farther};

use color::{Oklab, oklab_at, sqdist};

// How far entry k is from a colour. No public call: the caller sees to the length.
pub fn distance_to(oklab: &[f32], k: usize, o: Oklab) -> f32
    requires { 3 * k + 2 < length oklab.now }
    ensures { result ≡ distances o (oklab_at oklab.now) k }
{
    sqdist(o, oklab_at(oklab, k))
}

// Whether the eight entries from k on are all farther than a limit from the colour l, a, b, which comes as three floats for
// the reason that `near::nearest_position` gives. No branch, so that the eight are worked out side by side. No public call:
// the caller sees to the length.
pub fn eight_farther(oklab: &[f32], k: usize, l: f32, a: f32, b: f32, limit: f32) -> bool
    requires { 3 * k + 23 < length oklab.now }
    ensures { result ≡ farther (distances (record { l = l; a = a; b = b }) (oklab_at oklab.now)) limit k 8 }
{
    let o = Oklab { l: l, a: a, b: b };
    let mut all = true;
    for i in 0..8 {
        all &= limit < distance_to(oklab, k + i, o);
    }
    all
}
