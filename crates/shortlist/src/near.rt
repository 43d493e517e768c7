// The nearest entry of a flat list of Oklab colours. A short list is searched by twos; a longer one eight entries at a time: eight
// that are all farther than the leader, or all farther than a seed, are passed over. Where the last search ended is a good seed;
// it changes nothing but the time. Kept as two parameters: the list and the colour, which would be read back from memory if they
// came in one struct (`nearest_position`).
ghost use Rattle.std.specs.Prelude.{◌≡◌, ℕ, ◌+◌, ◌*◌, ◌<◌, ◌≤◌, T, length, Float};
ghost use Rattle.color.specs.Oklab.{all_in_range, oklab_at};
ghost use Rattle.shortlist.specs.Candidates.{RangedList};
ghost use Rattle.shortlist.specs.Nearest.{distances, nearest_in, lesser_of, nearer_of, entry_at, Onward};

use super::away::{distance_to, eight_farther};
use color::Oklab;

// The entry in front so far, and its distance.
#[derive(Clone, Copy)]
struct Leader {
    position: usize,
    distance: f32,
}

// The lesser of two distances, the first of equals.
// Kept: `f32::min` promises either of two that are equal, and this the first.
fn lesser(a: f32, b: f32) -> f32
    ensures { result ≡ lesser_of a b }
{
    if b < a {
        return b;
    }
    a
}

// The nearer of two, the first where they are as near.
fn nearer(a: Leader, b: Leader) -> Leader
    ensures { result ≡ nearer_of a b }
{
    if b.distance < a.distance {
        return b;
    }
    a
}

// Entry k with its distance. No public call: the caller sees to the length.
fn entry_at(oklab: &[f32], k: usize, o: Oklab) -> Leader
    requires { 3 * k + 2 < length oklab.now }
    ensures { result ≡ entry_at (distances o (oklab_at oklab.now)) k }
{
    Leader {
        position: k,
        distance: distance_to(oklab, k, o),
    }
}

// The leader after entries k and k + 1. These are compared with each other first: for the leader, which what follows waits
// for, one comparison is left.
fn leader_by_two(oklab: &[f32], o: Oklab, k: usize, leader: Leader) -> Leader
    requires { 3 * k + 5 < length oklab.now }
    ensures { (reach : Float) → Onward (distances o (oklab_at oklab.now)) reach k (k + 2) leader result }
{
    let ahead = nearer(entry_at(oklab, k, o), entry_at(oklab, k + 1, o));
    nearer(leader, ahead)
}

// The leader after the entries from `from` to before `to`, two by two, and one that is left over. Compiled into its callers:
// as a call it takes what it is given from memory, and a diffused picture 7 parts of 100 more time.
#[inline(always)]
fn leader_between(oklab: &[f32], o: Oklab, from: usize, to: usize, start: Leader) -> Leader
    requires { (from ≤ to) × (3 * to ≤ length oklab.now) }
    ensures { (reach : Float) → Onward (distances o (oklab_at oklab.now)) reach from to start result }
{
    let mut leader = start;
    let pairs = (to - from) / 2;
    for pair in 0..pairs {
        leader = leader_by_two(oklab, o, from + 2 * pair, leader);
    }
    let last = from + 2 * pairs;
    if last < to {
        return nearer(leader, entry_at(oklab, last, o));
    }
    leader
}

// The leader after eight entries from k on: by twos, and only where one of them is not farther than the leader and the reach,
// which is how far some entry is.
fn leader_by_eight(oklab: &[f32], o: Oklab, reach: f32, k: usize, leader: Leader) -> Leader
    requires { 3 * k + 23 < length oklab.now }
    ensures { Onward (distances o (oklab_at oklab.now)) reach k (k + 8) leader result }
{
    let limit = lesser(reach, leader.distance);
    if eight_farther(oklab, k, o.l, o.a, o.b, limit) {
        return leader;
    }
    leader_between(oklab, o, k, k + 8, leader)
}

// The leader of a long list, from its first entry as the leader on; no entry farther than the seed needs a look.
// Kept: a count beside the list. It may be longer; the promise is of its first `count` entries.
fn leader_of(oklab: &[f32], count: usize, o: Oklab, seed: usize, start: Leader) -> Leader
    requires { (seed < count) × (3 * count ≤ length oklab.now) }
    ensures { Onward (distances o (oklab_at oklab.now)) (distances o (oklab_at oklab.now) seed) 0 count start result }
{
    let reach = distance_to(oklab, seed, o);
    let mut leader = start;
    for block in 0..count / 8 {
        leader = leader_by_eight(oklab, o, reach, 8 * block, leader);
    }
    leader_between(oklab, o, 8 * (count / 8), count, leader)
}

// The position of the smallest distance from the colour l, a, b, the first of equals. The seed is an entry that is likely
// near; which one it is changes nothing but the time. The colour comes as three floats: a struct would be written to memory
// and read back from there, two floats at once of which each had been written by another store, and so late. No public call:
// the caller sees to the list, the range and the seed.
// Kept: the count, for the reason that `leader_of` gives.
pub fn nearest_position(oklab: &[f32], count: usize, l: f32, a: f32, b: f32, seed: usize) -> usize
    requires { RangedList oklab.now count × T (all_in_range (record { l = l; a = a; b = b })) × (seed < count) }
    ensures { result ≡ nearest_in (oklab_at oklab.now) count (record { l = l; a = a; b = b }) }
{
    let o = Oklab { l: l, a: a, b: b };
    let start = entry_at(oklab, 0, o);
    if count < 32 {
        let short = leader_between(oklab, o, 1, count, start);
        return short.position;
    }
    let long = leader_of(oklab, count, o, seed, start);
    long.position
}
