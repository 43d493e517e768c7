// What all calls on pictures share: the bounds of sizes and lent lengths, the pixels that reduce, and the colours of a pixel.
#![tactic(auto)]

ghost use Rattle.std.specs.Prelude.{◌≡◌, true, ◌+◌, ◌*◌, ◌<◌, ◌≤◌, length};
ghost use Rattle.reducing.specs.declared.Reducing.{Reducing};
ghost use Rattle.reducing.specs.Reduce.{keeps_channels};
ghost use Rattle.picture.specs.Bounds.{size_wrong, origin_wrong, table_wrong, opaque_needed, lent_wrong, side_wrong};
ghost use Rattle.picture.specs.Pixels.{source_at, basis, reduced_by, reduced_of, is_seen, seen_from};

use color::{NormalizedColor, ReducedColor};
use reducing::Reducing;

// Whether a side is above 4,096 or there are more than 1,048,576 pixels.
pub fn size_wrong(width: u32, height: u32) -> bool
    ensures { result ≡ size_wrong width height }
{
    (4096 < width) | ((4096 < height) | (1048576 < width as u64 * height as u64))
}

// Whether a side that starts at an origin ends above 4,294,967,295.
#[tactic(auto, unfolding(crate::specs::Bounds::origin_wrong))]
pub fn origin_wrong(origin: u32, side: u32) -> bool
    ensures { result ≡ origin_wrong origin side }
{
    4294967295 < origin as u64 + side as u64
}

// Whether a lent table has not 256 entries.
#[tactic(auto, unfolding(crate::specs::Bounds::table_wrong))]
fn table_wrong(entries: usize) -> bool
    ensures { result ≡ table_wrong entries }
{
    entries != 256
}

// How many bytes of opaque pixels n pixels need: four each, and none where alpha says what is transparent. No public call: the
// caller sees to the number of pixels.
fn opaque_needed(reducing: Reducing, n: usize) -> usize
    requires { n ≤ 1048576 }
    ensures { result ≡ opaque_needed reducing n }
{
    match reducing {
        Reducing::ByAlpha => 0,
        Reducing::Grey | Reducing::OpaqueColor => 4 * n,
    }
}

// Whether a table or pixels that every call on a picture is lent have not the length that n pixels need. No public call: the
// caller sees to the number of pixels.
//
// Kept as four lengths: three definitions of the calls' replies spell each of them as a field, and a struct of the four nested
// in each would be no plainer.
pub fn lent_wrong(
    reducing: Reducing,
    reduction: usize,
    scale: usize,
    pixels: usize,
    opaque: usize,
    n: usize,
) -> bool
    requires { n ≤ 1048576 }
    ensures { result ≡ lent_wrong reducing reduction scale pixels opaque n }
{
    table_wrong(reduction)
        | (table_wrong(scale) | ((pixels != 4 * n) | (opaque != opaque_needed(reducing, n))))
}

// Whether a tile's side is not from 1 to 4,096.
#[tactic(auto, unfolding(crate::specs::Bounds::side_wrong))]
pub fn side_wrong(side: u32) -> bool
    ensures { result ≡ side_wrong side }
{
    (side == 0) | (4096 < side)
}

// Pixel i as it was lent. No public call: the caller sees to the length.
pub fn source_at(pixels: &[u8], i: usize) -> NormalizedColor
    requires { 4 * i + 3 < length pixels.now }
    ensures { result ≡ source_at pixels.now i }
{
    NormalizedColor(color::rgba_at(pixels, i))
}

// The pixels that reduce: the picture's own where alpha says what is transparent, else the opaque ones beside them.
pub fn basis<'a>(reducing: Reducing, pixels: &'a [u8], opaque: &'a [u8]) -> &'a [u8]
    ensures { result.now ≡ basis reducing pixels.now opaque.now }
{
    match reducing {
        Reducing::ByAlpha => pixels,
        Reducing::Grey | Reducing::OpaqueColor => opaque,
    }
}

// Pixels that reduce, with the way and the table by which they do. They always travel together.
#[derive(Clone, Copy)]
pub struct Pixels<'a> {
    pub reducing: Reducing,
    pub reduction: &'a [u8; 256],
    pub bytes: &'a [u8],
}

impl Pixels<'_> {
    // Pixel i reduced: the one function that reduces a picture's pixels. No public call: the caller sees to the length.
    #[tactic(auto, unfolding(crate::specs::Pixels::reduced_by))]
    pub fn reduced_at(&self, i: usize) -> ReducedColor
        requires { 4 * i + 3 < length self.now.bytes.now }
        ensures { result ≡ reduced_of self.now i }
    {
        reducing::reduce_color(self.reducing, self.reduction, source_at(self.bytes, i))
    }

    // The red that pixel i reduces to where it is seen and its own channels are kept; where not, some number. Neither its alpha
    // nor its luma needs a look: that is for a test that few pixels pass. No public call: the caller sees to the length.
    pub fn red_at(&self, i: usize) -> u8
        requires { 4 * i + 3 < length self.now.bytes.now }
        ensures { (by : Reducing) → let reduced = reduced_by by self.now.reduction.now self.now.bytes.now in
            keeps_channels by ≡ true → is_seen reduced i ≡ true → result ≡ (reduced i).0.r }
    {
        let c = source_at(self.bytes, i);
        color::looked_up(self.reduction, c.0.r)
    }
}

// Pixel i of a picture reduced, from what every call is lent. No public call: the caller sees to the lengths.
pub fn reduced_in(
    reducing: Reducing,
    reduction: &[u8; 256],
    pixels: &[u8],
    opaque: &[u8],
    i: usize,
) -> ReducedColor
    requires { 4 * i + 3 < length (basis reducing pixels.now opaque.now) }
    ensures { result ≡ reduced_by reducing reduction.now (basis reducing pixels.now opaque.now) i }
{
    let basis = Pixels {
        reducing,
        reduction,
        bytes: basis(reducing, pixels, opaque),
    };
    basis.reduced_at(i)
}

// Whether pixel i is not transparent, by its own alpha and the least that is seen (`reducing::least_alpha`): no look at the
// pixels that reduce. No public call: the caller sees to the length.
//
// Kept: the least and the pixels stay two parameters, though four functions have both. `drawing::finish` promises for any least,
// and so no struct of them has a fact to hold.
pub fn is_seen(least: u8, pixels: &[u8], i: usize) -> bool
    requires { 4 * i + 3 < length pixels.now }
    ensures { result ≡ seen_from least pixels.now i }
{
    let c = source_at(pixels, i);
    !(c.0.a < least)
}
