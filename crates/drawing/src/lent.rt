// What a drawing is lent to be read.
ghost use Rattle.std.specs.Prelude.{ℕ, ◌*◌, ◌≤◌, get_or};

use color::ReducedColor;
use conversion::linear::LinearTable;
use reducing::Reducing;
use remembered::{Candidates, Oklabs};

// What is lent to be read: how pixels reduce and by which table, the pixels and the opaque ones beside them, and the candidates
// with the scale table.
#[derive(Clone, Copy)]
pub struct Lent<'a> {
    pub reducing: Reducing,
    pub reduction: &'a [u8; 256],
    pub pixels: &'a [u8],
    pub opaque: &'a [u8],
    pub candidates: Candidates<'a>,
    // The tables hold bytes, as their types say: a proof that is given the whole struct sees it here.
    pub ghost reduces: { (v : ℕ) → get_or reduction.now v 0 ≤ 255 },
    pub ghost scales: { (v : ℕ) → get_or candidates.scale.now v 0 ≤ 255 },
}

impl<'a> Lent<'a> {
    ghost use Rattle.std.specs.Prelude.{◌≡◌, ◌+◌, ◌<◌, length};
    ghost use Rattle.reducing.specs.Reduce.{least_alpha};
    ghost use Rattle.picture.specs.Pixels.{basis, seen_from};
    ghost use Rattle.shortlist.specs.Candidates.{RangedList};
    ghost use Rattle.drawing.specs.Lent.{lent, lent_by, reduced_lent};
    ghost use Rattle.drawing.specs.Turns.{KeepsZero};

    // From its parts, some of which a call has made itself. No public call: the caller sees to the candidates, and says that
    // the tables hold bytes.
    pub fn new(
        reducing: Reducing,
        reduction: &'a [u8; 256],
        scale: &'a [u8; 256],
        pixels: &'a [u8],
        opaque: &'a [u8],
        linear: &'a LinearTable,
        colors: &'a [u8],
        oklab: &'a [f32],
        count: usize,
    ) -> Lent<'a>
        requires { (4 * count ≤ length colors.now) × RangedList oklab.now count
            × ((v : ℕ) → get_or reduction.now v 0 ≤ 255) × ((v : ℕ) → get_or scale.now v 0 ≤ 255) }
        ensures { lent_by result ≡ lent reducing reduction.now scale.now pixels.now opaque.now colors.now oklab.now count }
    {
        let oklabs = Oklabs {
            linear,
            oklab,
            count,
        };
        let candidates = Candidates {
            oklabs,
            colors,
            scale,
        };
        Lent {
            reducing,
            reduction,
            pixels,
            opaque,
            candidates,
        }
    }

    // Whether pixel i is not transparent. No public call: the caller sees to the length.
    pub(crate) fn is_seen(&self, i: usize) -> bool
        requires { 4 * i + 3 < length self.now.pixels.now }
        ensures { result ≡ seen_from (least_alpha self.now.reducing) self.now.pixels.now i }
    {
        let pixels = self.pixels;
        picture::is_seen(reducing::least_alpha(self.reducing), pixels, i)
    }

    // What pixel i keeps by colour zero: its reduced colour where that has colour zero's rgb. Where there is no colour zero, no
    // pixel is reduced for its choice. No public call: the caller sees to the lengths.
    pub(crate) fn kept_zero(&self, zero: Option<ReducedColor>, i: usize) -> Option<ReducedColor>
        requires { 4 * i + 3 < length (basis self.now.reducing self.now.pixels.now self.now.opaque.now) }
        ensures { KeepsZero zero (reduced_lent (lent_by self.now) i) result }
    {
        let z = zero?;
        let reduction = self.reduction;
        let pixels = self.pixels;
        let opaque = self.opaque;
        let own = picture::reduced_in(self.reducing, reduction, pixels, opaque, i);
        if color::eq_rgb(own, z) {
            return Some(own);
        }
        None
    }
}
