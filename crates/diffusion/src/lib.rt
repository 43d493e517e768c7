// Error diffusion for one pixel: the biased colour, the residual, and the sends into a lent buffer of cells, three a pixel,
// each a whole number of sixteenths. `clamp_u8` and `diffuse` are named as in src/dither.rs, where the rest is the body of
// `Ditherer`'s `diffusion_color_at`. There a cell is an f32, `clamp_u8` takes a float, and `diffuse` has the cells and the
// size in the `Ditherer`; here all are whole numbers, and cells and size are lent.
// Kept: the cells are one buffer with three a pixel, as C lends it.
#![tactic(auto)]

mod residual;
mod spot;

ghost use Rattle.std.specs.Prelude.{◌≡◌, ◌+◌, ◌*◌, ◌<◌, ◌≤◌, pos, T, nat_abs, ◌+ℤ◌, ◌*ℤ◌, length, get_or};
ghost use Rattle.patterns.specs.Kernel.{pixel, all_near};
ghost use Rattle.patterns.specs.Kinds.{kernel_of};
ghost use Rattle.diffusion.specs.Biased.{halves, clip, biased_of, biased_color};
ghost use Rattle.diffusion.specs.Scatter.{more, send, sends};
ghost use Rattle.diffusion.specs.Sends.{residuals_of, in_order, RoomIn, RoomAt, Room};

use color::NormalizedColor;
use patterns::{Dither, Target};
use residual::Residual;
pub use spot::Spot;

// ---- the biased colour

// n sixteenths to the nearest whole number, halves away from zero. No public call: the caller sees to the size.
fn round(n: i32) -> i32
    requires { nat_abs n ≤ 65536 }
    ensures { result ≡ halves n }
{
    let size = n.unsigned_abs();
    if n < 0 {
        return -(((size + 8) / 16) as i32);
    }
    ((size + 8) / 16) as i32
}

// n sixteenths, rounded and then clipped to 0..255. No public call: the caller sees to the size.
fn clamp_u8(n: i32) -> u8
    requires { nat_abs n ≤ 65536 }
    ensures { result ≡ clip (halves n) }
{
    round(n).clamp(0, 255) as u8
}

// Sixteen times source, plus cell.
fn in_sixteenths(source: u8, cell: i16) -> i32
    ensures { result ≡ pos (source * 16) +ℤ cell }
{
    source as i32 * 16 + cell as i32
}

// Source plus cell, rounded with halves away from zero and clipped to 0..255.
pub fn biased(source: u8, cell: i16) -> u8
    ensures { result ≡ biased_of source cell }
{
    clamp_u8(in_sixteenths(source, cell))
}

// The biased byte of a source and the cell at a place. No public call: the caller sees to the place.
fn biased_at(cells: &[i16], at: usize, source: u8) -> u8
    requires { at < length cells.now }
    ensures { result ≡ biased_of source (get_or cells.now at (pos 0)) }
{
    biased(source, cells[at])
}

// The biased colour of the pixel i: red, green and blue by its three cells, alpha kept. No public call: the caller sees to
// the cells' length.
pub fn biased_color(cells: &[i16], i: usize, color: NormalizedColor) -> NormalizedColor
    requires { 3 * i + 2 < length cells.now }
    ensures { result ≡ biased_color color cells.now i }
{
    let at = 3 * i;
    let r = biased_at(cells, at, color.0.r);
    let g = biased_at(cells, at + 1, color.0.g);
    let b = biased_at(cells, at + 2, color.0.b);
    NormalizedColor::new(r, g, b, color.0.a)
}

// ---- sends

// Weight times residual, to one cell. No public call: the caller sees to the place, the residual and the room.
fn send_one(cells: &mut [i16], at: usize, residual: i16, weight: u8)
    requires { (at < length cells.old) × (nat_abs residual ≤ 255) × RoomIn cells.old at weight }
    ensures { cells.new ≡ more cells.old at (residual *ℤ pos weight) }
{
    cells[at] += residual * weight as i16;
}

// Weight times residual, to the three cells of the pixel i. No public call: the caller sees to the place and the room.
fn send_three(cells: &mut [i16], i: usize, residual: Residual, weight: u8)
    requires { (3 * i + 2 < length cells.old) × (i < 16777216) × RoomAt cells.old (pixel i) weight }
    ensures { cells.new ≡ send cells.old (in_order residual) (pixel i) weight }
{
    let at = 3 * i;
    send_one(cells, at, residual.r, weight);
    send_one(cells, at + 1, residual.g, weight);
    send_one(cells, at + 2, residual.b, weight);
}

// The sends of a pixel by a kernel: weight times residual to each target; nothing where the target is outside the picture.
// No public call: the caller sees to the buffer's length, near targets and the room.
fn diffuse(cells: &mut [i16], spot: Spot, residual: Residual, kernel: &[Target])
    requires { (length cells.old ≡ 3 * (spot.width * spot.height)) × T (all_near kernel.now)
        × Room kernel.now spot.width spot.height (spot.y * spot.width + spot.x) cells.old }
    ensures { cells.new ≡ sends cells.old (in_order residual) kernel.now spot.width spot.height (spot.y * spot.width + spot.x) }
{
    for &target in kernel {
        if let Some(i) = spot.landing(target) {
            send_three(cells, i, residual, target.weight);
        }
    }
}

// Passes on what is left of a biased colour where another colour is chosen, by the kernel of a kind; a kind that has none
// sends nothing. No public call: the caller sees to the buffer's length and the room.
//
// Kept: the kind is a number, as `drawing::Ditherer`'s, since the definition of what is drawn asks of the number.
pub fn diffuse_residual(
    kind: u32,
    cells: &mut [i16],
    spot: Spot,
    biased: NormalizedColor,
    chosen: NormalizedColor,
)
    requires { (length cells.old ≡ 3 * (spot.width * spot.height))
        × Room (kernel_of kind) spot.width spot.height (spot.y * spot.width + spot.x) cells.old }
    ensures { cells.new
        ≡ sends cells.old (residuals_of biased.0 chosen.0) (kernel_of kind) spot.width spot.height (spot.y * spot.width + spot.x) }
{
    let Some(dither) = patterns::dither_of(kind) else {
        return;
    };
    let residual = Residual::between(biased, chosen);
    match dither {
        Dither::Atkinson => {
            diffuse(cells, spot, residual, &patterns::atkinson_kernel());
        }
        Dither::FloydSteinberg => {
            diffuse(cells, spot, residual, &patterns::floyd_steinberg_kernel());
        }
        _ => {}
    }
}
