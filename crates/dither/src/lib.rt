// Dithering a picture to a mode: `dither_to_mode` of src/dither.rs. The picture's candidates are collected; every pixel's
// choice among them is drawn into the lent pixels as a reduced colour; the tiles are judged; and what keeps to the limit gets
// its full precision.
#![tactic(auto)]

ghost use Rattle.std.specs.Prelude.{◌≡◌, ◌*◌, ◌≤◌, length, replicate, pos};
ghost use Rattle.replies.specs.Replies.{first_reply};
ghost use Rattle.replies.specs.Refusals.{number_of};
ghost use Rattle.drawing.specs.Lent.{lent_by, reduced_bytes, cells_after};
ghost use Rattle.dither.specs.Mode.{commission, commission_by, lent_to, buffers, dithering, bounds_wrong, lengths_wrong, budget_wrong, checks, DitheredToMode};
ghost use Rattle.dither.specs.Mode.{error_number, candidate_list};
ghost use Rattle.dither.specs.declared.DitherError.TheVariants.{Refused};
ghost use Rattle.dither.specs.Steps.{Fitting, Completes};

use color::ReducedColor;
use conversion::linear::linear_table;
use drawing::{Ditherer, Lent};
use judging::Tiling;
use reducing::Reducing;
use replies::Refusal;
use std::fmt;

// What is asked of a picture: the kind of dithering, the mode's shift and how it reduces, the picture's size and its origin in
// the source picture, the tiles' sides, how many colours a tile may have, and colour zero.
// Kept: the kind is a number, as callers give it; the call refuses numbers by 1 and 15.
#[derive(Clone, Copy, Debug, PartialEq, Eq, Hash)]
pub struct Settings {
    pub kind: u32,
    pub shift: u32,
    pub reducing: Reducing,
    pub width: u32,
    pub height: u32,
    pub origin_x: u32,
    pub origin_y: u32,
    pub tile_width: u32,
    pub tile_height: u32,
    pub limit: u32,
    pub zero: Option<ReducedColor>,
}

// Why a picture is not dithered to a mode: the first tile that is over its limit, with how many candidates there are; or a
// refusal of document 01's table. Neither has the other's number.
#[derive(Clone, Copy, Debug, PartialEq, Eq, Hash)]
pub enum DitherError {
    TileOver { tile: u32, count: u32 },
    Refused(Refusal),
}

impl DitherError {
    // The number in the table.
    pub fn number(self) -> u8
        ensures { result ≡ error_number self }
    {
        match self {
            DitherError::TileOver { tile: _, count: _ } => 8,
            DitherError::Refused(refusal) => refusal.number(),
        }
    }
}

impl From<Refusal> for DitherError {
    ghost from_gives = { λ refusal error. error ≡ Refused refusal };

    fn from(refusal: Refusal) -> DitherError {
        DitherError::Refused(refusal)
    }
}

impl fmt::Display for DitherError {
    fn fmt<W: fmt::Write>(&self, f: &mut fmt::Formatter<W>) -> fmt::Result {
        match self {
            DitherError::TileOver { tile, count: _ } => write!(f, "tile {tile} is over its limit"),
            DitherError::Refused(refusal) => write!(f, "{refusal}"),
        }
    }
}

// How long each lent buffer is.
// Kept, lengths without their buffers: the definition of the replies (`checks`) is of them, and stands for cells of floats too.
#[derive(Clone, Copy, Debug, PartialEq, Eq, Hash)]
pub struct Lengths {
    pub reduction: usize,
    pub scale: usize,
    pub pixels: usize,
    pub opaque: usize,
    pub places: usize,
    pub oklab: usize,
    pub out: usize,
    pub cells: usize,
}

// ---- refusals

// Whether the size is above its bound, or the picture ends too far from the source picture's corner.
#[tactic(auto, unfolding(crate::specs::Mode::bounds_wrong))]
fn bounds_wrong(s: Settings) -> bool
    ensures { result ≡ bounds_wrong s }
{
    picture::size_wrong(s.width, s.height)
        | (picture::origin_wrong(s.origin_x, s.width) | picture::origin_wrong(s.origin_y, s.height))
}

// Whether a lent length is wrong. No public call: the caller sees to the size.
#[tactic(auto, unfolding(crate::specs::Mode::lengths_wrong))]
fn lengths_wrong(reducing: Reducing, kind: u32, size: usize, s: Lengths) -> bool
    requires { size ≤ 1048576 }
    ensures { result ≡ lengths_wrong reducing kind size s }
{
    picture::lent_wrong(reducing, s.reduction, s.scale, s.pixels, s.opaque, size)
        | (candidates::rooms_wrong(s.places, s.oklab)
            | ((s.out != 4 * size) | (s.cells != patterns::cells_needed(kind, size))))
}

// Whether a tile's side or the limit is outside its bound.
#[tactic(auto, unfolding(crate::specs::Mode::budget_wrong))]
fn budget_wrong(s: Settings) -> bool
    ensures { result ≡ budget_wrong s }
{
    picture::side_wrong(s.tile_width) | (picture::side_wrong(s.tile_height) | (256 < s.limit))
}

// The first refusal that applies of those that need no look at a pixel, if one does.
// Kept beside `check` of `quantize`, which says why.
fn check(s: Settings, lengths: Lengths) -> Result<(), Refusal>
    ensures { number_of result ≡ first_reply (checks s lengths) }
{
    let reducing = s.reducing;
    let mode_wrong = !patterns::is_kind(s.kind) | !reducing::is_pairing(reducing, s.shift);
    let retired = patterns::is_retired(s.kind);
    let size_wrong = bounds_wrong(s);
    if mode_wrong {
        return Err(Refusal::KindOrShift);
    }
    if retired {
        return Err(Refusal::RetiredKind);
    }
    if size_wrong {
        return Err(Refusal::Size);
    }
    let size = s.width as usize * s.height as usize;
    if lengths_wrong(reducing, s.kind, size, lengths) {
        return Err(Refusal::Length);
    }
    if budget_wrong(s) {
        return Err(Refusal::Tiles);
    }
    Ok(())
}

// ---- choosing

// Chooses every pixel's colour among the candidates, into `out` as reduced bytes. No public call: the caller sees to what is
// lent and to all lengths.
fn choose(s: Settings, lent: &Lent, out: &mut [u8], cells: &mut [i16])
    requires { let q = commission_by s (lent_by lent.now) in Fitting q out.old cells.old × (lent_by lent.now ≡ lent_to q) }
    ensures { let d = dithering (commission_by s (lent_by lent.now)) in
        (out.new ≡ reduced_bytes d) × (cells.new ≡ cells_after d cells.old) }
{
    let ditherer = Ditherer {
        kind: s.kind,
        origin_x: s.origin_x,
        origin_y: s.origin_y,
        width: s.width,
        height: s.height,
        bracket_width: mixing::width_of(s.shift, s.limit as u64),
    };
    let mut no_indices = [0u8; 0];
    ditherer.draw(s.zero, lent, &mut no_indices, out, cells);
}

// ---- the call

// Sets the output pixels and the cells to 0, as they are left where a tile is over its limit.
fn wipe(out: &mut [u8], cells: &mut [i16])
    ensures { (out.new ≡ replicate (length out.old) 0)
        × (cells.new ≡ replicate (length cells.old) (pos 0)) }
{
    lists::fill(out, 0);
    lists::fill(cells, 0);
}

// Dithers a picture that is accepted so far, over what is lent with its candidates. No public call: the caller sees to all of
// it.
fn dither(s: Settings, lent: &Lent, out: &mut [u8], cells: &mut [i16]) -> Result<u32, DitherError>
    requires { let q = commission_by s (lent_by lent.now) in
        Fitting q out.old cells.old × (lent_by lent.now ≡ lent_to q) × (length (candidate_list q) ≤ 65536) }
    ensures { Completes (commission_by s (lent_by lent.now)) out.old cells.old result out.new cells.new }
{
    choose(s, lent, out, cells);
    let pixels = lent.pixels;
    let scale = lent.candidates.scale;
    let least = reducing::least_alpha(s.reducing);
    let tiling = Tiling {
        width: s.width,
        height: s.height,
        tile_width: s.tile_width,
        tile_height: s.tile_height,
        limit: s.limit,
    };
    let over = judging::judge(out, least, pixels, tiling);
    let count = lent.candidates.oklabs.count as u32;
    if let Some(tile) = over {
        wipe(out, cells);
        return Err(DitherError::TileOver { tile, count });
    }
    drawing::finish(least, scale, pixels, out);
    Ok(count)
}

// Dithers a picture to a mode's colours, and judges its tiles: the rooms get the picture's candidates, `out` each pixel's
// choice at full precision, `cells` the diffused error. Where a tile is over its limit, `out` and `cells` are 0; where there
// are more candidates than places, the places are 0. On any other refusal all buffers are as they were.
pub fn dither_to_mode<'a>(
    settings: Settings,
    reduction: &[u8],
    scale: &[u8],
    pixels: &'a [u8],
    opaque: &'a [u8],
    places: &mut [u8],
    oklab: &mut [f32],
    out: &mut [u8],
    cells: &mut [i16],
) -> Result<u32, DitherError>
    ensures { DitheredToMode (commission settings reduction.now scale.now pixels.now opaque.now)
        (buffers places.old oklab.old out.old cells.old)
        result (buffers places.new oklab.new out.new cells.new) }
{
    let lengths = Lengths {
        reduction: reduction.len(),
        scale: scale.len(),
        pixels: pixels.len(),
        opaque: opaque.len(),
        places: places.len(),
        oklab: oklab.len(),
        out: out.len(),
        cells: cells.len(),
    };
    check(settings, lengths)?;
    let reduction: &[u8; 256] = reduction.try_into().unwrap();
    let scale: &[u8; 256] = scale.try_into().unwrap();
    let size = settings.width as usize * settings.height as usize;
    let linear = linear_table();
    let reducing = settings.reducing;
    let basis = picture::basis(reducing, pixels, opaque);
    let collected = candidates::collect_candidates(
        &linear, reducing, reduction, scale, basis, size, places, oklab,
    );
    let count = collected.ok_or(Refusal::TooManyCandidates)?;
    let lent = Lent::new(
        reducing,
        reduction,
        scale,
        pixels,
        opaque,
        &linear,
        &places[..4 * count],
        &oklab[..3 * count],
        count,
    );
    dither(settings, &lent, out, cells)
}
