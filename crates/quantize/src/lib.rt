// Quantizing a picture to a palette: `quantize_pixels` of src/dither.rs. The picture is drawn into the lent pixels as
// reduced colours, and each pixel's index, which is its choice's position in the palette, beside them; then the colours are
// finished.
#![tactic(auto)]

ghost use Rattle.std.specs.Prelude.{◌≡◌, ◌≤◌, length};
ghost use Rattle.replies.specs.Replies.{first_reply};
ghost use Rattle.replies.specs.Refusals.{number_of};
ghost use Rattle.drawing.specs.Lent.{lent_by, cells_after};
ghost use Rattle.quantize.specs.Quantize.{commission, commission_by, lent_of, palette_oklab, quantizing, indices_of, pixels_of};
ghost use Rattle.quantize.specs.Quantize.{lengths_of, lengths_wrong, entries_wrong, checks, Quantized};
ghost use Rattle.quantize.specs.Steps.{Fitting};

use conversion::linear::linear_table;
use drawing::{Ditherer, Lent};
use reducing::Reducing;
use replies::Refusal;

// What is asked of a picture: the mode's shift and how it reduces, the kind of dithering and the picture's size. The call takes
// them one by one, as the original does.
// Kept: the kind is a number, as the call takes it, which refuses numbers by 1 and 15.
#[derive(Clone, Copy, Debug, PartialEq, Eq, Hash)]
struct Asked {
    shift: u32,
    reducing: Reducing,
    kind: u32,
    width: u32,
    height: u32,
}

// How long each lent buffer is.
// Kept, lengths without their buffers: the definition of the replies (`checks`) is of them, and stands for cells of floats too.
#[derive(Clone, Copy, Debug, PartialEq, Eq, Hash)]
pub struct Lengths {
    pub reduction: usize,
    pub scale: usize,
    pub palette: usize,
    pub pixels: usize,
    pub opaque: usize,
    pub indices: usize,
    pub out: usize,
    pub cells: usize,
}

// ---- refusals

// Whether a lent length is wrong. No public call: the caller sees to the size.
#[tactic(auto, unfolding(crate::specs::Quantize::lengths_wrong))]
fn lengths_wrong(reducing: Reducing, kind: u32, size: usize, s: Lengths) -> bool
    requires { size ≤ 1048576 }
    ensures { result ≡ lengths_wrong reducing kind size s }
{
    picture::lent_wrong(reducing, s.reduction, s.scale, s.pixels, s.opaque, size)
        | ((s.palette % 4 != 0)
            | ((s.indices != size)
                | ((s.out != 4 * size) | (s.cells != patterns::cells_needed(kind, size)))))
}

// Whether the palette has not 1 to 256 entries.
#[tactic(auto, unfolding(crate::specs::Quantize::entries_wrong))]
fn entries_wrong(count: usize) -> bool
    ensures { result ≡ entries_wrong count }
{
    (count == 0) | (256 < count)
}

// The first refusal that applies, if one does.
// Kept beside `check` of `dither`, whose tests for 1 and 15 are the same: 15 stands between 1 and 2, and 2 is another test in each.
// The programs refused for asking 15 too early or too late (`fifteen_before_one`, `fifteen_after_two`) change each call's own list.
fn check(asked: Asked, s: Lengths) -> Result<(), Refusal>
    ensures { number_of result ≡ first_reply (checks asked.shift asked.reducing asked.kind asked.width asked.height s) }
{
    let reducing = asked.reducing;
    let mode_wrong = !patterns::is_kind(asked.kind) | !reducing::is_pairing(reducing, asked.shift);
    let retired = patterns::is_retired(asked.kind);
    let size_wrong = picture::size_wrong(asked.width, asked.height);
    if mode_wrong {
        return Err(Refusal::KindOrShift);
    }
    if retired {
        return Err(Refusal::RetiredKind);
    }
    if size_wrong {
        return Err(Refusal::Size);
    }
    let size = asked.width as usize * asked.height as usize;
    if lengths_wrong(reducing, asked.kind, size, s) {
        return Err(Refusal::Length);
    }
    if entries_wrong(s.palette / 4) {
        return Err(Refusal::Entries);
    }
    Ok(())
}

// ---- the call

// Quantizes a picture that is accepted, over what is lent with the palette as the candidates. No public call: the caller sees
// to all of it.
// Kept, three buffers: a struct of them would hold `&mut` slices, and its clauses speak of loans; the call is lent them one by
// one, as the original has it.
fn quantize(asked: Asked, lent: &Lent, indices: &mut [u8], out: &mut [u8], cells: &mut [i16])
    requires { let q = commission_by asked.shift asked.kind asked.width asked.height (lent_by lent.now) in
        Fitting q (lengths_of q indices.old out.old cells.old) × (lent_by lent.now ≡ lent_of q (palette_oklab q)) }
    ensures { let q = commission_by asked.shift asked.kind asked.width asked.height (lent_by lent.now) in
        (indices.new ≡ indices_of q) × (out.new ≡ pixels_of q) × (cells.new ≡ cells_after (quantizing q) cells.old) }
{
    let count = lent.candidates.oklabs.count;
    let ditherer = Ditherer {
        kind: asked.kind,
        origin_x: 0,
        origin_y: 0,
        width: asked.width,
        height: asked.height,
        bracket_width: mixing::width_of(asked.shift, count as u64),
    };
    ditherer.draw(None, lent, indices, out, cells);
    let least = reducing::least_alpha(lent.reducing);
    let scale = lent.candidates.scale;
    let pixels = lent.pixels;
    drawing::finish(least, scale, pixels, out);
}

// Quantizes a picture to a palette: each pixel's palette index, and its colour at full precision. On a refusal all
// buffers are as they were.
pub fn quantize_pixels(
    shift: u32,
    reducing: Reducing,
    kind: u32,
    width: u32,
    height: u32,
    reduction: &[u8],
    scale: &[u8],
    palette: &[u8],
    pixels: &[u8],
    opaque: &[u8],
    indices: &mut [u8],
    out: &mut [u8],
    cells: &mut [i16],
) -> Result<(), Refusal>
    ensures { Quantized (commission shift reducing kind width height reduction.now scale.now palette.now pixels.now opaque.now)
        indices.old out.old cells.old result indices.new out.new cells.new }
{
    let asked = Asked {
        shift,
        reducing,
        kind,
        width,
        height,
    };
    let lengths = Lengths {
        reduction: reduction.len(),
        scale: scale.len(),
        palette: palette.len(),
        pixels: pixels.len(),
        opaque: opaque.len(),
        indices: indices.len(),
        out: out.len(),
        cells: cells.len(),
    };
    check(asked, lengths)?;
    let reduction: &[u8; 256] = reduction.try_into().unwrap();
    let scale: &[u8; 256] = scale.try_into().unwrap();
    let linear = linear_table();
    let count = palette.len() / 4;
    let mut room = [0.0f32; 768];
    conversion::list::put_list_oklab(&linear, scale, palette, count, &mut room);
    let lent = Lent::new(
        reducing,
        reduction,
        scale,
        pixels,
        opaque,
        &linear,
        palette,
        &room[..3 * count],
        count,
    );
    quantize(asked, &lent, indices, out, cells);
    Ok(())
}
