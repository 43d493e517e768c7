// The C interface: each function is one call down, and hands numbers over. include/badge_dither.h declares them. All but
// `badge_to_oklab` and `badge_lerp` answer the number of document 01, or 02; what is behind a pointer or in a lent buffer is
// written on acceptance only, but for the candidates' places, which 7 clears, and for what 8 leaves.
#![tactic(auto)]

ghost use Rattle.std.specs.Prelude.{◌≡◌, length};
ghost use Rattle.replies.specs.Refusals.{number_of};
ghost use Rattle.color.specs.Color.{reduced_at, bytes_of};
ghost use Rattle.dither.specs.Mode as mode;
ghost use Rattle.exports.specs.Answers.{left, PromisedToOklab, PromisedOklabSqdist, PromisedOrderedThreshold, PromisedBracketWidth, PromisedLerp};
ghost use Rattle.exports.specs.Files.{size_left, PromisedPamSize, PromisedReadPam, PromisedPamLength, PromisedWritePam};
ghost use Rattle.exports.specs.Lookups.{PromisedNearest, PromisedNearestTwo, PromisedOrderedBracket, PromisedPick};
ghost use Rattle.exports.specs.Pictures.{lent_to, asked, drawn_by, PromisedCandidateColorsIn, PromisedQuantizePixels, zero_of, settings_of, PromisedDitherToMode};

use color::{NormalizedColor, Oklab, ReducedColor, put_rgba, rgba_at};
use dither::{DitherError, Settings};
use lookup::Bracket;
use pam::Size;
use reducing::Reducing;
use replies::Refusal;

// Hands an answer over: the value, with 0; or the refusal's number alone.
fn handed<T: Copy>(answer: Result<T, Refusal>, out: &mut T) -> u32
    ensures { (result, out.new) ≡ left out.old answer }
{
    match answer {
        Ok(value) => {
            *out = value;
            0
        }
        Err(refusal) => u32::from(refusal),
    }
}

// The number of an answer that has no value.
fn replied(answer: Result<(), Refusal>) -> u32
    ensures { result ≡ number_of answer }
{
    match answer {
        Ok(()) => 0,
        Err(refusal) => u32::from(refusal),
    }
}

// Hands a size over, as `handed` does a value.
fn handed_size(answer: Result<Size, Refusal>, width: &mut u32, height: &mut u32) -> u32
    ensures { (result, width.new, height.new) ≡ size_left width.old height.old answer }
{
    match answer {
        Ok(size) => {
            *width = size.width;
            *height = size.height;
            0
        }
        Err(refusal) => u32::from(refusal),
    }
}

// The Oklab colour of a colour.
#[unsafe(no_mangle)]
pub extern "C" fn badge_to_oklab(
    r: u8,
    g: u8,
    b: u8,
    lightness: &mut f32,
    out_a: &mut f32,
    out_b: &mut f32,
)
    ensures { PromisedToOklab r g b (lightness.new, out_a.new, out_b.new) }
{
    let o = conversion::to_oklab(NormalizedColor::new(r, g, b, 255));
    *lightness = o.l;
    *out_a = o.a;
    *out_b = o.b;
}

// The squared distance of two Oklab colours; 6 where a component is not from -2 to 2.
#[unsafe(no_mangle)]
pub extern "C" fn badge_oklab_sqdist(
    l1: f32,
    a1: f32,
    b1: f32,
    l2: f32,
    a2: f32,
    b2: f32,
    distance: &mut f32,
) -> u32
    ensures { PromisedOklabSqdist l1 a1 b1 l2 a2 b2 distance.old (result, distance.new) }
{
    let p = Oklab {
        l: l1,
        a: a1,
        b: b1,
    };
    let q = Oklab {
        l: l2,
        a: a2,
        b: b2,
    };
    handed(color::oklab_sqdist(p, q), distance)
}

// The threshold of a kind at column x and row y; 1, 15 and 9.
#[unsafe(no_mangle)]
pub extern "C" fn badge_ordered_threshold(kind: u32, x: u32, y: u32, threshold: &mut f32) -> u32
    ensures { PromisedOrderedThreshold kind x y threshold.old (result, threshold.new) }
{
    handed(patterns::ordered_threshold(kind, x, y), threshold)
}

// How many candidates `badge_nearest_two` considers; 1.
#[unsafe(no_mangle)]
pub extern "C" fn badge_bracket_width(shift: u32, max: u64, width: &mut u64) -> u32
    ensures { PromisedBracketWidth shift max width.old (result, width.new) }
{
    handed(mixing::bracket_width(shift, max), width)
}

// The share of the second colour in the mix of two that comes nearest to a third, clamped to 0..1 where the flag is not 0.
#[unsafe(no_mangle)]
pub extern "C" fn badge_lerp(
    r1: u8,
    g1: u8,
    b1: u8,
    r2: u8,
    g2: u8,
    b2: u8,
    r: u8,
    g: u8,
    b: u8,
    clamp: u32,
) -> f32
    ensures { PromisedLerp r1 g1 b1 r2 g2 b2 r g b clamp result }
{
    let c1 = NormalizedColor::new(r1, g1, b1, 255);
    let c2 = NormalizedColor::new(r2, g2, b2, 255);
    let color = NormalizedColor::new(r, g, b, 255);
    mixing::lerp(c1, c2, color, clamp != 0)
}

// ---- lookups over flat lists: four reduced and four normalised bytes an entry, and three f32 of Oklab

// The position of the nearest entry; 3, 4 and 6.
#[unsafe(no_mangle)]
pub extern "C" fn badge_nearest(
    reduced: &[u8],
    normalized: &[u8],
    oklab: &[f32],
    r: u8,
    g: u8,
    b: u8,
    position: &mut u32,
) -> u32
    ensures { PromisedNearest reduced.now normalized.now oklab.now r g b position.old
        (result, position.new) }
{
    let color = NormalizedColor::new(r, g, b, 255);
    let nearest = lookup::flat_nearest(reduced, normalized, oklab, color);
    match nearest {
        Ok(k) => {
            *position = k as u32;
            0
        }
        Err(refusal) => u32::from(refusal),
    }
}

// The positions of the nearest entry and of the second; 3, 4 and 6. Where there is no second, the nearest stands for it.
#[unsafe(no_mangle)]
pub extern "C" fn badge_nearest_two(
    reduced: &[u8],
    normalized: &[u8],
    oklab: &[f32],
    r: u8,
    g: u8,
    b: u8,
    width: u64,
    first: &mut u32,
    second: &mut u32,
) -> u32
    ensures { PromisedNearestTwo reduced.now normalized.now oklab.now r g b width
        first.old second.old (result, first.new, second.new) }
{
    let color = NormalizedColor::new(r, g, b, 255);
    match lookup::flat_nearest_two(reduced, normalized, oklab, color, width) {
        Ok(two) => {
            let nearest = two.first as u32;
            let other = two.second.unwrap_or(two.first) as u32;
            *first = nearest;
            *second = other;
            0
        }
        Err(refusal) => u32::from(refusal),
    }
}

// The colour that four bytes are. No public call: the caller sees to the length.
// Kept: a slice and a test of its length, here and in what follows. In the C interface a slice is a pointer and a length.
fn color_in(bytes: &[u8]) -> ReducedColor
    requires { length bytes.now ≡ 4 }
    ensures { result ≡ reduced_at bytes.now 0 }
{
    ReducedColor(rgba_at(bytes, 0))
}

// Hands a colour over as four bytes. No public call: the caller sees to the length.
fn put_color(bytes: &mut [u8], color: ReducedColor)
    requires { length bytes.old ≡ 4 }
    ensures { bytes.new ≡ bytes_of color.0 }
{
    put_rgba(bytes, 0, color.0);
}

// The two colours that an ordered dither alternates between, the share of the lighter, and the positions of both; 3, 4 and 6.
#[unsafe(no_mangle)]
pub extern "C" fn badge_ordered_bracket(
    reduced: &[u8],
    normalized: &[u8],
    oklab: &[f32],
    r: u8,
    g: u8,
    b: u8,
    width: u64,
    dark: &mut [u8],
    light: &mut [u8],
    ratio: &mut f32,
    dark_position: &mut u32,
    light_position: &mut u32,
) -> u32
    ensures { PromisedOrderedBracket reduced.now normalized.now oklab.now r g b width
        dark.old light.old ratio.old dark_position.old light_position.old
        (result, dark.new, light.new, ratio.new, dark_position.new, light_position.new) }
{
    if !((dark.len() == 4) & (light.len() == 4)) {
        return u32::from(Refusal::Length);
    }
    let color = NormalizedColor::new(r, g, b, 255);
    match lookup::flat_ordered_bracket(reduced, normalized, oklab, color, width) {
        Ok(bracket) => {
            let dark_at = bracket.dark_position as u32;
            let light_at = bracket.light_position as u32;
            put_color(dark, bracket.dark);
            put_color(light, bracket.light);
            *ratio = bracket.ratio;
            *dark_position = dark_at;
            *light_position = light_at;
            0
        }
        Err(refusal) => u32::from(refusal),
    }
}

// What is picked of two colours at column x and row y; 1, 15, 3 and 9. It is asked with colours: positions play no part.
#[unsafe(no_mangle)]
pub extern "C" fn badge_pick(
    dark: &[u8],
    light: &[u8],
    ratio: f32,
    kind: u32,
    x: u32,
    y: u32,
    chosen: &mut [u8],
) -> u32
    ensures { PromisedPick dark.now light.now ratio kind x y chosen.old (result, chosen.new) }
{
    if !patterns::is_kind(kind) {
        return u32::from(Refusal::KindOrShift);
    }
    if patterns::is_retired(kind) {
        return u32::from(Refusal::RetiredKind);
    }
    if !((dark.len() == 4) & ((light.len() == 4) & (chosen.len() == 4))) {
        return u32::from(Refusal::Length);
    }
    let bracket = Bracket {
        dark: color_in(dark),
        light: color_in(light),
        ratio: ratio,
        dark_position: 0,
        light_position: 0,
    };
    match lookup::pick(bracket, kind, x, y) {
        Ok(choice) => {
            put_color(chosen, choice.color);
            0
        }
        Err(refusal) => u32::from(refusal),
    }
}

// ---- pictures. A number that is no reduction is refused with 1, as a pairing that there is not

// The candidates of a picture, and how many; 1, 2, 3 and 7.
#[unsafe(no_mangle)]
pub extern "C" fn badge_candidate_colors_in<'a>(
    shift: u32,
    reducing: u32,
    width: u32,
    height: u32,
    reduction: &[u8],
    scale: &[u8],
    pixels: &'a [u8],
    opaque: &'a [u8],
    places: &mut [u8],
    oklab: &mut [f32],
    count: &mut u32,
) -> u32
    ensures { let x = lent_to shift width height reduction.now scale.now pixels.now opaque.now
        places.old oklab.old in
        PromisedCandidateColorsIn reducing x count.old (result, places.new, oklab.new, count.new) }
{
    let Ok(by) = Reducing::try_from(reducing) else {
        return u32::from(Refusal::KindOrShift);
    };
    let counted = candidates::candidate_colors_in(
        shift, by, width, height, reduction, scale, pixels, opaque, places, oklab,
    );
    handed(counted, count)
}

// Quantizes a picture to a palette; 1, 15, 2, 3 and 4.
#[unsafe(no_mangle)]
pub extern "C" fn badge_quantize_pixels(
    shift: u32,
    reducing: u32,
    kind: u32,
    width: u32,
    height: u32,
    reduction: &[u8],
    scale: &[u8],
    palette: &[u8],
    pixels: &[u8],
    opaque: &[u8],
    indices: &mut [u8],
    out: &mut [u8],
    cells: &mut [i16],
) -> u32
    ensures { let q = asked shift kind width height reduction.now scale.now palette.now pixels.now
        opaque.now in
        PromisedQuantizePixels reducing q indices.old out.old cells.old
        (result, indices.new, out.new, cells.new) }
{
    let Ok(by) = Reducing::try_from(reducing) else {
        return u32::from(Refusal::KindOrShift);
    };
    replied(quantize::quantize_pixels(
        shift, by, kind, width, height, reduction, scale, palette, pixels, opaque, indices, out,
        cells,
    ))
}

// Colour zero as the flag and the bytes have it.
fn color_zero(has_zero: u32, r: u8, g: u8, b: u8, a: u8) -> Option<ReducedColor>
    ensures { result ≡ zero_of has_zero r g b a }
{
    if has_zero == 0 {
        return None;
    }
    Some(ReducedColor::new(r, g, b, a))
}

// Dithers a picture to a mode and judges its tiles; 1, 15, 2, 3, 5, 7 and 8. After 8 there are a count and a tile, too.
#[unsafe(no_mangle)]
pub extern "C" fn badge_dither_to_mode<'a>(
    shift: u32,
    reducing: u32,
    kind: u32,
    width: u32,
    height: u32,
    origin_x: u32,
    origin_y: u32,
    tile_width: u32,
    tile_height: u32,
    limit: u32,
    has_zero: u32,
    zero_r: u8,
    zero_g: u8,
    zero_b: u8,
    zero_a: u8,
    reduction: &[u8],
    scale: &[u8],
    pixels: &'a [u8],
    opaque: &'a [u8],
    places: &mut [u8],
    oklab: &mut [f32],
    out: &mut [u8],
    cells: &mut [i16],
    count: &mut u32,
    tile: &mut u32,
) -> u32
    ensures { let zero = zero_of has_zero zero_r zero_g zero_b zero_a in
        let q = drawn_by (settings_of shift kind width height origin_x origin_y tile_width tile_height limit zero)
        reduction.now scale.now pixels.now opaque.now in
        let was = mode.buffers places.old oklab.old out.old cells.old in
        let then = mode.buffers places.new oklab.new out.new cells.new in
        PromisedDitherToMode reducing q was count.old tile.old (result, then, count.new, tile.new) }
{
    let Ok(reducing) = Reducing::try_from(reducing) else {
        return u32::from(Refusal::KindOrShift);
    };
    let settings = Settings {
        kind,
        shift,
        reducing,
        width,
        height,
        origin_x,
        origin_y,
        tile_width,
        tile_height,
        limit,
        zero: color_zero(has_zero, zero_r, zero_g, zero_b, zero_a),
    };
    match dither::dither_to_mode(
        settings, reduction, scale, pixels, opaque, places, oklab, out, cells,
    ) {
        Ok(k) => {
            *count = k;
            0
        }
        // Kept: 8 as a number. The error is taken apart here, so that it has none to be asked for.
        Err(DitherError::TileOver { tile: t, count: k }) => {
            *tile = t;
            *count = k;
            8
        }
        Err(DitherError::Refused(refusal)) => u32::from(refusal),
    }
}

// ---- PAM files; the numbers below are in the order of document 02, in which 10 comes before 2, and 11 before 3

// The width and height of a file's picture; 10, 2 and 11.
#[unsafe(no_mangle)]
pub extern "C" fn badge_pam_size(file: &[u8], width: &mut u32, height: &mut u32) -> u32
    ensures { PromisedPamSize file.now width.old height.old (result, width.new, height.new) }
{
    handed_size(pam::pam_size(file), width, height)
}

// A file's pixels, and the width and height of its picture; 10, 2, 11 and 3.
#[unsafe(no_mangle)]
pub extern "C" fn badge_read_pam(
    file: &[u8],
    pixels: &mut [u8],
    width: &mut u32,
    height: &mut u32,
) -> u32
    ensures { PromisedReadPam file.now pixels.old width.old height.old
        (result, pixels.new, width.new, height.new) }
{
    handed_size(pam::read_pam(file, pixels), width, height)
}

// How many bytes a picture's file takes; 10 and 2.
#[unsafe(no_mangle)]
pub extern "C" fn badge_pam_length(width: u32, height: u32, length: &mut u64) -> u32
    ensures { PromisedPamLength width height length.old (result, length.new) }
{
    handed(pam::pam_length(width, height), length)
}

// Writes a picture's file; 10, 2 and 3.
#[unsafe(no_mangle)]
pub extern "C" fn badge_write_pam(width: u32, height: u32, pixels: &[u8], file: &mut [u8]) -> u32
    ensures { PromisedWritePam width height pixels.now file.old (result, file.new) }
{
    replied(pam::write_pam(width, height, pixels, file))
}
