// Mixes of two colours: the share of a colour between two others, the error of a mix, and how wide a bracket is looked
// for. `bracket_width`, `lerp` and `mix_residual` are named as in src/dither.rs, and stand in its order. There
// `bracket_width` is asked for a mode; here it takes the mode's shift, and refuses what is none. The functions under the
// three are added.
#![tactic(auto)]

ghost use Rattle.std.specs.Prelude.{◌≡◌, true};
ghost use Rattle.floats.specs.Bytes.{dot};
ghost use Rattle.mixing.specs.Widths.{is_shift, clamp_width, width_of, BracketWidthAnswered};
ghost use Rattle.mixing.specs.Lerp.{byte_minus, along, share_of, LerpAnswered, mix_of, mix_residual};

use color::NormalizedColor;
use replies::Refusal;

// ---- the width of a bracket

// The widest bracket.
const MAX_BRACKET_WIDTH: u64 = 16;

// Whether a shift is one of the modes'.
#[tactic(auto, unfolding(crate::specs::Widths::is_shift))]
fn is_shift(shift: u32) -> bool
    ensures { result ≡ is_shift shift }
{
    matches!(shift, 3..=6)
}

// A width, brought to 1..16.
pub fn clamp_width(width: u64) -> u64
    ensures { result ≡ clamp_width width }
{
    width.clamp(1, MAX_BRACKET_WIDTH)
}

// The width for a shift. No public call: the caller sees to the shift. From 83 colours on the width is the widest, so
// the product is asked for small numbers only.
pub fn width_of(shift: u32, max: u64) -> u64
    requires { is_shift shift ≡ true }
    ensures { result ≡ width_of shift max }
{
    if max > 256 {
        return MAX_BRACKET_WIDTH;
    }
    clamp_width((max * shift as u64 + 8) / 16)
}

// Number of candidates to consider in `nearest_two`; another shift is refused with 1.
pub fn bracket_width(shift: u32, max: u64) -> Result<u64, Refusal>
    ensures { BracketWidthAnswered shift max result }
{
    if is_shift(shift) {
        return Ok(width_of(shift, max));
    }
    Err(Refusal::KindOrShift)
}

// ---- the share of a colour between two others

// A byte less another.
#[tactic(auto, unfolding(crate::specs::Lerp::byte_minus, floats::specs::Bytes::byte_f))]
fn byte_minus(a: u8, b: u8) -> f32
    ensures { result ≡ byte_minus a b }
{
    a as f32 - b as f32
}

// How far one colour lies from another, in red, green and blue.
#[derive(Clone, Copy)]
struct Offset {
    r: f32,
    g: f32,
    b: f32,
}

impl Offset {
    // Of a colour from another.
    fn between(from: NormalizedColor, to: NormalizedColor) -> Offset
        ensures r { result.r ≡ byte_minus to.0.r from.0.r }
        ensures g { result.g ≡ byte_minus to.0.g from.0.g }
        ensures b { result.b ≡ byte_minus to.0.b from.0.b }
    {
        Offset {
            r: byte_minus(to.0.r, from.0.r),
            g: byte_minus(to.0.g, from.0.g),
            b: byte_minus(to.0.b, from.0.b),
        }
    }

    #[tactic(auto, unfolding(floats::specs::Bytes::dot))]
    fn dot(self, other: Offset) -> f32
        ensures { result ≡ dot self.r self.g self.b other.r other.g other.b }
    {
        self.r * other.r + self.g * other.g + self.b * other.b
    }
}

// Kept: `along`, `share` and `lerp` have the same three colours. `lerp`'s parameters and their order are the original's, and a
// struct for two helpers would be no plainer.

// How far the colour lies from c1 in the direction of c2, times the distance of the two.
#[tactic(auto, unfolding(crate::specs::Lerp::along))]
fn along(c1: NormalizedColor, c2: NormalizedColor, color: NormalizedColor) -> f32
    ensures { result ≡ along c1 c2 color }
{
    Offset::between(c1, color).dot(Offset::between(c1, c2))
}

// The share of c2 in the mix of c1 and c2 that comes nearest to the colour, not clamped.
fn share(c1: NormalizedColor, c2: NormalizedColor, color: NormalizedColor) -> f32
    ensures { result ≡ share_of c1 c2 color }
{
    let len2 = along(c1, c2, c2);
    if len2 == 0.0 {
        return 0.0;
    }
    along(c1, c2, color) / len2
}

// The share of c2 in the mix of c1 and c2 that comes nearest to the colour, brought to 0..1 where that is asked for. Minus zero
// stays.
pub fn lerp(c1: NormalizedColor, c2: NormalizedColor, color: NormalizedColor, clamp: bool) -> f32
    ensures { LerpAnswered c1 c2 color clamp result }
{
    let t = share(c1, c2, color);
    if clamp { t.clamp(0.0, 1.0) } else { t }
}

// ---- the error of a mix

// c1 and c2 mixed at t, in one channel.
#[tactic(auto, unfolding(crate::specs::Lerp::mix_of, floats::specs::Bytes::byte_f))]
fn mix(c1: u8, c2: u8, t: f32) -> f32
    ensures { result ≡ mix_of c1 c2 t }
{
    c1 as f32 + t * byte_minus(c2, c1)
}

// Squared error against `color` after mixing `a` and `b` at `t`. No public call.
pub fn mix_residual(a: NormalizedColor, b: NormalizedColor, t: f32, color: NormalizedColor) -> f32
    ensures { result ≡ mix_residual a b t color }
{
    let off = Offset {
        r: color.0.r as f32 - mix(a.0.r, b.0.r, t),
        g: color.0.g as f32 - mix(a.0.g, b.0.g, t),
        b: color.0.b as f32 - mix(a.0.b, b.0.b, t),
    };
    off.dot(off)
}
