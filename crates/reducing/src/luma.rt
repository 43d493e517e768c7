// The luma of a colour, named as in src/color.rs, by the same f32 operations in the same order. `as u8` is here a search: the
// byte at which the float is cut is looked for from a whole number near it, and each step asks the float alone.
ghost use Rattle.std.specs.Prelude.{◌≡◌, ◌≤◌};
ghost use Rattle.floats.specs.Bounds.{Upto};
ghost use Rattle.reducing.specs.Luma.{unit, luma_f32, cut_byte, luma_u8};

use color::NormalizedColor;

// A byte as a share of 255.
fn unit(v: u8) -> f32
    ensures { result ≡ unit v }
{
    v as f32 / 255.0
}

// Rec. 709 luma, from 0 to 1.
fn luma_f32(c: NormalizedColor) -> f32
    ensures { result ≡ luma_f32 c }
{
    let r = unit(c.0.r);
    let g = unit(c.0.g);
    let b = unit(c.0.b);
    r * 0.2126 + g * 0.7152 + b * 0.0722
}

// A whole number near the luma: the same sum in ten thousandths. Whatever it were, `cut` would find the byte.
fn near_luma(c: NormalizedColor) -> u8 {
    let sum = 2126 * c.0.r as u32 + 7152 * c.0.g as u32 + 722 * c.0.b as u32;
    (sum / 10000) as u8
}

// The number itself, or the first below it that is not above x. No public call: the caller sees to x.
fn cut_down(x: f32, near: u8) -> u8
    requires { Upto 255 x }
    ensures { result ≤ cut_byte x }
{
    // Kept: no end is counted to, and a `for` downward would add one and a return.
    let mut n = near;
    while x < n as f32 {
        n -= 1;
    }
    n
}

// The byte at which x is cut, from one that is not above it. No public call: the caller sees to x and to the number.
fn cut_up(x: f32, low: u8) -> u8
    requires { Upto 255 x × (low ≤ cut_byte x) }
    ensures { result ≡ cut_byte x }
{
    for n in low..255 {
        if x < (n + 1) as f32 {
            return n;
        }
    }
    255
}

// The byte at which x is cut: its whole part. No public call: the caller sees to x.
//
// Kept a search: with `x.trunc() as u8` a picture's candidates in greys take 1.7 times as long, and are no longer listed twice
// as fast as by the original.
fn cut(x: f32, near: u8) -> u8
    requires { Upto 255 x }
    ensures { result ≡ cut_byte x }
{
    cut_up(x, cut_down(x, near))
}

// Rec. 709 luma, as a byte.
pub fn luma_u8(c: NormalizedColor) -> u8
    ensures { result ≡ luma_u8 c }
{
    let scaled = luma_f32(c) * 255.0;
    cut(scaled.clamp(0.0, 255.0), near_luma(c))
}
