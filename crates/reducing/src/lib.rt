// How a colour reduces to a mode's own precision: by its alpha, to a grey, or as an opaque colour; and which of these goes
// with which shift. `reduce_color` is named as in src/mode/color.rs, where it is asked for a mode and a rounding: here it takes
// the mode's reduction and the lent table. `luma_u8` (luma.rt) is that of src/color.rs. All else is added.
#![tactic(auto)]

mod luma;

ghost use Rattle.std.specs.Prelude.{◌≡◌};
ghost use Rattle.reducing.specs.Reduce.{Numbered, is_pairing, solid, by_alpha, reduce_color, least_alpha, keeps_channels};

use color::{NormalizedColor, ReducedColor, Rgba8888, looked_up};
use luma::luma_u8;
use replies::Refusal;

// How the modes reduce a colour. `ByAlpha`: the colour itself, and transparent where its alpha is below 128. `Grey`: the luma
// of an opaque colour, in all three channels. `OpaqueColor`: an opaque colour's own channels.
#[derive(Clone, Copy, Debug, PartialEq, Eq, Hash)]
pub enum Reducing {
    ByAlpha,
    Grey,
    OpaqueColor,
}

// By its number, as C names it.
impl TryFrom<u32> for Reducing {
    type Error = Refusal;

    ghost try_from_gives = { Numbered };

    fn try_from(number: u32) -> Result<Reducing, Refusal> {
        match number {
            0 => Ok(Reducing::ByAlpha),
            1 => Ok(Reducing::Grey),
            2 => Ok(Reducing::OpaqueColor),
            _ => Err(Refusal::KindOrShift),
        }
    }
}

// Whether some mode reduces so with this shift.
#[tactic(auto, unfolding(crate::specs::Reduce::is_pairing))]
pub fn is_pairing(reducing: Reducing, shift: u32) -> bool
    ensures { result ≡ is_pairing reducing shift }
{
    match reducing {
        Reducing::ByAlpha => matches!(shift, 3..=5),
        Reducing::Grey => matches!(shift, 5 | 6),
        Reducing::OpaqueColor => shift == 6,
    }
}

// Three channels through the reduction table, and alpha 255.
fn solid(reduction: &[u8; 256], r: u8, g: u8, b: u8) -> ReducedColor
    ensures { result ≡ solid reduction.now r g b }
{
    ReducedColor(Rgba8888 {
        r: looked_up(reduction, r),
        g: looked_up(reduction, g),
        b: looked_up(reduction, b),
        a: 255,
    })
}

// Transparent where alpha is below 128; otherwise its channels through the table.
fn by_alpha(reduction: &[u8; 256], c: NormalizedColor) -> ReducedColor
    ensures { result ≡ by_alpha reduction.now c }
{
    if c.0.a < 128 {
        return ReducedColor::TRANSPARENT;
    }
    solid(reduction, c.0.r, c.0.g, c.0.b)
}

// A colour reduced.
#[tactic(auto, unfolding(crate::specs::Reduce::reduce_color))]
pub fn reduce_color(reducing: Reducing, reduction: &[u8; 256], c: NormalizedColor) -> ReducedColor
    ensures { result ≡ reduce_color reducing reduction.now c }
{
    match reducing {
        Reducing::ByAlpha => by_alpha(reduction, c),
        Reducing::Grey => {
            let gray = luma_u8(c);
            solid(reduction, gray, gray, gray)
        }
        Reducing::OpaqueColor => solid(reduction, c.0.r, c.0.g, c.0.b),
    }
}

// The least alpha of a colour that does not reduce to transparent: any will do where every pixel counts as opaque. A test of a
// pixel's alpha against it asks neither for the reduction nor for a luma.
pub fn least_alpha(reducing: Reducing) -> u8
    ensures { result ≡ least_alpha reducing }
{
    match reducing {
        Reducing::ByAlpha => 128,
        Reducing::Grey | Reducing::OpaqueColor => 0,
    }
}

// Whether a colour's own channels go through the table: all reductions but the one to greys.
pub fn keeps_channels(reducing: Reducing) -> bool
    ensures { result ≡ keeps_channels reducing }
{
    reducing != Reducing::Grey
}
