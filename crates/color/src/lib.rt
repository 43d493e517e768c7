// The colours of the dither: an RGBA record, the two kinds of colour over it, Oklab colours with their distance, and
// the crossing from reduced to normalised colours, through the lent table (the other one is the crate `reducing`).
// `Rgba8888`, `NormalizedColor`, `ReducedColor`, `CandidateColor`, `eq_rgb` and `oklab_sqdist` are named as in src/color.rs,
// `normalize_color` as in src/mode/color.rs. There `oklab_sqdist` answers for every colour, as `sqdist` does here;
// `is_transparent` is asked of reduced colours alone. All else that is not there is added.
#![tactic(auto)]

ghost use Rattle.std.specs.Prelude.{◌≡◌, ◌+◌, ◌*◌, ◌<◌, length, get_or};
ghost use Rattle.std.proofs.lemmas.List.Edits.{sets};
ghost use Rattle.color.specs.Color.{rgba, is_transparent, EqRgbAnswered, rgba_at, bytes_of};
ghost use Rattle.color.specs.Tables.{normalize_color};
ghost use Rattle.color.specs.Oklab.{in_range, all_in_range, sqdist_of, OklabSqdistAnswered, oklab_at, floats_of};

use replies::Refusal;

// A raw colour, eight bits a channel.
#[derive(Clone, Copy, Debug, PartialEq, Eq, Hash)]
pub struct Rgba8888 {
    pub r: u8,
    pub g: u8,
    pub b: u8,
    pub a: u8,
}

impl Rgba8888 {
    pub const TRANSPARENT: Rgba8888 = Rgba8888 {
        r: 0,
        g: 0,
        b: 0,
        a: 0,
    };

    pub fn new(r: u8, g: u8, b: u8, a: u8) -> Self
        ensures { result ≡ rgba r g b a }
    {
        Rgba8888 { r, g, b, a }
    }
}

// A colour at full precision.
//
// Kept apart from `ReducedColor`, as in src/color.rs: neither may stand for the other, and one type over a marker would be no
// plainer.
#[derive(Clone, Copy, Debug, PartialEq, Eq, Hash)]
pub struct NormalizedColor(pub Rgba8888);

impl NormalizedColor {
    pub const TRANSPARENT: NormalizedColor = NormalizedColor(Rgba8888::TRANSPARENT);

    pub fn new(r: u8, g: u8, b: u8, a: u8) -> Self
        ensures { result.0 ≡ rgba r g b a }
    {
        NormalizedColor(Rgba8888::new(r, g, b, a))
    }
}

// A colour at a mode's own precision.
#[derive(Clone, Copy, Debug, PartialEq, Eq, Hash)]
pub struct ReducedColor(pub Rgba8888);

impl ReducedColor {
    pub const TRANSPARENT: ReducedColor = ReducedColor(Rgba8888::TRANSPARENT);

    pub fn new(r: u8, g: u8, b: u8, a: u8) -> Self
        ensures { result.0 ≡ rgba r g b a }
    {
        ReducedColor(Rgba8888::new(r, g, b, a))
    }

    pub fn is_transparent(self) -> bool
        ensures { result ≡ is_transparent self.0 }
    {
        self.0.a == 0
    }
}

// Whether two colours have the same red, green and blue, whatever their alphas are.
//
// Kept: a derived `==` would ask for the alphas too.
#[tactic(auto, unfolding(crate::specs::Color::same_rgb))]
pub fn eq_rgb(a: ReducedColor, b: ReducedColor) -> bool
    ensures { EqRgbAnswered a b result }
{
    (a.0.r == b.0.r) & ((a.0.g == b.0.g) & (a.0.b == b.0.b))
}

// ---- colours in lent bytes, four a colour

// Colour i of a lent list. No public call: the caller sees to the length.
#[tactic(auto, unfolding(crate::specs::Color::rgba_at))]
pub fn rgba_at(bytes: &[u8], i: usize) -> Rgba8888
    requires { 4 * i + 3 < length bytes.now }
    ensures { result ≡ rgba_at bytes.now i }
{
    let at = 4 * i;
    Rgba8888 {
        r: bytes[at],
        g: bytes[at + 1],
        b: bytes[at + 2],
        a: bytes[at + 3],
    }
}

// Writes a colour as colour i of a lent list. No public call: the caller sees to the length.
pub fn put_rgba(bytes: &mut [u8], i: usize, c: Rgba8888)
    requires { 4 * i + 3 < length bytes.old }
    ensures { bytes.new ≡ sets bytes.old (4 * i) (bytes_of c) }
{
    let at = 4 * i;
    bytes[at] = c.r;
    bytes[at + 1] = c.g;
    bytes[at + 2] = c.b;
    bytes[at + 3] = c.a;
}

// ---- through a lent table

// The entry of a lent table for a byte.
pub fn looked_up(table: &[u8; 256], v: u8) -> u8
    ensures { result ≡ get_or table.now v 0 }
{
    table[v as usize]
}

// All four bytes through the scale table.
pub fn normalize_color(scale: &[u8; 256], c: ReducedColor) -> NormalizedColor
    ensures { result ≡ normalize_color scale.now c }
{
    NormalizedColor(Rgba8888 {
        r: looked_up(scale, c.0.r),
        g: looked_up(scale, c.0.g),
        b: looked_up(scale, c.0.b),
        a: looked_up(scale, c.0.a),
    })
}

// ---- Oklab

#[derive(Clone, Copy, Debug, PartialEq)]
pub struct Oklab {
    pub l: f32,
    pub a: f32,
    pub b: f32,
}

// A candidate: a reduced colour, its full precision form, and that form's Oklab colour.
#[derive(Clone, Copy, Debug, PartialEq)]
pub struct CandidateColor {
    pub reduced: ReducedColor,
    pub normalized: NormalizedColor,
    pub oklab: Oklab,
}

// How much a difference of chroma counts beside one of lightness.
const CHROMA_WEIGHT: f32 = 2.15;

// From -2 to 2. A NaN is not.
pub fn in_range(x: f32) -> bool
    ensures { result ≡ in_range x }
{
    (-2.0 <= x) & (x <= 2.0)
}

#[tactic(auto, unfolding(crate::specs::Oklab::all_in_range))]
pub fn all_in_range(c: Oklab) -> bool
    ensures { result ≡ all_in_range c }
{
    in_range(c.l) & (in_range(c.a) & in_range(c.b))
}

// The squared distance of two colours, with a and b weighted, whatever the components are.
pub fn sqdist(a: Oklab, b: Oklab) -> f32
    ensures { result ≡ sqdist_of a b }
{
    let dl = a.l - b.l;
    let da = a.a - b.a;
    let db = a.b - b.b;
    dl * dl + CHROMA_WEIGHT * (da * da + db * db)
}

// The squared distance, or 6 where a component is not from -2 to 2.
pub fn oklab_sqdist(a: Oklab, b: Oklab) -> Result<f32, Refusal>
    ensures { OklabSqdistAnswered a b result }
{
    if all_in_range(a) & all_in_range(b) {
        return Ok(sqdist(a, b));
    }
    Err(Refusal::Component)
}

// ---- Oklab colours in lent floats, three a colour
// Kept beside those of bytes: one pair over both would take a trait with a size and two conversions for each, and be no plainer.

// Colour i of a lent list. No public call: the caller sees to the length.
#[tactic(auto, unfolding(crate::specs::Oklab::oklab_at))]
pub fn oklab_at(list: &[f32], i: usize) -> Oklab
    requires { 3 * i + 2 < length list.now }
    ensures { result ≡ oklab_at list.now i }
{
    let at = 3 * i;
    Oklab {
        l: list[at],
        a: list[at + 1],
        b: list[at + 2],
    }
}

// Writes a colour as colour i of a lent list. No public call: the caller sees to the length.
pub fn put_oklab(list: &mut [f32], i: usize, c: Oklab)
    requires { 3 * i + 2 < length list.old }
    ensures { list.new ≡ sets list.old (3 * i) (floats_of c) }
{
    let at = 3 * i;
    list[at] = c.l;
    list[at + 1] = c.a;
    list[at + 2] = c.b;
}
