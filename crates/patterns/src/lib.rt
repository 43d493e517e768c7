// Thresholds and kernels: the kinds of dithering by number, the threshold matrices, and the two kernels of error diffusion.
// The kinds, the matrices, the kernels and `ordered_threshold` are named as in src/dither.rs, and the kinds and each kernel's
// targets stand in its order. There a kernel is a list of tuples and a kind has no number; here a kernel is an array of
// targets, and all that goes by a kind's number is added. The stipples are retired: their numbers are theirs, and no more.
#![tactic(auto)]

ghost use Rattle.std.specs.Prelude.{◌≡◌, ◌<◌, ◌≤◌, T, ok_or};
ghost use Rattle.replies.specs.declared.Refusal.TheVariants.{KindOrShift};
ghost use Rattle.patterns.specs.Kernel.{atkinson, floyd_steinberg, all_near};
ghost use Rattle.patterns.specs.Kinds.{kind_of, is_kind, is_retired, is_ordered, is_diffusion, cells_needed};
ghost use Rattle.patterns.specs.Thresholds.{threshold_from, entry_in, threshold_at, OrderedThresholdAnswered};

use replies::Refusal;

// A kind of dithering.
#[derive(Clone, Copy, Debug, PartialEq, Eq, Hash)]
pub enum Dither {
    // No dithering.
    Off,
    // Bayer 2x2 dithering.
    Bayer2x2,
    // Bayer 4x4 dithering.
    Bayer4x4,
    // Bayer 8x8 dithering.
    Bayer8x8,
    // Checkerboard dithering.
    Checker,
    // Vertical stippled dithering: retired.
    StippleV,
    // Horizontal stippled dithering: retired.
    StippleH,
    // Vertical line dithering.
    LineV,
    // Horizontal line dithering.
    LineH,
    // Atkinson error-diffusion dithering.
    Atkinson,
    // Floyd-Steinberg error-diffusion dithering.
    FloydSteinberg,
}

// The kind with a number; 1 for a number above 10. No array of them: that would be laid out on the stack at each call.
impl TryFrom<u32> for Dither {
    type Error = Refusal;

    ghost try_from_gives = { λ kind r. r ≡ ok_or (kind_of kind) KindOrShift };

    #[tactic(auto, using(crate::proofs::Numbers::kind_above), unfolding(crate::specs::Kinds::kind_of))]
    fn try_from(kind: u32) -> Result<Dither, Refusal> {
        match kind {
            0 => Ok(Dither::Off),
            1 => Ok(Dither::Bayer2x2),
            2 => Ok(Dither::Bayer4x4),
            3 => Ok(Dither::Bayer8x8),
            4 => Ok(Dither::Checker),
            5 => Ok(Dither::StippleV),
            6 => Ok(Dither::StippleH),
            7 => Ok(Dither::LineV),
            8 => Ok(Dither::LineH),
            9 => Ok(Dither::Atkinson),
            10 => Ok(Dither::FloydSteinberg),
            _ => Err(Refusal::KindOrShift),
        }
    }
}

// The kind with a number, if there is one.
pub fn dither_of(kind: u32) -> Option<Dither>
    ensures { result ≡ kind_of kind }
{
    Dither::try_from(kind).ok()
}

// Kept: the next four test the number, and not the kind. The public calls and C name a kind by its number (document 01), and a
// drawing tests it at each pixel, where by `dither_of` a test takes half as long again.

// Whether there is a kind with this number, retired or not.
#[tactic(auto, using(crate::proofs::Numbers::kind_is))]
pub fn is_kind(kind: u32) -> bool
    ensures { result ≡ is_kind kind }
{
    kind <= 10
}

// Whether a kind is retired: StippleV or StippleH.
pub fn is_retired(kind: u32) -> bool
    ensures { result ≡ is_retired kind }
{
    (kind == 5) | (kind == 6)
}

// Whether a kind dithers by a matrix: from Bayer2x2 to Checker, LineV or LineH.
#[tactic(auto, using(crate::proofs::Numbers::ordered_is))]
pub fn is_ordered(kind: u32) -> bool
    ensures { result ≡ is_ordered kind }
{
    ((1 <= kind) & (kind <= 4)) | ((kind == 7) | (kind == 8))
}

// Whether a kind diffuses error: Atkinson or FloydSteinberg.
#[tactic(auto, using(crate::proofs::Numbers::diffusion_is))]
pub fn is_diffusion(kind: u32) -> bool
    ensures { result ≡ is_diffusion kind }
{
    (kind == 9) | (kind == 10)
}

// How many error cells a picture needs: three a pixel for diffusion, else none. No public call: the caller sees to the
// size.
#[tactic(auto, unfolding(crate::specs::Kinds::cells_needed))]
pub fn cells_needed(kind: u32, size: usize) -> usize
    requires { size ≤ 1048576 }
    ensures { result ≡ cells_needed kind size }
{
    if is_diffusion(kind) { 3 * size } else { 0 }
}

// ---- thresholds

const BAYER_2X2_MATRIX: [[u8; 2]; 2] = [[0, 2], [3, 1]];

const BAYER_4X4_MATRIX: [[u8; 4]; 4] = [
    [0, 8, 2, 10],
    [12, 4, 14, 6],
    [3, 11, 1, 9],
    [15, 7, 13, 5],
];

const BAYER_8X8_MATRIX: [[u8; 8]; 8] = [
    [0, 48, 12, 60, 3, 51, 15, 63],
    [32, 16, 44, 28, 35, 19, 47, 31],
    [8, 56, 4, 52, 11, 59, 7, 55],
    [40, 24, 36, 20, 43, 27, 39, 23],
    [2, 50, 14, 62, 1, 49, 13, 61],
    [34, 18, 46, 30, 33, 17, 45, 29],
    [10, 58, 6, 54, 9, 57, 5, 53],
    [42, 26, 38, 22, 41, 25, 37, 21],
];

const CHECKER_MATRIX: [[u8; 2]; 2] = [[0, 1], [1, 0]];

const LINE_V_MATRIX: [[u8; 2]; 2] = [[1, 0], [1, 0]];

const LINE_H_MATRIX: [[u8; 2]; 2] = [[1, 1], [0, 0]];

// The threshold of an entry.
fn threshold_from(entry: u8, n: f32) -> f32
    ensures { result ≡ threshold_from entry n }
{
    (entry as f32 + 0.5) / n
}

// The threshold at row y and column x of a matrix, both reduced to its size.
fn threshold_in<const N: usize>(matrix: [[u8; N]; N], n: f32, x: u32, y: u32) -> f32
    requires { 0 < N }
    ensures { result ≡ threshold_from (entry_in N matrix.entry x y) n }
{
    threshold_from(matrix[y as usize % N][x as usize % N], n)
}

// The threshold of a kind at column x and row y; 1 for a number above 10; 15 for a retired kind; 9 for one that has no
// matrix.
//
// Kept: the public call and C name a kind by its number, of which 1 and 15 are answered.
pub fn ordered_threshold(kind: u32, x: u32, y: u32) -> Result<f32, Refusal>
    ensures { OrderedThresholdAnswered kind x y result }
{
    match Dither::try_from(kind)? {
        Dither::Bayer2x2 => Ok(threshold_in(BAYER_2X2_MATRIX, 4.0, x, y)),
        Dither::Bayer4x4 => Ok(threshold_in(BAYER_4X4_MATRIX, 16.0, x, y)),
        Dither::Bayer8x8 => Ok(threshold_in(BAYER_8X8_MATRIX, 64.0, x, y)),
        Dither::Checker => Ok(threshold_in(CHECKER_MATRIX, 2.0, x, y)),
        Dither::StippleV | Dither::StippleH => Err(Refusal::RetiredKind),
        Dither::LineV => Ok(threshold_in(LINE_V_MATRIX, 2.0, x, y)),
        Dither::LineH => Ok(threshold_in(LINE_H_MATRIX, 2.0, x, y)),
        Dither::Off | Dither::Atkinson | Dither::FloydSteinberg => Err(Refusal::NoMatrix),
    }
}

// The threshold of an ordered kind. No public call: the caller sees to the kind.
//
// Kept: a number, as `drawing::Ditherer`'s, since the definition of what is drawn asks of the number.
pub fn threshold_at(kind: u32, x: u32, y: u32) -> f32
    requires { T (is_ordered kind) }
    ensures { result ≡ threshold_at kind x y }
{
    ordered_threshold(kind, x, y).unwrap()
}

// ---- kernels of error diffusion

// A target lies dx columns to the right and dy rows down, and gets weight sixteenths of the residual: sixteen times the
// source's factor.
#[derive(Clone, Copy, Debug, PartialEq, Eq, Hash)]
pub struct Target {
    pub dx: i32,
    pub dy: u32,
    pub weight: u8,
}

pub type ErrorKernel<const N: usize> = [Target; N];

const ATKINSON_KERNEL: ErrorKernel<6> = [
    Target {
        dx: 1,
        dy: 0,
        weight: 2,
    },
    Target {
        dx: 2,
        dy: 0,
        weight: 2,
    },
    Target {
        dx: -1,
        dy: 1,
        weight: 2,
    },
    Target {
        dx: 0,
        dy: 1,
        weight: 2,
    },
    Target {
        dx: 1,
        dy: 1,
        weight: 2,
    },
    Target {
        dx: 0,
        dy: 2,
        weight: 2,
    },
];

const FLOYD_STEINBERG_KERNEL: ErrorKernel<4> = [
    Target {
        dx: 1,
        dy: 0,
        weight: 7,
    },
    Target {
        dx: -1,
        dy: 1,
        weight: 3,
    },
    Target {
        dx: 0,
        dy: 1,
        weight: 5,
    },
    Target {
        dx: 1,
        dy: 1,
        weight: 1,
    },
];

// The constants, for other crates; each target is near.
// Kept: a function for each, since a constant has no contract.
#[tactic(auto, unfolding(crate::specs::Kernel::all_near))]
pub fn atkinson_kernel() -> ErrorKernel<6>
    ensures targets { result ≡ atkinson }
    ensures close { T (all_near result) }
{
    ATKINSON_KERNEL
}

#[tactic(auto, unfolding(crate::specs::Kernel::all_near))]
pub fn floyd_steinberg_kernel() -> ErrorKernel<4>
    ensures targets { result ≡ floyd_steinberg }
    ensures close { T (all_near result) }
{
    FLOYD_STEINBERG_KERNEL
}
