// The examples that are whole calls: E7 to E9 and E11's palettes by `quantize_pixels`, E10 and E11's tile side by
// `dither_to_mode`, all by alpha; and our own, greys by `candidate_colors_in`. What a call is to write is lent with other
// contents.
use crate::account::{Account, Drawn, Shares};
use dither::{DitherError, Settings};
use reducing::Reducing;
use replies::Refusal;

// The table that leaves every byte as it is.
fn identity() -> [u8; 256] {
    std::array::from_fn(|i| (i % 256) as u8)
}

// ---- E7 to E9: two pixels in a row with the sources 80 and 0, and a palette of black alone

// A kind with a kernel, by its number, and how that shares in a row of two.
// Kept: the kind by its number, as the call takes it.
#[derive(Clone, Copy)]
struct Kernel {
    kind: u32,
    shares: Shares,
}

const FLOYD_STEINBERG: Kernel = Kernel {
    kind: 10,
    shares: Shares {
        right: 7,
        others: 9,
        held: 0,
    },
};

const ATKINSON: Kernel = Kernel {
    kind: 9,
    shares: Shares {
        right: 2,
        others: 10,
        held: 4,
    },
};

// Whether the two pixels, the second with this alpha, become black, entry 0, and leave the account that is said. The second
// is transparent where its alpha is 0.
fn pair_is(kernel: Kernel, alpha: u8, said: Account) -> bool {
    let table = identity();
    let pixels = [80, 80, 80, 255, 0, 0, 0, alpha];
    let mut indices = [7; 2];
    let mut out = [7; 8];
    let mut cells = [120; 6];
    let answer = quantize::quantize_pixels(
        3,
        Reducing::ByAlpha,
        kernel.kind,
        2,
        1,
        &table,
        &table,
        &[0, 0, 0, 255],
        &pixels,
        &[],
        &mut indices,
        &mut out,
        &mut cells,
    );
    let drawn = Drawn {
        pixels: &pixels,
        out: &out,
        cells: &cells,
    };
    answer.is_ok()
        && indices == [0, 0]
        && out == [0, 0, 0, 255, 0, 0, 0, alpha]
        && kernel.shares.are_said(drawn, said)
}

// 1280 = 0 + 0 + (720 + 560)
pub fn e7() -> bool {
    let said = Account {
        excess: 1280,
        lost: 0,
        skipped: 0,
        first_dropped: 720,
        second_dropped: 560,
        first_held: 0,
        second_held: 0,
    };
    pair_is(FLOYD_STEINBERG, 255, said)
}

// 1280 = 0 + 0 + (800 + 120) + (320 + 40)
pub fn e8() -> bool {
    let said = Account {
        excess: 1280,
        lost: 0,
        skipped: 0,
        first_dropped: 800,
        second_dropped: 120,
        first_held: 320,
        second_held: 40,
    };
    pair_is(ATKINSON, 255, said)
}

// 1280 = 0 + 560 + 720
pub fn e9() -> bool {
    let said = Account {
        excess: 1280,
        lost: 0,
        skipped: 560,
        first_dropped: 720,
        second_dropped: 0,
        first_held: 0,
        second_held: 0,
    };
    pair_is(FLOYD_STEINBERG, 0, said)
}

// ---- E10: six pixels in a row, in two tiles of three

fn in_tiles(width: u32, height: u32, limit: u32) -> Settings {
    Settings {
        kind: 0,
        shift: 3,
        reducing: Reducing::ByAlpha,
        width: 6,
        height: 1,
        origin_x: 0,
        origin_y: 0,
        tile_width: width,
        tile_height: height,
        limit,
        zero: None,
    }
}

fn dithered(settings: Settings, pixels: &[u8]) -> Result<u32, DitherError> {
    let table = identity();
    let mut places = [7; 24];
    let mut oklab = [7.5; 18];
    let mut out = [7; 24];
    let mut cells = [];
    dither::dither_to_mode(
        settings,
        &table,
        &table,
        pixels,
        &[],
        &mut places,
        &mut oklab,
        &mut out,
        &mut cells,
    )
}

// Whether a picture of this limit is accepted with so many candidates.
fn is_accepted(limit: u32, pixels: &[u8], candidates: u32) -> bool {
    dithered(in_tiles(3, 1, limit), pixels) == Ok(candidates)
}

// Whether its first tile over the limit is the second, and it has so many candidates.
fn is_over(limit: u32, pixels: &[u8], candidates: u32) -> bool {
    let over = DitherError::TileOver {
        tile: 1,
        count: candidates,
    };
    dithered(in_tiles(3, 1, limit), pixels) == Err(over)
}

// A first tile that is transparent, and a second of opaque pixels with these reds.
fn reds(a: u8, b: u8, c: u8) -> [u8; 24] {
    [
        1, 2, 3, 127, 4, 5, 6, 127, 7, 8, 9, 127, a, 0, 0, 255, b, 0, 0, 255, c, 0, 0, 255,
    ]
}

pub fn e10() -> bool {
    let mut one_opaque = [9; 24];
    one_opaque[19] = 255;
    is_accepted(0, &[9; 24], 0)
        && is_over(0, &one_opaque, 1)
        && is_accepted(2, &reds(10, 20, 10), 2)
        && is_over(2, &reds(10, 20, 30), 3)
}

// ---- E11: palettes of 256 and 257 entries, tile side 0

fn quantized(palette: &[u8]) -> Result<(), Refusal> {
    let table = [0; 256];
    quantize::quantize_pixels(
        3,
        Reducing::ByAlpha,
        0,
        1,
        1,
        &table,
        &table,
        palette,
        &[9, 9, 9, 255],
        &[],
        &mut [7; 1],
        &mut [7; 4],
        &mut [],
    )
}

// Whether tiles of this size are refused.
fn is_refused(width: u32, height: u32) -> bool {
    dithered(in_tiles(width, height, 2), &[9; 24]) == Err(DitherError::Refused(Refusal::Tiles))
}

pub fn e11() -> bool {
    quantized(&[0; 1024]) == Ok(())
        && quantized(&[0; 1028]) == Err(Refusal::Entries)
        && is_refused(0, 1)
        && is_refused(3, 0)
}

// ---- greys: white, 53, black and 61, by their lumas. No alpha is asked, and of the picture's own pixels nothing.

// Four greys, with the alpha t.
fn four(a: u8, b: u8, c: u8, d: u8, t: u8) -> [u8; 16] {
    [a, a, a, t, b, b, b, t, c, c, c, t, d, d, d, t]
}

pub fn greys() -> bool {
    let table = identity();
    let mut places = [7; 16];
    let mut oklab = [7.5; 12];
    let count = candidates::candidate_colors_in(
        6,
        Reducing::Grey,
        4,
        1,
        &table,
        &table,
        &[9; 16],
        &four(255, 53, 0, 61, 0),
        &mut places,
        &mut oklab,
    );
    count == Ok(4) && places == four(0, 52, 60, 255, 255)
}
