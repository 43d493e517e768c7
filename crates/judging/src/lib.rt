// Judging a picture: the first tile whose pixels have more different colours than the limit, as `dither_to_mode` of
// src/dither.rs finds it.
#![tactic(auto)]

mod colors;

ghost use Rattle.std.specs.Prelude.{◌≡◌, ◌+◌, ◌*◌, ◌≤◌, ◌<◌, cond, length};
ghost use Rattle.color.specs.Color.{reduced_at, same_reduced};
ghost use Rattle.picture.specs.Pixels.{seen_from};
ghost use Rattle.lists.specs.Different.{add_new};
ghost use Rattle.judging.specs.Tiles.{tiles_over, judged_of};

use color::ReducedColor;
use colors::TileColors;

// A picture's size, its tiles' sides, and how many colours a tile may have.
#[derive(Clone, Copy)]
pub struct Tiling {
    pub width: u32,
    pub height: u32,
    pub tile_width: u32,
    pub tile_height: u32,
    pub limit: u32,
    pub ghost wide: { width ≤ 4096 },
    pub ghost high: { height ≤ 4096 },
    pub ghost some_wide: { 1 ≤ tile_width },
    pub ghost tile_wide: { tile_width ≤ 4096 },
    pub ghost some_high: { 1 ≤ tile_height },
    pub ghost tile_high: { tile_height ≤ 4096 },
    pub ghost few: { limit ≤ 256 },
}

impl Tiling {
    // How many tiles stand in a row.
    fn across(self) -> u32
        ensures { result ≡ tiles_over self.width self.tile_width }
    {
        (self.width + self.tile_width - 1) / self.tile_width
    }

    // How many rows of tiles there are.
    fn down(self) -> u32
        ensures { result ≡ tiles_over self.height self.tile_height }
    {
        (self.height + self.tile_height - 1) / self.tile_height
    }
}

// A pixel's turn: its colour joins those of its tile, unless the pixel is transparent or the colour is there already.
fn add_pixel(chosen: &[u8], least: u8, pixels: &[u8], i: usize, colors: &mut TileColors)
    requires chosen { 4 * i + 3 < length chosen.now }
    requires lent { 4 * i + 3 < length pixels.now }
    requires room { length colors.old < 257 }
    ensures { colors.new ≡ cond (seen_from least pixels.now i)
        (add_new same_reduced (reduced_at chosen.now i) colors.old) colors.old }
{
    if picture::is_seen(least, pixels, i) {
        colors.add(ReducedColor(color::rgba_at(chosen, i)));
    }
}

// Judges the chosen reduced colours of a picture, four bytes a pixel, against the tile limit: the number of the first tile that
// is over it, if one is. `pixels` is the source, whose alphas say what is transparent: those below the least. No public call: the
// caller sees to the lengths.
// Kept, the least beside the pixels: two parameters, of any least, as in `drawing::finish`.
// Kept, four loops in one function, as document 01 names it: tile rows, tiles, rows and pixels, left by a label with the tile's
// number at the first pixel that overfills its tile.
pub fn judge(chosen: &[u8], least: u8, pixels: &[u8], tiling: Tiling) -> Option<u32>
    requires chosen { length chosen.now ≡ 4 * (tiling.width * tiling.height) }
    requires lent { length pixels.now ≡ 4 * (tiling.width * tiling.height) }
    ensures { result ≡ judged_of (seen_from least pixels.now) (reduced_at chosen.now)
        tiling.width tiling.height tiling.tile_width tiling.tile_height tiling.limit }
{
    let limit = tiling.limit as usize;
    let across = tiling.across();
    let down = tiling.down();
    let mut colors = TileColors::none();
    'tiles: {
        for row in 0..down {
            let top = row * tiling.tile_height;
            let bottom = (top + tiling.tile_height).min(tiling.height);
            for column in 0..across {
                let left = column * tiling.tile_width;
                let right = (left + tiling.tile_width).min(tiling.width);
                colors.clear();
                for y in top..bottom {
                    for x in left..right {
                        add_pixel(
                            chosen,
                            least,
                            pixels,
                            (y * tiling.width + x) as usize,
                            &mut colors,
                        );
                        if limit < colors.len() {
                            break 'tiles Some(across * row + column);
                        }
                    }
                }
            }
        }
        None
    }
}
