// Drawing a picture: every pixel's choice, for all kinds of dithering, into a lent buffer as reduced bytes, and its position
// among the candidates into another; and finishing it, which gives the choices their full precision. Names are those of
// `Ditherer` in src/dither.rs; the error cells are lent.
#![tactic(auto)]

mod lent;

ghost use Rattle.std.specs.Prelude.{◌≡◌, true, ◌+◌, ◌*◌, ◌/◌, ◌%◌, ◌<◌, length, set};
ghost use Rattle.patterns.specs.Kinds.{is_ordered, is_diffusion, kernel_of};
ghost use Rattle.diffusion.specs.Sends.{Room};
ghost use Rattle.color.specs.Color.{reduced_at};
ghost use Rattle.color.specs.Tables.{normalize_color};
ghost use Rattle.picture.specs.Pixels.{seen_from};
ghost use Rattle.lookup.specs.Positions.{Takes};
ghost use Rattle.remembered.specs.Lent.{entries};
ghost use Rattle.remembered.specs.Shorts.{TableAndRows};
ghost use Rattle.drawing.specs.Drawing.{nearest_color, ordered_color, color_at};
ghost use Rattle.drawing.specs.Lent.{lent_by, drawing_of, reduced_bytes, cells_after, Ready};
ghost use Rattle.drawing.specs.Positions.{TakesAt, PositionsAfter};
ghost use Rattle.drawing.specs.Turns.{Inside, Diffused, cells_by, RemembersNearest, Remembers};
ghost use Rattle.drawing.specs.Finished.{finished, finished_bytes, Finishable};

use color::{NormalizedColor, ReducedColor};
use diffusion::Spot;
pub use lent::Lent;
use lists::fill;
use lookup::Choice;
use remembered::{Candidates, Memory};

// How a picture is dithered.
// Kept: the kind is a number, as in the two calls, which have tested it. The definition of what is drawn (`Drawing`), and so each
// theorem on a picture (`drawn_is`, `turn_end`, the account and the float cells), asks of the number.
// Kept: no invariant holds the bounds of the sides. The definitions of both calls make one of any commission, of a refused one
// too (`quantizing`, `dithering`).
#[derive(Clone, Copy, Debug, PartialEq, Eq, Hash)]
pub struct Ditherer {
    pub kind: u32,
    pub origin_x: u32,
    pub origin_y: u32,
    pub width: u32,
    pub height: u32,
    pub bracket_width: u64,
}

// The nearest candidate. No public call: the caller sees to a candidate and the memory.
fn nearest_color(candidates: &Candidates, color: NormalizedColor, memory: &mut Memory) -> Choice
    requires { (0 < candidates.now.oklabs.count) × RemembersNearest (entries candidates.now) memory.old }
    ensures { let cs = entries candidates.now in Takes cs (nearest_color cs color) result × RemembersNearest cs memory.new }
{
    let k = candidates.oklabs.nearest_position(color, memory);
    let colors = candidates.colors;
    Choice {
        color: ReducedColor(color::rgba_at(colors, k)),
        position: k,
    }
}

// What a skipped pixel keeps: its reduced colour; 0 stands for its position.
fn keeping(c: ReducedColor) -> Choice
    ensures { (result.color ≡ c) × (result.position ≡ 0) }
{
    Choice {
        color: c,
        position: 0,
    }
}

// Notes pixel i's position, where there is room for it. No public call: what has no room is lost.
fn note_position(indices: &mut [u8], i: usize, position: usize)
    ensures { indices.new ≡ set indices.old i (position % 256) }
{
    if i < indices.len() {
        indices[i] = (position % 256) as u8;
    }
}

impl Ditherer {
    // Pixel i's column in the picture. No public call: the caller sees to the pixel.
    fn column(self, i: usize) -> u32
        requires { i < self.width * self.height }
        ensures { (result ≡ i % self.width) × (result < self.width) }
    {
        (i % self.width as usize) as u32
    }

    // Pixel i's row in the picture. No public call: the caller sees to the pixel.
    fn row(self, i: usize) -> u32
        requires { i < self.width * self.height }
        ensures { (result ≡ i / self.width) × (result < self.height) }
    {
        (i / self.width as usize) as u32
    }

    // Pixel i's column in the source picture, where a matrix is read. No public call: the caller sees to the pixel.
    fn source_column(self, i: usize) -> u32
        requires { Inside self i }
        ensures { result ≡ self.origin_x + i % self.width }
    {
        self.origin_x + self.column(i)
    }

    // Pixel i's row in the source picture. No public call: the caller sees to the pixel.
    fn source_row(self, i: usize) -> u32
        requires { Inside self i }
        ensures { result ≡ self.origin_y + i / self.width }
    {
        self.origin_y + self.row(i)
    }

    // ---- one colour
    // Kept, the candidates, the pixel, its colour and the memory one by one in these three: a struct of them would hold the
    // `&mut Memory`, and its clauses speak of loans. Kept, `Inside` in the clauses: it relates the picture and a pixel, and no one
    // of the two holds the other.

    // What is picked of the colour's bracket at pixel i. No public call: the caller sees to a candidate, the pixel, the kind and
    // the memory.
    fn ordered_color_at(
        self,
        candidates: &Candidates,
        i: usize,
        color: NormalizedColor,
        memory: &mut Memory,
    ) -> Choice
        requires { let cs = entries candidates.now in
            (0 < cs.count) × Inside self i × (is_ordered self.kind ≡ true) × TableAndRows cs self.bracket_width memory.old }
        ensures { let cs = entries candidates.now in
            Takes cs (ordered_color cs self.kind self.bracket_width (self.origin_x + i % self.width) (self.origin_y + i / self.width) color) result
            × TableAndRows cs self.bracket_width memory.new }
    {
        let at = candidates.bracket_positions(self.bracket_width, color, memory);
        let bracket = lookup::brackets::bracket_at(candidates, at);
        let x = self.source_column(i);
        let y = self.source_row(i);
        lookup::pick_at(bracket, patterns::threshold_at(self.kind, x, y))
    }

    // What is chosen for a colour at pixel i where no error is diffused. No public call: the caller sees to a candidate, the
    // pixel and the memory.
    fn color_at(
        self,
        candidates: &Candidates,
        i: usize,
        color: NormalizedColor,
        memory: &mut Memory,
    ) -> Choice
        requires { let cs = entries candidates.now in (0 < cs.count) × Inside self i × Remembers self cs memory.old }
        ensures { let cs = entries candidates.now in
            Takes cs (color_at cs self.kind self.bracket_width (self.origin_x + i % self.width) (self.origin_y + i / self.width) color) result
            × Remembers self cs memory.new }
    {
        if patterns::is_ordered(self.kind) {
            return self.ordered_color_at(candidates, i, color, memory);
        }
        nearest_color(candidates, color, memory)
    }

    // What is chosen for a colour at pixel i, whose cells are lent: the nearest to the biased colour, whose residual is
    // passed on. No public call: the caller sees to a candidate, the pixel, the kind, the cells and the memory.
    fn diffusion_color_at(
        self,
        candidates: &Candidates,
        i: usize,
        color: NormalizedColor,
        memory: &mut Memory,
        cells: &mut [i16],
    ) -> Choice
        requires { let cs = entries candidates.now in
            (0 < cs.count) × Inside self i × (is_diffusion self.kind ≡ true) × (length cells.old ≡ 3 * (self.width * self.height))
            × Room (kernel_of self.kind) self.width self.height i cells.old × Remembers self cs memory.old }
        ensures { let cs = entries candidates.now in
            Diffused self cs candidates.now.scale.now cells.old i color result cells.new × Remembers self cs memory.new }
    {
        let biased = diffusion::biased_color(cells, i, color);
        let chosen = nearest_color(candidates, biased, memory);
        let scale = candidates.scale;
        let normalized = color::normalize_color(scale, chosen.color);
        let spot = Spot {
            width: self.width,
            height: self.height,
            x: self.column(i),
            y: self.row(i),
        };
        diffusion::diffuse_residual(self.kind, cells, spot, biased, normalized);
        chosen
    }

    // ---- one pixel

    // What pixel i chooses, under a kind that diffuses error or one that does not. A skipped pixel keeps its reduced colour and
    // leaves the cells alone. No public call: the caller sees to what is lent, the pixel, the kind and the cells.
    fn pixel_color<const DIFFUSES: bool>(
        self,
        zero: Option<ReducedColor>,
        lent: &Lent,
        i: usize,
        memory: &mut Memory,
        cells: &mut [i16],
    ) -> Choice
        requires { let l = lent_by lent.now in let d = drawing_of self zero l in
            Ready self zero l × (is_diffusion self.kind ≡ DIFFUSES) × (i < self.width * self.height)
            × Remembers self d.candidates memory.old × (cells.old ≡ cells_by d cells.old i) }
        ensures { let d = drawing_of self zero (lent_by lent.now) in
            TakesAt d i result × Remembers self d.candidates memory.new × (cells.new ≡ cells_by d cells.old (i + 1)) }
    {
        let seen = lent.is_seen(i);
        if !seen {
            return keeping(ReducedColor::TRANSPARENT);
        }
        if let Some(own) = lent.kept_zero(zero, i) {
            return keeping(own);
        }
        let pixels = lent.pixels;
        let color = picture::source_at(pixels, i);
        let candidates = &lent.candidates;
        if DIFFUSES {
            return self.diffusion_color_at(candidates, i, color, memory, cells);
        }
        self.color_at(candidates, i, color, memory)
    }

    // ---- the whole picture
    // Kept, three buffers in both: a struct of them would hold `&mut` slices, and its clauses speak of loans; both calls are lent
    // them one by one.

    // Draws under a kind that diffuses error or one that does not: the kind is asked once, and not at each pixel. No public
    // call: the caller sees to what is lent, the kind and the cells.
    fn draw_each<const DIFFUSES: bool>(
        self,
        zero: Option<ReducedColor>,
        lent: &Lent,
        memory: &mut Memory,
        indices: &mut [u8],
        out: &mut [u8],
        cells: &mut [i16],
    )
        requires { let l = lent_by lent.now in let d = drawing_of self zero l in
            Ready self zero l × (is_diffusion self.kind ≡ DIFFUSES) × (length out.old ≡ 4 * (self.width * self.height))
            × Remembers self d.candidates memory.old × (cells.old ≡ cells_by d cells.old 0) }
        ensures { let d = drawing_of self zero (lent_by lent.now) in
            (out.new ≡ reduced_bytes d) × (cells.new ≡ cells_by d cells.old (self.width * self.height))
            × PositionsAfter d indices.old indices.new }
    {
        let size = self.width as usize * self.height as usize;
        let lent = *lent; // a copy of its own stays in registers; what is lent is read again at each pixel
        for i in 0..size {
            let c = self.pixel_color::<DIFFUSES>(zero, &lent, i, memory, cells);
            color::put_rgba(out, i, c.color.0);
            note_position(indices, i, c.position);
        }
    }

    // Draws the picture: every pixel's choice, as reduced bytes, its position where there is room for positions, a byte a
    // pixel, and the cells of a diffusion kind, which start at 0. No public call: the caller sees to what is lent.
    pub fn draw(
        self,
        zero: Option<ReducedColor>,
        lent: &Lent,
        indices: &mut [u8],
        out: &mut [u8],
        cells: &mut [i16],
    )
        requires { Ready self zero (lent_by lent.now) × (length out.old ≡ 4 * (self.width * self.height))
            × (is_diffusion self.kind ≡ true → length cells.old ≡ 3 * (self.width * self.height)) }
        ensures { let d = drawing_of self zero (lent_by lent.now) in
            (out.new ≡ reduced_bytes d) × (cells.new ≡ cells_after d cells.old) × PositionsAfter d indices.old indices.new }
    {
        let mut memory = Memory::new();
        if patterns::is_diffusion(self.kind) {
            fill(cells, 0);
            self.draw_each::<true>(zero, lent, &mut memory, indices, out, cells);
        } else {
            self.draw_each::<false>(zero, lent, &mut memory, indices, out, cells);
        }
    }
}

// ---- the drawn picture at full precision

// What becomes of a pixel that chose a colour.
fn finished_color(scale: &[u8; 256], seen: bool, c: ReducedColor) -> NormalizedColor
    ensures { result ≡ finished (normalize_color scale.now) seen c }
{
    if seen {
        return color::normalize_color(scale, c);
    }
    NormalizedColor::TRANSPARENT
}

// Finishes the pixels whose reduced choices are lent: each choice's full precision form takes its place. No public call: the
// caller sees to the lengths.
// Kept: what it reads comes apart, and not as a `Lent`, which has one least alpha alone; the promise is of any, and so the least
// and the pixels are two parameters.
pub fn finish(least: u8, scale: &[u8; 256], pixels: &[u8], out: &mut [u8])
    requires { Finishable pixels.now out.old }
    ensures { let seen = seen_from least pixels.now in
        out.new ≡ finished_bytes (normalize_color scale.now) seen (reduced_at out.old) (length out.old / 4) }
{
    for i in 0..out.len() / 4 {
        let chosen = ReducedColor(color::rgba_at(out, i));
        let seen = picture::is_seen(least, pixels, i);
        let c = finished_color(scale, seen, chosen);
        color::put_rgba(out, i, c.0);
    }
}
