// The pixels whose colours are collected.
ghost use Rattle.std.specs.Prelude.{◌≡◌, true, false, ◌+◌, ◌<◌};
ghost use Rattle.picture.specs.Pixels.{reduced_of, Solid};
ghost use Rattle.candidates.specs.Sources.{pixels_in};
ghost use Rattle.candidates.specs.Steps.{has_red, none_has};

use color::ReducedColor;
use picture::Pixels;
use reducing::Reducing;

// What is seen of them has red, green and blue of the table, which are bytes.
#[derive(Clone, Copy)]
pub struct Source<'a> {
    pub pixels: Pixels<'a>,
    pub ghost solid: { Solid (reduced_of pixels) },
}

impl Source<'_> {
    // How many there are.
    pub fn len(self) -> usize
        ensures { result ≡ pixels_in self.entry.pixels }
    {
        self.pixels.bytes.len() / 4
    }

    // Pixel i reduced. No public call: the caller sees to the pixel.
    pub fn reduced_at(self, i: usize) -> ReducedColor
        requires { i < pixels_in self.pixels }
        ensures { result ≡ reduced_of self.entry.pixels i }
    {
        self.pixels.reduced_at(i)
    }

    // The same, with their way of reducing named: where it is a constant, a loop is compiled for it.
    // No public call: the caller sees to the pixel.
    pub fn reduced_by(self, reducing: Reducing, i: usize) -> ReducedColor
        requires same { self.pixels.reducing ≡ reducing }
        requires below { i < pixels_in self.pixels }
        ensures { result ≡ reduced_of self.entry.pixels i }
    {
        let Pixels {
            reduction,
            bytes,
            ..
        } = self.pixels;
        reducing::reduce_color(reducing, reduction, picture::source_at(bytes, i))
    }

    // Whether pixel i is seen and reduces to this red. No public call: the caller sees to the pixel.
    pub fn has_red(self, i: usize, red: u8) -> bool
        requires { i < pixels_in self.pixels }
        ensures { result ≡ has_red (reduced_of self.entry.pixels) i red }
    {
        let c = self.reduced_at(i);
        !c.is_transparent() & (c.0.r == red)
    }

    // Whether pixel i reduces to another red, if it is seen at all. Of greys it says no more than that it may have this one.
    // No public call: the caller sees to the pixel.
    pub fn lacks_red(self, i: usize, red: u8) -> bool
        requires { i < pixels_in self.pixels }
        ensures { result ≡ true → has_red (reduced_of self.entry.pixels) i red ≡ false }
    {
        reducing::keeps_channels(self.pixels.reducing) & (self.pixels.red_at(i) != red)
    }

    // The same of the four pixels from i on. No branch, so that the four are looked at side by side.
    // No public call: the caller sees to the pixel.
    pub fn four_lack_red(self, i: usize, red: u8) -> bool
        requires { i + 3 < pixels_in self.pixels }
        ensures { result ≡ true → none_has (reduced_of self.entry.pixels) red i 4 ≡ true }
    {
        let mut lack = true;
        for j in 0..4 {
            lack &= self.lacks_red(i + j, red);
        }
        lack
    }
}
