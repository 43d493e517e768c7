// A pixel of a picture by its column and row, and where its targets lie.
ghost use Rattle.std.specs.Prelude.{◌+◌, ◌*◌, ◌<◌, ◌≤◌};

use patterns::Target;

// The pixel in column x and row y of a picture.
#[derive(Clone, Copy, Debug, PartialEq, Eq, Hash)]
pub struct Spot {
    pub width: u32,
    pub height: u32,
    pub x: u32,
    pub y: u32,
    pub ghost column: { x < width },
    pub ghost row: { y < height },
    pub ghost wide: { width ≤ 4096 },
    pub ghost high: { height ≤ 4096 },
}

impl Spot {
    ghost use Rattle.std.specs.Prelude.{◌≡◌, T};
    ghost use Rattle.patterns.specs.Kernel.{near, landing};
    ghost use Rattle.diffusion.specs.Sends.{place_of};

    // The number of the pixel where a target lies, if it is not past an edge. No public call: the caller sees to near
    // targets.
    pub(crate) fn landing(self, target: Target) -> Option<usize>
        requires { T (near target) }
        ensures { place_of result ≡ landing self.width self.height (self.y * self.width + self.x) target }
    {
        let nx = self.x as i32 + target.dx;
        let ny = self.y + target.dy;
        if nx < 0 || nx as u32 >= self.width || ny >= self.height {
            return None;
        }
        Some((ny * self.width + nx as u32) as usize)
    }
}
