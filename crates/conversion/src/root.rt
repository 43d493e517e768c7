// The whole number nearest to the cube root of n. Floats give an estimate, of which a bound is promised and no more; whole steps
// go from there to the root.
ghost use Rattle.std.specs.Prelude.{◌≡◌, ◌-◌, ◌*◌, ◌≤◌, ◌<◌};
ghost use Rattle.conversion.specs.Root.{cube, too_high, too_low, root_of};

// A number of which the cube root is taken.
#[derive(Clone, Copy)]
pub(crate) struct Radicand {
    pub(crate) n: u64,
    pub ghost small: { n ≤ 1000000000000000000 },
}

// About 0.57 over the cube root of x, within a thirtieth: a third of x's exponent with its sign turned, from the bits.
fn guess(x: f64) -> f64 {
    if x >= 0.0 {
        let p = x.to_bits();
        if p < 0x5000_0000_0000_0000 {
            return f64::from_bits(0x5531_c800_0000_0000 - p / 3);
        }
    }
    1.0
}

// One over the cube root of x, from such a guess y: y times a polynomial near c^(-1/3), where c = x y^3 is from 0.166 to 0.198.
fn inverse(x: f64, y: f64) -> f64 {
    let c = x * y * (y * y);
    y * (2.746968137756118 - c * (7.554491066639336 - 11.850535624478544 * c))
}

// The cube root of 256 x, from y near one over the cube root of x: with c = x y^3 near 1, x y^2 (5 - 2 c) / 3 times that of 256.
fn refined(x: f64, y: f64) -> f64 {
    let c = x * y * (y * y);
    x * y * y * (10.582673679787996 - 4.233069471915198 * c)
}

// The whole number nearest to z, from the last digits of 2^52 + z, which has no others.
fn whole(z: f64) -> u64
    ensures { result < 1048576 }
{
    let w = z + 4503599627370496.0;
    if w >= 4503599627370496.0 {
        return w.to_bits() % 1048576;
    }
    0
}

impl Radicand {
    // n / 256 as a float: its digits are put under the leading one of 2^52, and 2^52 is taken away again.
    fn scaled(self) -> f64 {
        f64::from_bits(0x4330_0000_0000_0000 + self.n / 256) - 4503599627370496.0
    }

    // A number near the root, mostly the nearest.
    fn estimate(self) -> u64
        ensures { result < 1048576 }
    {
        let x = self.scaled();
        whole(refined(x, inverse(x, guess(x))))
    }

    // Whether c is too high: c - 1/2 is above the root. Four times its cube is 4 c^3 - 6 c^2 + 3 c - 1/2, where all but the
    // half is whole: so the half decides nothing, and is left out.
    fn too_high(self, c: u64) -> bool
        requires { c ≤ 1048576 }
        ensures { result ≡ too_high self.n c }
    {
        let q = c * c;
        c * (4 * q + 3) > 4 * self.n + 6 * q
    }

    // Whether c is too low: c + 1/2 is below the root. Four times its cube is 4 c^3 + 6 c^2 + 3 c + 1/2.
    fn too_low(self, c: u64) -> bool
        requires { c ≤ 1048576 }
        ensures { result ≡ too_low self.n c }
    {
        let q = c * c;
        c * (4 * q + 3) + 6 * q < 4 * self.n
    }

    // From start down to a number that is not too high.
    // Kept: a loop of its own here and below, each on a test and not over a range, and no twins: one test holds of what the
    // other begins with.
    fn lowered(self, start: u64) -> u64
        requires { start < 1048576 }
        ensures { cube (2 * result - 1) ≤ 8 * self.n }
    {
        let mut c = start;
        while self.too_high(c) {
            c -= 1;
        }
        c
    }

    // From start, which is not too high, up to the root.
    fn raised(self, start: u64) -> u64
        requires { cube (2 * start - 1) ≤ 8 * self.n }
        ensures { result ≡ root_of self.n }
    {
        let mut c = start;
        while self.too_low(c) {
            c += 1;
        }
        c
    }

    // The root: mostly the estimate, of which both tests are made at once.
    pub(crate) fn cube_root(self) -> u64
        ensures { result ≡ root_of self.n }
    {
        let c = self.estimate();
        if self.too_high(c) | self.too_low(c) {
            return self.raised(self.lowered(c));
        }
        c
    }
}
