// What is left of a biased colour where another colour is chosen.
ghost use Rattle.std.specs.Prelude.{◌≤◌, nat_abs};

use color::NormalizedColor;

// The residuals of red, green and blue: each is what is left between two bytes, from -255 to 255.
#[derive(Clone, Copy)]
pub(crate) struct Residual {
    pub(crate) r: i16,
    pub(crate) g: i16,
    pub(crate) b: i16,
    pub ghost red: { nat_abs r ≤ 255 },
    pub ghost green: { nat_abs g ≤ 255 },
    pub ghost blue: { nat_abs b ≤ 255 },
}

impl Residual {
    ghost use Rattle.std.specs.Prelude.{◌≡◌, ℕ};
    ghost use Rattle.diffusion.specs.Sends.{residuals_of, in_order};

    // What is left of a biased colour where another is chosen.
    pub(crate) fn between(biased: NormalizedColor, chosen: NormalizedColor) -> Residual
        ensures { (a : ℕ) → in_order result a ≡ residuals_of biased.0 chosen.0 a }
    {
        Residual {
            r: biased.0.r as i16 - chosen.0.r as i16,
            g: biased.0.g as i16 - chosen.0.g as i16,
            b: biased.0.b as i16 - chosen.0.b as i16,
        }
    }
}
