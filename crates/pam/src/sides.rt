// The sides of a picture, within their bounds; and the refusals of others.
ghost use Rattle.std.specs.Prelude.{◌≡◌, ◌*◌, ◌≤◌, IfOk};
ghost use Rattle.replies.specs.Replies.{first_reply};
ghost use Rattle.replies.specs.Refusals.{number_of};
ghost use Rattle.pam.specs.Pam.{length_replies};

use replies::Refusal;

#[derive(Clone, Copy)]
pub struct Sides {
    pub width: u32,
    pub height: u32,
    pub ghost wide: { width ≤ 4096 },
    pub ghost high: { height ≤ 4096 },
    pub ghost few: { width * height ≤ 1048576 },
}

impl Sides {
    // 10 for a picture with no pixels, 2 for one that is too large.
    #[tactic(auto, unfolding(crate::specs::Pam::no_pixels))]
    pub fn checked(width: u32, height: u32) -> Result<Sides, Refusal>
        ensures number { number_of result ≡ first_reply (length_replies width height) }
        ensures sides { IfOk result (λ s. (s.width ≡ width) × (s.height ≡ height)) }
    {
        if width == 0 || height == 0 {
            return Err(Refusal::PamHeader);
        }
        if picture::size_wrong(width, height) {
            return Err(Refusal::Size);
        }
        Ok(Sides { width, height })
    }

    pub fn pixels(self) -> usize
        ensures value { result ≡ self.width * self.height }
        ensures few { result ≤ 1048576 }
    {
        self.width as usize * self.height as usize
    }
}
