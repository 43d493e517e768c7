// The colour account of E7 to E9, worked out from the buffers of a call: the sources lent, the pixels left and the cells left.
// Every number is whole: a byte, or a count of sixteenths, as a cell is.

// How a dithered pixel shares its residual in a row of two, in sixteenths: to the pixel on its right, to the kernel's other
// targets, which are all outside the picture, and what is held back.
#[derive(Clone, Copy)]
pub struct Shares {
    pub right: u8,
    pub others: u8,
    pub held: u8,
}

// What an example's line says of a channel, in sixteenths: sources less choices; the losses; what reached a skipped pixel;
// what each pixel sent past the edges; what each held back. No line says a number below 0.
#[derive(Clone, Copy)]
pub struct Account {
    pub excess: u16,
    pub lost: u16,
    pub skipped: u16,
    pub first_dropped: u16,
    pub second_dropped: u16,
    pub first_held: u16,
    pub second_held: u16,
}

impl Account {
    // Whether the terms add up.
    fn balances(self) -> bool {
        let dropped = u32::from(self.first_dropped) + u32::from(self.second_dropped);
        let held = u32::from(self.first_held) + u32::from(self.second_held);
        u32::from(self.excess) == u32::from(self.lost) + u32::from(self.skipped) + dropped + held
    }

    fn terms(self) -> [i64; 7] {
        [
            self.excess,
            self.lost,
            self.skipped,
            self.first_dropped,
            self.second_dropped,
            self.first_held,
            self.second_held,
        ]
        .map(i64::from)
    }
}

// ---- one channel of a pixel

// What was lent of it, and what the call left.
#[derive(Clone, Copy)]
struct Sample {
    source: u8,
    cell: i16,
    chosen: u8,
}

// What was lent of a picture, and what the call left.
#[derive(Clone, Copy)]
pub struct Drawn<'a> {
    pub pixels: &'a [u8],
    pub out: &'a [u8],
    pub cells: &'a [i16],
}

impl Drawn<'_> {
    // Channel k of pixel i.
    fn sample(&self, i: u8, k: u8) -> Sample {
        let byte = 4 * usize::from(i) + usize::from(k);
        let cell = 3 * usize::from(i) + usize::from(k);
        Sample {
            source: self.pixels.get(byte).copied().unwrap_or(0),
            cell: self.cells.get(cell).copied().unwrap_or(0),
            chosen: self.out.get(byte).copied().unwrap_or(0),
        }
    }

    // Channel k of the second pixel; none where that is transparent, and so is skipped.
    fn second(&self, k: u8) -> Option<Sample> {
        match self.pixels.get(7) {
            Some(255) => Some(self.sample(1, k)),
            _ => None,
        }
    }
}

// The sum of two bytes, in sixteenths.
fn sixteen(a: u8, b: u8) -> u32 {
    16 * (u32::from(a) + u32::from(b))
}

// Sixteenths given less sixteenths taken, and two cells. 64 bits have room for it, whatever these are.
fn sum(given: u32, taken: u32, first: i16, second: i16) -> i64 {
    given as i64 - taken as i64 + first as i64 + second as i64
}

// The whole number nearest to so many sixteenths, halves up, clipped to 0..255. (A half below zero is clipped whichever way
// it goes.)
fn rounded(sixteenths: i64) -> u8 {
    (0u8..255)
        .find(|n| sixteenths < i64::from(16 * u32::from(*n) + 8))
        .unwrap_or(255)
}

fn biased(s: Sample) -> u8 {
    rounded(sum(sixteen(s.source, 0), 0, s.cell, 0))
}

fn times(weight: u16, byte: u8) -> u32 {
    u32::from(weight) * u32::from(byte)
}

// The residual times a weight.
fn share(weight: u16, s: Sample) -> i64 {
    sum(times(weight, biased(s)), times(weight, s.chosen), 0, 0)
}

// ---- the account

impl Shares {
    // Both pixels are dithered: the second sends all that it does not hold back past the edges.
    fn of_two(self, a: Sample, b: Sample) -> [i64; 7] {
        let sources = sixteen(a.source, b.source);
        [
            sum(sources, sixteen(a.chosen, b.chosen), 0, 0),
            sum(sources, sixteen(biased(a), biased(b)), a.cell, b.cell),
            0,
            share(u16::from(self.others), a),
            share(u16::from(self.right) + u16::from(self.others), b),
            share(u16::from(self.held), a),
            share(u16::from(self.held), b),
        ]
    }

    // The second is skipped: what reached it is what its cell holds.
    fn of_one(self, a: Sample, reached: i16) -> [i64; 7] {
        let source = sixteen(a.source, 0);
        [
            sum(source, sixteen(a.chosen, 0), 0, 0),
            sum(source, sixteen(biased(a), 0), a.cell, 0),
            i64::from(reached),
            share(u16::from(self.others), a),
            0,
            share(u16::from(self.held), a),
            0,
        ]
    }

    // Whether channel k has the account that is said, it balances, and the second cell holds the first pixel's share.
    fn channel_is(self, drawn: Drawn, k: u8, said: Account) -> bool {
        let a = drawn.sample(0, k);
        let reached = drawn.sample(1, k).cell;
        let terms = match drawn.second(k) {
            Some(b) => self.of_two(a, b),
            None => self.of_one(a, reached),
        };
        i64::from(reached) == share(u16::from(self.right), a)
            && said.balances()
            && terms == said.terms()
    }

    // Whether each channel has the account that is said.
    pub fn are_said(self, drawn: Drawn, said: Account) -> bool {
        (0..3u8).all(|k| self.channel_is(drawn, k, said))
    }
}
