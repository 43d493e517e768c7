// The worked examples of document 01 and one of our own, run: one line each, its name and "same" or "differs".
#![tactic(auto)]

mod account;
mod pictures;

use color::{NormalizedColor, Oklab};
use std::io;

fn opaque(r: u8, g: u8, b: u8) -> NormalizedColor {
    NormalizedColor::new(r, g, b, 255)
}

// ---- E1: widths

fn e1() -> bool {
    [(3, 16, 3), (3, 8, 2), (4, 2, 1), (3, 0, 1), (5, 256, 16)]
        .iter()
        .all(|&(shift, max, width)| mixing::bracket_width(shift, max) == Ok(width))
}

// ---- E2: thresholds. Kept: the kinds by their numbers, as the call takes them.

fn e2() -> bool {
    [
        (3, 2, 0, 12.5 / 64.0),
        (2, 1, 2, 11.5 / 16.0),
        (1, 5, 2, 2.5 / 4.0),
        (7, 0, 0, 0.75),
        (7, 0, 1, 0.75),
    ]
    .iter()
    .all(|&(kind, x, y, threshold)| patterns::ordered_threshold(kind, x, y) == Ok(threshold))
}

// ---- E3: shares

fn e3() -> bool {
    let black = opaque(0, 0, 0);
    let red = opaque(10, 0, 0);
    let half = mixing::lerp(black, red, opaque(5, 200, 7), false);
    let two = mixing::lerp(black, red, opaque(20, 0, 0), false);
    let one = mixing::lerp(black, red, opaque(20, 0, 0), true);
    let none = mixing::lerp(red, red, opaque(5, 200, 7), false);
    [half, two, one, none] == [0.5, 2.0, 1.0, 0.0]
}

// ---- E4: linear values

fn e4() -> bool {
    let t = conversion::linear::linear_table().entries;
    [t[0], t[1], t[10], t[255]] == [0, 30353, 303527, 100000000]
}

// ---- E5: black and white, in millionths

fn oklab_is(o: Oklab, l: f32, a: f32, b: f32) -> bool {
    [o.l, o.a, o.b] == [l / 1000000.0, a / 1000000.0, b / 1000000.0]
}

fn e5() -> bool {
    oklab_is(conversion::to_oklab(opaque(0, 0, 0)), 0.0, 0.0, 0.0)
        && oklab_is(
            conversion::to_oklab(opaque(255, 255, 255)),
            1000000.0,
            0.0,
            0.0,
        )
}

// ---- E6: a biased byte and what rounding and clipping took, in sixteenths

// Whether 16 source + cell - 16 biased is `taken` less `given`.
fn loss_is(source: u8, cell: u32, biased: u8, taken: u32, given: u32) -> bool {
    source as u64 * 16 + cell as u64 + given as u64 == biased as u64 * 16 + taken as u64
}

fn e6() -> bool {
    let up = diffusion::biased(10, 8);
    let clipped = diffusion::biased(250, 320);
    [up, clipped] == [11, 255] && loss_is(10, 8, up, 0, 8) && loss_is(250, 320, clipped, 240, 0)
}

fn main(rt: HostRuntime) -> io::Result<()> {
    for (name, same) in [
        ("E1", e1()),
        ("E2", e2()),
        ("E3", e3()),
        ("E4", e4()),
        ("E5", e5()),
        ("E6", e6()),
        ("E7", pictures::e7()),
        ("E8", pictures::e8()),
        ("E9", pictures::e9()),
        ("E10", pictures::e10()),
        ("E11", pictures::e11()),
        ("greys", pictures::greys()),
    ] {
        let word = if same { "same" } else { "differs" };
        println!(rt; "{name} {word}")?;
    }
    Ok(())
}
