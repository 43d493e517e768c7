// The pixels of a PAM file: a copy where they have four samples, and 255 behind each three where they have no alpha.
ghost use Rattle.std.specs.Prelude.{◌≡◌, ◌+◌, ◌*◌, ◌-◌, ◌/◌, ◌≤◌, ◌<◌, length, set, take};
ghost use Rattle.std.proofs.lemmas.List.Edits.{sets};
ghost use Rattle.lists.specs.Gather.{gather};
ghost use Rattle.pam.specs.Pam.{pixel_at};
ghost use Rattle.pam.specs.Reading.{samples_at};

use color::Rgba8888;

// Copies bytes over as many. Kept beside the library's `copy_from_slice`, which calls `memmove`: the archive for C needs no
// other names from outside than `memcpy` and `memset`. No public call: the caller sees to the lengths.
pub fn copy(to: &mut [u8], from: &[u8])
    requires { length to.old ≡ length from.now }
    ensures { to.new ≡ from.now }
{
    for i in 0..from.len() {
        to[i] = from[i];
    }
}

// Pixel i of three samples.
#[tactic(auto, unfolding(crate::specs::Pam::pixel_at))]
fn put_opaque(raster: &[u8], i: usize, pixels: &mut [u8])
    requires { (3 * i + 2 < length raster.now) × (4 * i + 3 < length pixels.old) }
    ensures { pixels.new ≡ sets pixels.old (4 * i) (pixel_at 3 raster.now i) }
{
    let c = Rgba8888 {
        r: raster[3 * i],
        g: raster[3 * i + 1],
        b: raster[3 * i + 2],
        a: 255,
    };
    color::put_rgba(pixels, i, c);
}

// ---- all pixels of three samples, four bytes at once. Kept: the raster and the pixels are parameters of their own. A struct of
// both would hold a `&mut` slice, and a clause would speak of loans where it says `pixels.new`.

// Four bytes from pixel i's samples on. The fourth is the next pixel's red, and stands where alpha will.
// Kept beside `put_opaque`, for speed: four bytes that follow each other are moved at once, and three with a constant behind
// them one by one. A loop of `put_opaque` alone takes 1.7 times as long, and so do the library's chunks (tried): more than
// three copies of the file, the bound in docs/SPEED.md.
#[tactic(auto, unfolding(crate::specs::Reading::samples_at))]
fn put_samples(raster: &[u8], i: usize, pixels: &mut [u8])
    requires { (3 * i + 3 < length raster.now) × (4 * i + 3 < length pixels.old) }
    ensures { pixels.new ≡ sets pixels.old (4 * i) (samples_at raster.now i) }
{
    let c = Rgba8888 {
        r: raster[3 * i],
        g: raster[3 * i + 1],
        b: raster[3 * i + 2],
        a: raster[3 * i + 3],
    };
    color::put_rgba(pixels, i, c);
}

// Pixel i's alpha.
fn put_alpha(pixels: &mut [u8], i: usize)
    requires { 4 * i + 3 < length pixels.old }
    ensures { pixels.new ≡ set pixels.old (4 * i + 3) 255 }
{
    pixels[4 * i + 3] = 255;
}

// Pixel i's alpha, and the samples of the pixel behind it.
fn put_next(raster: &[u8], i: usize, pixels: &mut [u8])
    requires { (3 * (i + 1) + 3 < length raster.now) × (4 * (i + 1) + 3 < length pixels.old) }
    ensures { pixels.new ≡ sets (set pixels.old (4 * i + 3) 255) (4 * (i + 1)) (samples_at raster.now (i + 1)) }
{
    put_alpha(pixels, i);
    put_samples(raster, i + 1, pixels);
}

// All pixels but the last, and all but the alpha of the one before it.
fn put_most(raster: &[u8], n: usize, pixels: &mut [u8])
    requires { (2 ≤ n) × (n ≤ 1048576) × (length raster.now ≡ 3 * n) × (length pixels.old ≡ 4 * n) }
    ensures { take (4 * (n - 1)) (set pixels.new (4 * (n - 2) + 3) 255) ≡ gather (n - 1) (pixel_at 3 raster.now) }
{
    put_samples(raster, 0, pixels);
    for i in 0..n - 2 {
        put_next(raster, i, pixels);
    }
}

// All pixels of three samples.
fn put_all_opaque(raster: &[u8], n: usize, pixels: &mut [u8])
    requires { (n ≤ 1048576) × (length raster.now ≡ 3 * n) × (length pixels.old ≡ 4 * n) }
    ensures { pixels.new ≡ gather n (pixel_at 3 raster.now) }
{
    match n {
        0 => {}
        1 => put_opaque(raster, 0, pixels),
        _ => {
            put_most(raster, n, pixels);
            put_alpha(pixels, n - 2);
            put_opaque(raster, n - 1, pixels)
        }
    }
}

// The pixels of a raster with three samples each or four. No public call: the caller sees to the lengths.
pub fn put_pixels(depth: u32, raster: &[u8], pixels: &mut [u8])
    requires { let n = length pixels.old / 4 in
        (n ≤ 1048576) × (3 ≤ depth) × (depth ≤ 4) × (length raster.now ≡ depth * n) × (length pixels.old ≡ 4 * n) }
    ensures { pixels.new ≡ gather (length pixels.old / 4) (pixel_at depth raster.now) }
{
    if depth == 3 {
        return put_all_opaque(raster, pixels.len() / 4, pixels);
    }
    copy(pixels, raster)
}
