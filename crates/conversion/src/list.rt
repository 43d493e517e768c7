// The Oklab colours of a list of reduced colours that is lent in bytes, four a colour: a palette, or a picture's candidates.
ghost use Rattle.std.specs.Prelude.{◌≡◌, ◌+◌, ◌*◌, ◌<◌, ◌≤◌, length};
ghost use Rattle.std.proofs.lemmas.List.Edits.{sets};
ghost use Rattle.color.specs.Color.{reduced_at};
ghost use Rattle.conversion.specs.Lists.{oklab_floats, oklab_over};

use crate::linear::LinearTable;
use color::ReducedColor;

// The Oklab colour of colour i, by its full precision form.
fn put_color_oklab(
    linear: &LinearTable,
    scale: &[u8; 256],
    colors: &[u8],
    i: usize,
    oklab: &mut [f32],
)
    requires { (4 * i + 3 < length colors.now) × (3 * i + 2 < length oklab.old) }
    ensures { oklab.new ≡ sets oklab.old (3 * i) (oklab_floats scale.now (reduced_at colors.now) i) }
{
    let c = ReducedColor(color::rgba_at(colors, i));
    let o = crate::to_oklab_with(linear, color::normalize_color(scale, c));
    color::put_oklab(oklab, i, o);
}

// Writes the Oklab colours of the first colours to the front of a lent buffer; what is after them stays. No public call: the
// caller sees to the lengths.
// Kept: a count beside the rooms, which are lent whole and hold more than the list; this promises what is after it.
pub fn put_list_oklab(
    linear: &LinearTable,
    scale: &[u8; 256],
    colors: &[u8],
    count: usize,
    oklab: &mut [f32],
)
    requires { (4 * count ≤ length colors.now) × (3 * count ≤ length oklab.old) }
    ensures { oklab.new ≡ oklab_over scale.now (reduced_at colors.now) count oklab.old }
{
    for i in 0..count {
        put_color_oklab(linear, scale, colors, i, oklab);
    }
}
