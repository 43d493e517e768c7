// The recorded cases of the calls on pictures, replayed: one module a call. A case lends the recorded buffers, cut to their
// length, and compares the answer and all of them afterwards. There is room for 320 pixels and as many candidates, more than
// any recorded picture has. A case that needs more, or whose tokens have not the widths that its call wants, or that names a
// reduction that there isn't, differs.
#![tactic(auto)]

mod modes;
mod pictures;
mod rooms;

use recorded::Room;
use reducing::Reducing;
use replies::Refusal;

// Whether a call is one on pictures. These are lent the two tables.
pub fn has_tables(letter: u8) -> bool {
    matches!(letter, b'c' | b'q' | b'x')
}

// The number of an answer: 0, or a refusal's.
fn number_of<A: Copy>(answer: Result<A, Refusal>) -> u8 {
    answer.err().map_or(0, |refusal| refusal.number())
}

// Whether token k is this number, and without one is empty.
fn is_count(room: &Room, k: usize, count: Option<u32>) -> bool {
    count.map_or(room.is_empty(k), |n| room.is_word(k, n))
}

// Whether our answer to a case is the recorded one. Token 3 of every call is how it reduces.
pub fn same(letter: u8, room: &Room) -> bool {
    let Ok(reducing) = Reducing::try_from(room.word(3)) else {
        return false;
    };
    match letter {
        b'c' => rooms::candidate_colors_in(reducing, room),
        b'q' => pictures::quantize_pixels(reducing, room),
        b'x' => modes::dither_to_mode(reducing, room),
        _ => false,
    }
}
