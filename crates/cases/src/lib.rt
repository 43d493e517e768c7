// The recorded cases of the calls on single values and of the lookups, replayed. One function a call: it takes a case's
// tokens, calls, and compares the answer. A case whose tokens have not the widths that its call wants differs.
#![tactic(auto)]

ghost use Rattle.std.specs.Prelude.{IsTrue, IfOk, true};

use color::{NormalizedColor, Oklab, ReducedColor};
use lookup::{Bracket, Choice, Two};
use recorded::{ANY, BYTE, COLOR, LONG, Room, WORD, byte_at, float_at};
use replies::Refusal;

// Colour i of a list of colours without alpha.
pub fn color_at(p: &[u8], i: u8) -> NormalizedColor {
    let at = 3 * i as usize;
    NormalizedColor::new(byte_at(p, at), byte_at(p, at + 1), byte_at(p, at + 2), 255)
}

// Oklab colour i of a list.
pub fn oklab_at(p: &[u8], i: u8) -> Oklab {
    let at = 3 * i as usize;
    Oklab {
        l: float_at(p, at),
        a: float_at(p, at + 1),
        b: float_at(p, at + 2),
    }
}

// Whether token k is this colour.
fn is_color(room: &Room, k: usize, c: ReducedColor) -> bool {
    room.part(k) == [c.0.r, c.0.g, c.0.b, c.0.a].as_slice()
}

// Whether the tokens from k on are this answer: 0 and what is tested, or the number of a refusal alone. The test holds of
// a value that is the recorded one. No public call: the caller sees to it that the test can be called with any value.
pub fn is_answer<A: Copy, F: FnOnce(A) -> bool + Drop>(
    room: &Room,
    k: usize,
    answer: Result<A, Refusal>,
    test: F,
) -> bool
    requires { F.IsAlwaysCallable test }
    ensures { IsTrue result → IfOk answer (λ a. F.post test a true) }
{
    match answer {
        Ok(a) => room.is_byte(k, 0) & test(a),
        Err(refusal) => room.is_refusal(k, refusal.number()),
    }
}

// ---- the calls on single values

// e: two reduced colours | equal
fn eq_rgb(room: &Room) -> bool {
    if !room.shaped(&[WORD, WORD, BYTE]) {
        return false;
    }
    let equal = color::eq_rgb(room.reduced(0), room.reduced(1));
    room.is_byte(2, u8::from(equal))
}

// o: color | lightness a b
fn to_oklab(room: &Room) -> bool {
    if !room.shaped(&[COLOR, Some(12)]) {
        return false;
    }
    let o = conversion::to_oklab(color_at(room.part(0), 0));
    room.are(1, &[o.l, o.a, o.b])
}

// d: two Oklab colours | number distance
fn oklab_sqdist(room: &Room) -> bool {
    if !room.shaped(&[Some(24), BYTE, ANY]) {
        return false;
    }
    let six = room.part(0);
    let answer = color::oklab_sqdist(oklab_at(six, 0), oklab_at(six, 1));
    is_answer(room, 1, answer, |d| room.is_float(2, d))
}

// t: kind x y | number threshold
fn ordered_threshold(room: &Room) -> bool {
    if !room.shaped(&[WORD, WORD, WORD, BYTE, ANY]) {
        return false;
    }
    let answer = patterns::ordered_threshold(room.word(0), room.word(1), room.word(2));
    is_answer(room, 3, answer, |threshold| room.is_float(4, threshold))
}

// w: shift max | number width
fn bracket_width(room: &Room) -> bool {
    if !room.shaped(&[WORD, LONG, BYTE, ANY]) {
        return false;
    }
    let answer = mixing::bracket_width(room.word(0), room.number(1));
    is_answer(room, 2, answer, |width| room.is_long(3, width))
}

// l: three colours, clamp | value
fn lerp(room: &Room) -> bool {
    if !room.shaped(&[Some(9), BYTE, WORD]) {
        return false;
    }
    let colors = room.part(0);
    let clamp = room.number(1) != 0;
    let t = mixing::lerp(
        color_at(colors, 0),
        color_at(colors, 1),
        color_at(colors, 2),
        clamp,
    );
    room.is_float(2, t)
}

// Whether token 7 is this choice, of dark at position 0 and light at 1. Light of dark's colour is never picked.
fn is_choice(room: &Room, dark: ReducedColor, choice: Choice) -> bool {
    let light = !is_color(room, 7, dark);
    is_color(room, 7, choice.color) & (choice.position == usize::from(light))
}

// p: dark light ratio kind x y | number chosen
fn pick(room: &Room) -> bool {
    if !room.shaped(&[WORD, WORD, WORD, WORD, WORD, WORD, BYTE, ANY]) {
        return false;
    }
    let dark = room.reduced(0);
    let bracket = Bracket {
        dark,
        light: room.reduced(1),
        ratio: float_at(room.part(2), 0),
        dark_position: 0,
        light_position: 1,
    };
    let answer = lookup::pick(bracket, room.word(3), room.word(4), room.word(5));
    is_answer(room, 6, answer, |choice| is_choice(room, dark, choice))
}

// ---- the lookups, whose list's Oklab colours are lent as floats

// n: reduced normalized oklab color | number position
fn nearest(room: &Room, oklab: &[f32]) -> bool {
    if !room.shaped(&[ANY, ANY, ANY, COLOR, BYTE, ANY]) {
        return false;
    }
    let color = color_at(room.part(3), 0);
    let answer = lookup::flat_nearest(room.part(0), room.part(1), oklab, color);
    is_answer(room, 4, answer, |position| room.is_position(5, position))
}

// Whether the tokens 6 and 7 are these positions, the first's twice where there is no second.
fn are_two(room: &Room, two: Two) -> bool {
    room.is_position(6, two.first) & room.is_position(7, two.second.unwrap_or(two.first))
}

// m: reduced normalized oklab color width | number first second
fn nearest_two(room: &Room, oklab: &[f32]) -> bool {
    if !room.shaped(&[ANY, ANY, ANY, COLOR, LONG, BYTE, ANY, ANY]) {
        return false;
    }
    let color = color_at(room.part(3), 0);
    let width = room.number(4);
    let answer = lookup::flat_nearest_two(room.part(0), room.part(1), oklab, color, width);
    is_answer(room, 5, answer, |two| are_two(room, two))
}

// Whether the tokens from 5 on are this bracket: 0, and its colours, its ratio and its positions.
pub fn is_bracket(room: &Room, bracket: Bracket) -> bool {
    let colors = is_color(room, 6, bracket.dark) & is_color(room, 7, bracket.light);
    let positions = room.is_position(9, bracket.dark_position)
        & room.is_position(10, bracket.light_position);
    room.is_byte(5, 0) & (colors & (room.is_float(8, bracket.ratio) & positions))
}

// b: reduced normalized oklab color width | number dark light ratio dark_position light_position
fn ordered_bracket(room: &Room, oklab: &[f32]) -> bool {
    if !room.shaped(&[ANY, ANY, ANY, COLOR, LONG, BYTE, ANY, ANY, ANY, ANY, ANY]) {
        return false;
    }
    let color = color_at(room.part(3), 0);
    let width = room.number(4);
    let answer = lookup::flat_ordered_bracket(room.part(0), room.part(1), oklab, color, width);
    is_answer(room, 5, answer, |bracket| is_bracket(room, bracket))
}

// Whether a lookup's case is the recorded one, as is tested with the list's Oklab colours.
fn look_up<F: FnOnce(&[f32]) -> bool + Drop>(room: &Room, test: F) -> bool
    requires { F.IsAlwaysCallable test }
{
    let mut floats = [0.0; 1024];
    let Some(oklab) = floats.get_mut(..room.part(2).len() / 4) else {
        return false;
    };
    if !room.read_into(2, oklab) {
        return false;
    }
    test(oklab)
}

// Whether our answer to a case is the recorded one.
pub fn same(letter: u8, room: &Room) -> bool {
    match letter {
        b'e' => eq_rgb(room),
        b'o' => to_oklab(room),
        b'd' => oklab_sqdist(room),
        b't' => ordered_threshold(room),
        b'w' => bracket_width(room),
        b'l' => lerp(room),
        b'p' => pick(room),
        b'n' => look_up(room, |oklab| nearest(room, oklab)),
        b'm' => look_up(room, |oklab| nearest_two(room, oklab)),
        b'b' => look_up(room, |oklab| ordered_bracket(room, oklab)),
        _ => false,
    }
}
