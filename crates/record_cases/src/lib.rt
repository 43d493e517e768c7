// The recorded cases of the lookups over records, replayed. A case has the tokens of the flat lookup's case (crate
// `cases`): the list's reduced, normalised and Oklab colours, what is asked, and what the original answered, whose
// positions say which records have to come back. A case whose tokens do not fit, or with more than 300 records, differs.
#![tactic(auto)]

ghost use Rattle.record_cases.specs.Asked.{Asked};

use cases::{is_answer, is_bracket};
use color::{CandidateColor, NormalizedColor, Oklab, ReducedColor, Rgba8888};
use lookup::Bracket;
use recorded::{ANY, BYTE, COLOR, LONG, Room, byte_at};
use records::Taken;
use replies::Refusal;
use std::array;

// ---- the list of a case

// The bytes of a list from entry i on, where each entry has so many; none where the list ends before. By the entry's place,
// since `nth` of the library's chunks goes through the entries before it.
fn entry(p: &[u8], i: usize, width: usize) -> &[u8] {
    p.get(i.saturating_mul(width)..).unwrap_or(&[])
}

// Colour i of a list of colours.
fn rgba_at(p: &[u8], i: usize) -> Rgba8888 {
    let bytes = entry(p, i, 4);
    Rgba8888::new(
        byte_at(bytes, 0),
        byte_at(bytes, 1),
        byte_at(bytes, 2),
        byte_at(bytes, 3),
    )
}

// Oklab colour i of a list.
fn oklab_at(p: &[u8], i: usize) -> Oklab {
    cases::oklab_at(entry(p, i, 12), 0)
}

fn record_at(room: &Room, i: usize) -> CandidateColor {
    CandidateColor {
        reduced: ReducedColor(rgba_at(room.part(0), i)),
        normalized: NormalizedColor(rgba_at(room.part(1), i)),
        oklab: oklab_at(room.part(2), i),
    }
}

// As many records as there can be; the list's are the first.
fn records_of(room: &Room) -> [CandidateColor; 300] {
    array::from_fn(|i| record_at(room, i))
}

// Whether the list's tokens have as many entries each, and no more than there can be.
fn is_list(room: &Room) -> bool {
    let bytes = room.part(0).len();
    let wide = room.part(2).len();
    (bytes <= 1200)
        & ((bytes % 4 == 0)
            & ((room.part(1).len() == bytes) & ((wide % 3 == 0) & (wide / 3 == bytes))))
}

// ---- the lookups

// What the three lookups answer.
#[derive(Clone, Copy)]
pub struct Three {
    pub near: Result<Taken, Refusal>,
    pub two: Result<(Taken, Option<Taken>), Refusal>,
    pub bracket: Result<Bracket, Refusal>,
}

fn asked(list: &[CandidateColor], color: NormalizedColor, width: u64) -> Three
    ensures { Asked list.now color width result }
{
    Three {
        near: records::nearest(list, color),
        two: records::nearest_two(color, list, width),
        bracket: records::ordered_bracket(color, list, width),
    }
}

fn answers_on(room: &Room, width: u64) -> Three {
    let list = records_of(room);
    let n = (room.part(0).len() / 4).min(list.len());
    asked(&list[..n], cases::color_at(room.part(3), 0), width)
}

// ---- the comparisons

// Whether token k is the position of this record, and its copy is the record there.
fn is_taken(room: &Room, k: usize, taken: Taken) -> bool {
    room.is_position(k, taken.position) & (taken.copy == record_at(room, taken.position))
}

// Whether the tokens 6 and 7 are these records, or one alone in both.
fn are_taken(room: &Room, first: Taken, second: Option<Taken>) -> bool {
    is_taken(room, 6, first)
        & is_taken(room, 7, second.unwrap_or(first))
        & (second.is_some() == (room.number(6) != room.number(7)))
}

// N: reduced normalized oklab color | number position
fn nearest(room: &Room) -> bool {
    if !room.shaped(&[ANY, ANY, ANY, COLOR, BYTE, ANY]) {
        return false;
    }
    let answers = answers_on(room, 1);
    is_answer(room, 4, answers.near, |taken| is_taken(room, 5, taken))
}

// M: reduced normalized oklab color width | number first second
fn nearest_two(room: &Room) -> bool {
    if !room.shaped(&[ANY, ANY, ANY, COLOR, LONG, BYTE, ANY, ANY]) {
        return false;
    }
    let answers = answers_on(room, room.number(4));
    is_answer(
        room,
        5,
        answers.two,
        |(first, second)| are_taken(room, first, second),
    )
}

// B: reduced normalized oklab color width | number dark light ratio dark_position light_position
fn ordered_bracket(room: &Room) -> bool {
    if !room.shaped(&[ANY, ANY, ANY, COLOR, LONG, BYTE, ANY, ANY, ANY, ANY, ANY]) {
        return false;
    }
    let answers = answers_on(room, room.number(4));
    is_answer(
        room,
        5,
        answers.bracket,
        |bracket| is_bracket(room, bracket),
    )
}

// Whether the call of a case is a lookup over records.
pub fn has_records(letter: u8) -> bool {
    matches!(letter, b'N' | b'M' | b'B')
}

// Whether our answer to a case is the recorded one.
pub fn same(letter: u8, room: &Room) -> bool {
    if !is_list(room) {
        return false;
    }
    match letter {
        b'N' => nearest(room),
        b'M' => nearest_two(room),
        b'B' => ordered_bracket(room),
        _ => false,
    }
}
