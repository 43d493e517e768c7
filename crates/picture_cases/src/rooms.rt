// `candidate_colors_in`: a case lends the recorded rooms, cut to their length, and compares them afterwards.
use super::{is_count, number_of};
use recorded::{ANY, BYTE, Room, WORD};
use reducing::Reducing;

// c: reduction scale shift reducing width height pixels opaque places oklab | number count places oklab
pub fn candidate_colors_in(reducing: Reducing, room: &Room) -> bool {
    if !room.shaped(&[
        ANY, ANY, WORD, WORD, WORD, WORD, ANY, ANY, ANY, ANY, BYTE, ANY, ANY, ANY,
    ]) {
        return false;
    }
    let mut places = [0; 1280];
    let places = &mut places[..room.part(8).len().min(1280)];
    let mut oklab = [0.0; 960];
    let oklab = &mut oklab[..(room.part(9).len() / 4).min(960)];
    if !(room.bytes_into(8, places) && room.read_into(9, oklab)) {
        return false;
    }
    let answer = candidates::candidate_colors_in(
        room.word(2),
        reducing,
        room.word(4),
        room.word(5),
        room.part(0),
        room.part(1),
        room.part(6),
        room.part(7),
        places,
        oklab,
    );
    room.is_byte(10, number_of(answer))
        && is_count(room, 11, answer.ok())
        && room.part(12) == places
        && room.are(13, oklab)
}
