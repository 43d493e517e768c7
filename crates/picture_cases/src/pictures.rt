// `quantize_pixels`: a case lends the recorded indices, pixels and cells, cut to their length, and compares them afterwards.
use super::number_of;
use recorded::{ANY, BYTE, Room, WORD};
use reducing::Reducing;

// q: reduction scale shift reducing kind width height palette pixels opaque indices out cells | number indices out cells
pub fn quantize_pixels(reducing: Reducing, room: &Room) -> bool {
    if !room.shaped(&[
        ANY, ANY, WORD, WORD, WORD, WORD, WORD, ANY, ANY, ANY, ANY, ANY, ANY, BYTE, ANY, ANY, ANY,
    ]) {
        return false;
    }
    let mut indices = [0; 320];
    let indices = &mut indices[..room.part(10).len().min(320)];
    let mut out = [0; 1280];
    let out = &mut out[..room.part(11).len().min(1280)];
    let mut cells = [0; 960];
    let cells = &mut cells[..(room.part(12).len() / 2).min(960)];
    if !(room.bytes_into(10, indices) && room.bytes_into(11, out) && room.read_into(12, cells)) {
        return false;
    }
    let answer = quantize::quantize_pixels(
        room.word(2),
        reducing,
        room.word(4),
        room.word(5),
        room.word(6),
        room.part(0),
        room.part(1),
        room.part(7),
        room.part(8),
        room.part(9),
        indices,
        out,
        cells,
    );
    room.is_byte(13, number_of(answer))
        && room.part(14) == indices
        && room.part(15) == out
        && room.are(16, cells)
}
