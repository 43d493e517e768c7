// `dither_to_mode`: a case lends the recorded rooms, pixels and cells, cut to their length, and compares them afterwards.
use dither::{DitherError, Settings};
use recorded::{ANY, BYTE, Room, WORD};
use reducing::Reducing;

// Colour zero is a flag, and the colour that it stands for.
fn settings_of(reducing: Reducing, room: &Room) -> Settings {
    Settings {
        kind: room.word(4),
        shift: room.word(2),
        reducing,
        width: room.word(5),
        height: room.word(6),
        origin_x: room.word(7),
        origin_y: room.word(8),
        tile_width: room.word(9),
        tile_height: room.word(10),
        limit: room.word(11),
        zero: (room.number(12) != 0).then(|| room.reduced(13)),
    }
}

// Whether the number, the count and the tile are the recorded ones. Only 8 has a tile, and no other refusal a count.
fn is_answer(room: &Room, answer: Result<u32, DitherError>) -> bool {
    match answer {
        Ok(count) => room.is_byte(20, 0) && room.is_word(21, count) && room.is_empty(22),
        Err(DitherError::TileOver { tile, count }) => {
            room.is_byte(20, 8) && room.is_word(21, count) && room.is_word(22, tile)
        }
        Err(DitherError::Refused(refusal)) => {
            room.is_byte(20, refusal.number()) && room.is_empty(21) && room.is_empty(22)
        }
    }
}

// x: reduction scale shift reducing kind width height origin_x origin_y tile_width tile_height limit has_zero zero pixels
// opaque places oklab out cells | number count tile places oklab out cells
pub fn dither_to_mode(reducing: Reducing, room: &Room) -> bool {
    if !room.shaped(&[
        ANY, ANY, WORD, WORD, WORD, WORD, WORD, WORD, WORD, WORD, WORD, WORD, BYTE, WORD, ANY, ANY,
        ANY, ANY, ANY, ANY, BYTE, ANY, ANY, ANY, ANY, ANY, ANY,
    ]) {
        return false;
    }
    let mut places = [0; 1280];
    let places = &mut places[..room.part(16).len().min(1280)];
    let mut oklab = [0.0; 960];
    let oklab = &mut oklab[..(room.part(17).len() / 4).min(960)];
    let mut out = [0; 1280];
    let out = &mut out[..room.part(18).len().min(1280)];
    let mut cells = [0; 960];
    let cells = &mut cells[..(room.part(19).len() / 2).min(960)];
    if !(room.bytes_into(16, places)
        && room.read_into(17, oklab)
        && room.bytes_into(18, out)
        && room.read_into(19, cells))
    {
        return false;
    }
    let answer = dither::dither_to_mode(
        settings_of(reducing, room),
        room.part(0),
        room.part(1),
        room.part(14),
        room.part(15),
        places,
        oklab,
        out,
        cells,
    );
    is_answer(room, answer)
        && room.part(23) == places
        && room.are(24, oklab)
        && room.part(25) == out
        && room.are(26, cells)
}
