// The header of a PAM file: what a line says, the lines up to ENDHDR, and what they give. Numbers are kept up to a million,
// which is more than any that the calls take, so that a number of any length is read.
ghost use Rattle.std.specs.Prelude.{◌≡◌, ◌<◌, true, [], ◌∷◌, length, IfSome, MatchOption};
ghost use Rattle.pam.specs.Lines.{lines_of, tokens};
ghost use Rattle.pam.specs.Header.{number_line, type_line, field_line, tokens_line, header_line, lines_wrong, header_wrong};
ghost use Rattle.pam.specs.Reading.{capped_line, Noted, LinesRead, Whole, Broken, HeaderRead};

use crate::Size;
use crate::text::{is_number, newline_in, token_in, value_of, white_in};

// The five names to which a line gives a value.
#[derive(Clone, Copy)]
pub enum Field {
    Width,
    Height,
    Depth,
    Maxval,
    TupleType,
}

// What a header line says: nothing, a value for one of the names, that the header ends; or it is wrong.
#[derive(Clone, Copy)]
pub enum HeaderLine {
    Ignored,
    Value(Field, u32),
    End,
    Wrong,
}

// ---- a line

// A line that gives a name a number.
#[tactic(auto, unfolding(crate::specs::Header::number_line))]
fn number_line(name: Field, value: &[u8]) -> HeaderLine
    ensures { result ≡ capped_line (number_line name value.now) }
{
    if is_number(value) {
        HeaderLine::Value(name, value_of(value))
    } else {
        HeaderLine::Wrong
    }
}

// A line that gives the tuple type: as many samples as a pixel has.
#[tactic(auto, unfolding(crate::specs::Header::type_line))]
fn type_line(value: &[u8]) -> HeaderLine
    ensures { result ≡ capped_line (type_line value.now) }
{
    if value == b"RGB".as_slice() {
        HeaderLine::Value(Field::TupleType, 3)
    } else if value == b"RGB_ALPHA".as_slice() {
        HeaderLine::Value(Field::TupleType, 4)
    } else {
        HeaderLine::Wrong
    }
}

// A line of a name and a value.
#[tactic(auto, unfolding(crate::specs::Header::field_line))]
fn field_line(name: &[u8], value: &[u8]) -> HeaderLine
    ensures { result ≡ capped_line (field_line name.now value.now) }
{
    if name == b"WIDTH".as_slice() {
        number_line(Field::Width, value)
    } else if name == b"HEIGHT".as_slice() {
        number_line(Field::Height, value)
    } else if name == b"DEPTH".as_slice() {
        number_line(Field::Depth, value)
    } else if name == b"MAXVAL".as_slice() {
        number_line(Field::Maxval, value)
    } else if name == b"TUPLTYPE".as_slice() {
        type_line(value)
    } else {
        HeaderLine::Wrong
    }
}

// A line of one token.
#[tactic(auto, unfolding(crate::specs::Header::tokens_line))]
fn lone_line(name: &[u8]) -> HeaderLine
    ensures { result ≡ capped_line (tokens_line (name.now ∷ [])) }
{
    if name == b"ENDHDR".as_slice() {
        HeaderLine::End
    } else {
        HeaderLine::Wrong
    }
}

// The first token of a line, and what is behind it.
fn next_token(line: &[u8]) -> Option<(&[u8], &[u8])>
    ensures { MatchOption result (tokens line.now ≡ []) (λ p. tokens line.now ≡ p.0.now ∷ tokens p.1.now) }
{
    let start = token_in(line)?;
    let from = &line[start..];
    let size = white_in(from).unwrap_or(from.len());
    Some(from.split_at(size))
}

// A line that is no comment, by its tokens.
#[tactic(auto, unfolding(crate::specs::Header::tokens_line))]
fn tokens_line(line: &[u8]) -> HeaderLine
    ensures { result ≡ capped_line (tokens_line (tokens line.now)) }
{
    let Some((name, rest)) = next_token(line) else {
        return HeaderLine::Ignored;
    };
    let Some((value, rest)) = next_token(rest) else {
        return lone_line(name);
    };
    match next_token(rest) {
        Some(_) => HeaderLine::Wrong,
        None => field_line(name, value),
    }
}

// A line.
#[tactic(auto, using(crate::proofs::WordLaws::comment_line, crate::proofs::WordLaws::other_line))]
fn header_line(line: &[u8]) -> HeaderLine
    ensures { result ≡ capped_line (header_line line.now) }
{
    if line.starts_with(b"#") {
        return HeaderLine::Ignored;
    }
    tokens_line(line)
}

// ---- the lines

// The first line, without the newline that ends it, and what is behind that; none where no newline is left.
fn next_line(bytes: &[u8]) -> Option<(&[u8], &[u8])>
    ensures line { MatchOption result (lines_of bytes.now ≡ []) (λ p. lines_of bytes.now ≡ record { bytes = p.0.now; behind = p.1.now } ∷ lines_of p.1.now) }
    ensures shorter { IfSome result (λ p. length p.1.now < length bytes.now) }
{
    let size = newline_in(bytes)?;
    Some((&bytes[..size], &bytes[size + 1..]))
}

// A name's value, put in its place; none where it has one.
// Kept: the values by the name's number, so that one law serves the five names.
fn note(values: &mut [Option<u32>; 5], name: Field, value: u32) -> Option<()>
    ensures { Noted values.old name value result values.new }
{
    let at = name as usize;
    match values[at] {
        Some(_) => None,
        None => {
            values[at] = Some(value);
            Some(())
        }
    }
}

// The values that the lines up to ENDHDR give, and the bytes behind it; none where the lines are wrong.
fn read_lines(bytes: &[u8]) -> Option<([Option<u32>; 5], &[u8])>
    ensures { MatchOption result (lines_wrong (lines_of bytes.now) ≡ true) (λ p. LinesRead bytes.now p.0 p.1.now) }
{
    let mut values = [None; 5];
    let mut rest = bytes;
    while let Some((line, behind)) = next_line(rest) {
        match header_line(line) {
            HeaderLine::Ignored => {}
            HeaderLine::Value(name, value) => note(&mut values, name, value)?,
            HeaderLine::End => return Some((values, behind)),
            HeaderLine::Wrong => return None,
        }
        rest = behind;
    }
    None
}

// ---- the header

// A header in the subset: its sides up to a million, its samples a pixel, and the raster behind it.
#[derive(Clone, Copy)]
pub struct Header<'a> {
    pub size: Size,
    pub depth: u32,
    pub raster: &'a [u8],
}

// The header that values give: none where one is missing, MAXVAL is not 255, or DEPTH not what the tuple type has.
fn header_from(values: [Option<u32>; 5], raster: &[u8]) -> Option<Header<'_>>
    ensures { MatchOption result (Broken values) (λ h. Whole values h.size h.depth × (h.raster.now ≡ raster.now)) }
{
    let [width, height, depth, maxval, samples] = values;
    let size = Size {
        width: width?,
        height: height?,
    };
    let depth = depth?;
    if maxval? != 255 || samples? != depth {
        return None;
    }
    Some(Header {
        size,
        depth,
        raster,
    })
}

// The header of a file.
pub fn header_of(file: &[u8]) -> Option<Header<'_>>
    ensures { MatchOption result (header_wrong file.now ≡ true) (λ h. HeaderRead file.now h.size h.depth h.raster.now) }
{
    let lines = file.strip_prefix(b"P7\n")?;
    let (values, raster) = read_lines(lines)?;
    header_from(values, raster)
}
