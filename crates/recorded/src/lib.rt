// The recorded list as text: the tokens of a case, the numbers, floats, cells and colours that they hold, and comparisons
// with them. Nothing here trusts the list: what lies outside a slice is an empty part, or 0.
#![tactic(auto)]

ghost use Rattle.std.specs.Prelude.{◌≡◌, ◌≢◌, ℕ, ◌<◌, ◌≤◌, IfOk, Ok, length, slice_index};
ghost use Rattle.std.specs.Result.{ForOk};
ghost use Rattle.std.proofs.Common.{rules};

use color::ReducedColor;
use std::num::f32_from_bits_with_nan;

// ---- bytes of a slice

pub fn byte_at(bytes: &[u8], i: usize) -> u8 {
    bytes.get(i).copied().unwrap_or(0)
}

// The bytes from `from` up to `to`; none where these are not there.
fn piece(bytes: &[u8], from: usize, to: usize) -> &[u8] {
    bytes.get(from..to).unwrap_or(&[])
}

// The place of the first such byte from `from` on; the slice's end where there is none. No public call: the caller sees to
// the place. Kept: with `position` two of the four promises were tried and not proved.
pub fn find(bytes: &[u8], from: usize, byte: u8) -> usize
    requires { from ≤ length bytes.now }
    ensures low { from ≤ result }
    ensures high { result ≤ length bytes.now }
    ensures before { (k : ℕ) → from ≤ k → k < result → slice_index bytes.now k ≢ byte }
    ensures found { result < length bytes.now → slice_index bytes.now result ≡ byte }
{
    for i in from..bytes.len() {
        if bytes[i] == byte {
            return i;
        }
    }
    bytes.len()
}

// ---- reading a line

// A line that has another digit than 0 to 9 and a to f, or half a byte, or more than there is room for.
#[derive(Clone, Copy, Debug, PartialEq, Eq)]
struct Malformed;

// The value of a hexadecimal digit.
fn digit(c: u8) -> Result<u8, Malformed> {
    match c {
        b'0'..=b'9' => Ok(c - b'0'),
        b'a'..=b'f' => Ok(c - b'a' + 10),
        _ => Err(Malformed),
    }
}

// The byte of two digits.
fn byte_of(digits: &[u8]) -> Result<u8, Malformed> {
    match digits {
        [high, low] => Ok(digit(*high)? << 4 | digit(*low)?),
        _ => Err(Malformed),
    }
}

// Writes the bytes that the digits stand for. Answers how many.
fn unhex(digits: &[u8], bytes: &mut [u8]) -> Result<usize, Malformed>
    ensures { IfOk result (λ n. n ≤ length bytes.new) }
{
    let pairs = digits.chunks(2);
    let n = pairs.len();
    if n > bytes.len() {
        return Err(Malformed);
    }
    for (place, pair) in bytes.iter_mut().zip(pairs) {
        *place = byte_of(pair)?;
    }
    Ok(n)
}

// ---- the tokens of a case

// How wide a token has to be, in bytes: as wide as it is, or as one of these.
pub const ANY: Option<usize> = None;

pub const BYTE: Option<usize> = Some(1);

pub const COLOR: Option<usize> = Some(3);

pub const WORD: Option<usize> = Some(4);

pub const LONG: Option<usize> = Some(8);

// Room for the tokens of a case: their bytes lie one after the other, and `ends` says of each where it ends. Kept: with no
// heap, how many there are stands beside the array. There is no count where a line was malformed, and then no token.
#[derive(Drop)]
pub struct Room {
    bytes: [u8; 32703],
    ends: [usize; 31],
    count: Result<usize, Malformed>,
    ghost counted: { ForOk count (λ n. n ≤ 31) },
}

impl Room {
    // No tokens.
    pub fn new() -> Self
        ensures { result.count ≡ Ok 0 }
    {
        Room {
            bytes: [0; 32703],
            ends: [0; 31],
            count: Ok(0),
        }
    }

    pub fn clear(&mut self)
        ensures { self.new.count ≡ Ok 0 }
    {
        self.count = Ok(0);
    }

    // Where token k begins, if there is a token before.
    fn start(&self, k: usize) -> usize {
        if k == 0 {
            0
        } else {
            self.ends.get(k - 1).copied().unwrap_or(0)
        }
    }

    // Token k.
    pub fn part(&self, k: usize) -> &[u8] {
        if self.count.is_ok_and(|n| k < n) {
            return piece(&self.bytes, self.start(k), self.ends[k]);
        }
        &[]
    }

    // Reads a token behind those that there are. Answers how many there are with it. A dash stands for no digits.
    fn token(&mut self, text: &[u8]) -> Result<usize, Malformed>
        ensures { IfOk result (λ n. n ≤ 31) }
    {
        let k = self.count?;
        let from = self.start(k);
        let digits = match text {
            b"-" => &[],
            _ => text,
        };
        let bytes = self.bytes.get_mut(from..).ok_or(Malformed)?;
        let n = unhex(digits, bytes)?;
        if k >= self.ends.len() {
            return Err(Malformed);
        }
        self.ends[k] = from + n;
        Ok(k + 1)
    }

    // Reads the tokens of a line, which stand after its letter and a space. After a malformed line no case is shaped.
    pub fn decode(&mut self, line: &[u8]) {
        if let Some(tokens) = line.get(2..) {
            for text in tokens.split(|c| *c == b' ') {
                self.count = self.token(text);
            }
        }
    }

    // Whether the tokens are as many as the widths, and as wide.
    pub fn shaped(&self, widths: &[Option<usize>]) -> bool {
        self.count.is_ok_and(|n| n == widths.len())
            && widths
                .iter()
                .enumerate()
                .all(|(k, width)| width.is_none_or(|n| self.part(k).len() == n))
    }

    // ---- numbers, most significant byte first

    // The number that token k is, without what is above 64 bits of it.
    pub fn number(&self, k: usize) -> u64 {
        self.part(k)
            .iter()
            .fold(0, |n, byte| n << 8 | u64::from(*byte))
    }

    // The same, of 32 bits.
    pub fn word(&self, k: usize) -> u32 {
        (self.number(k) & 0xffff_ffff) as u32
    }

    // Whether token k is this number. Kept: one line a type, where an impl of `Value` is a dozen, with a read that nobody calls.
    pub fn is_byte(&self, k: usize, n: u8) -> bool {
        self.part(k) == [n].as_slice()
    }

    pub fn is_word(&self, k: usize, n: u32) -> bool {
        self.part(k) == n.to_be_bytes().as_slice()
    }

    pub fn is_position(&self, k: usize, n: usize) -> bool {
        u32::try_from(n).is_ok_and(|n| self.is_word(k, n))
    }

    pub fn is_long(&self, k: usize, n: u64) -> bool {
        self.part(k) == n.to_be_bytes().as_slice()
    }

    // Whether token k has no bytes.
    pub fn is_empty(&self, k: usize) -> bool {
        self.part(k).is_empty()
    }

    // Whether token k is this number, and the tokens after it are empty.
    pub fn is_refusal(&self, k: usize, n: u8) -> bool {
        self.is_byte(k, n)
            && self
                .count
                .is_ok_and(|count| (k..count).skip(1).all(|j| self.is_empty(j)))
    }

    // ---- floats, by their bits, and cells: signed numbers of two bytes each, in two's complement

    // Whether token k is just these values.
    pub fn are<T: Value>(&self, k: usize, values: &[T]) -> bool {
        let chunks = self.part(k).chunks_exact(T::WIDTH);
        chunks.remainder().is_empty()
            && chunks.len() == values.len()
            && chunks
                .zip(values)
                .all(|(bytes, value)| value.is_written(bytes))
    }

    // Whether token k is this float.
    pub fn is_float(&self, k: usize, x: f32) -> bool {
        self.are(k, &[x])
    }

    // Reads the values of token k. Answers whether it has just so many, and no NaN.
    pub fn read_into<T: Value>(&self, k: usize, out: &mut [T]) -> bool {
        for (place, bytes) in out.iter_mut().zip(self.part(k).chunks_exact(T::WIDTH)) {
            *place = T::read(bytes);
        }
        self.are(k, out)
    }

    // Reads the bytes of token k. Answers whether it has just so many.
    pub fn bytes_into(&self, k: usize, out: &mut [u8]) -> bool {
        let bytes = self.part(k);
        if bytes.len() != out.len() {
            return false;
        }
        out.copy_from_slice(bytes);
        true
    }

    // ---- colours

    // The reduced colour of token k.
    pub fn reduced(&self, k: usize) -> ReducedColor {
        let p = self.part(k);
        ReducedColor::new(byte_at(p, 0), byte_at(p, 1), byte_at(p, 2), byte_at(p, 3))
    }
}

// ---- values that take several bytes each

pub trait Value: Copy {
    ghost WIDTH: { ℕ };

    // How many bytes one takes.
    const WIDTH: usize;

    fn read(bytes: &[u8]) -> Self;

    fn is_written(self, bytes: &[u8]) -> bool;

    ghost takes_some: { 0 < WIDTH };
}

impl Value for f32 {
    ghost WIDTH = { 4 };

    const WIDTH: usize = 4;

    // The float with these bits, 0 where they are a NaN's.
    fn read(bytes: &[u8]) -> Self {
        let x = f32_from_bits_with_nan(bytes.try_into().map_or(0, u32::from_be_bytes));
        if x.is_nan() { 0.0 } else { x }
    }

    // No NaN is.
    fn is_written(self, bytes: &[u8]) -> bool {
        !self.is_nan() && bytes == self.to_bits().to_be_bytes().as_slice()
    }

    ghost takes_some = { Prim.search rules };
}

impl Value for i16 {
    ghost WIDTH = { 2 };

    const WIDTH: usize = 2;

    fn read(bytes: &[u8]) -> Self {
        bytes.try_into().map_or(0, i16::from_be_bytes)
    }

    fn is_written(self, bytes: &[u8]) -> bool {
        bytes == self.to_be_bytes().as_slice()
    }

    ghost takes_some = { Prim.search rules };
}

// Float i of a part, 0 where its bytes are not all there. By its place, since `nth` of the library's chunks goes through the
// floats before it.
pub fn float_at(p: &[u8], i: usize) -> f32 {
    let from = i.saturating_mul(4);
    p.get(from..from.saturating_add(4)).map_or(0.0, f32::read)
}
