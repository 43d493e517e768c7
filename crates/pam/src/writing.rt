// The one form in which a PAM file is written: its header's text, with the sides in decimal.
ghost use Rattle.std.specs.Prelude.{◌≡◌, ◌+◌, ◌*◌, ◌≤◌, ◌<◌, length, set};
ghost use Rattle.std.proofs.lemmas.List.Edits.{sets};
ghost use Rattle.pam.specs.Pam.{decimal, header_text, pam_of, pam_length, buffers_wrong};

use crate::raster::copy;
use crate::sides::Sides;

// How many digits a side has.
// Kept: digits by hand, here and in `put_decimal`. The library has no `fmt::Write` into a lent slice, and `write!` promises its
// text where it succeeds, but not that it does.
fn digits(n: u32) -> usize
    requires { n ≤ 4096 }
    ensures { result ≡ length (decimal n) }
{
    if n < 10 {
        return 1;
    }
    digits(n / 10) + 1
}

// Writes a text at a place; where it ends.
// Kept: a place beside the buffer. A function that hands back the rest of a `&mut` slice says what the slice becomes by an
// assertion on loans, which is no plainer than where the text ends.
fn put(file: &mut [u8], at: usize, bytes: &[u8]) -> usize
    requires { at + length bytes.now ≤ length file.old }
    ensures { (result ≡ at + length bytes.now) × (file.new ≡ sets file.old at bytes.now) }
{
    let end = at + bytes.len();
    copy(&mut file[at..end], bytes);
    end
}

// Writes a digit at a place; the place behind it.
fn put_digit(file: &mut [u8], at: usize, n: u32) -> usize
    requires { (n < 10) × (at < length file.old) }
    ensures { (result ≡ at + 1) × (file.new ≡ set file.old at (48 + n)) }
{
    file[at] = b'0' + n as u8;
    at + 1
}

// Writes a side's digits at a place; where they end.
fn put_decimal(file: &mut [u8], at: usize, n: u32) -> usize
    requires { (n ≤ 4096) × (at + length (decimal n) ≤ length file.old) }
    ensures { (result ≡ at + length (decimal n)) × (file.new ≡ sets file.old at (decimal n)) }
{
    if n < 10 {
        return put_digit(file, at, n);
    }
    let next = put_decimal(file, at, n / 10);
    put_digit(file, next, n % 10)
}

impl Sides {
    // How many bytes a header takes: 63 beside its sides' digits.
    fn header_length(self) -> usize
        ensures { result ≡ length (header_text self.width self.height) }
    {
        63 + digits(self.width) + digits(self.height)
    }

    // How many bytes a file takes.
    pub fn file_length(self) -> usize
        ensures { result ≡ pam_length self.width self.height }
    {
        self.header_length() + 4 * self.pixels()
    }

    // Whether the pixels or the buffer for the file have not the length that the size needs.
    #[tactic(auto, unfolding(crate::specs::Pam::buffers_wrong))]
    pub fn lengths_wrong(self, pixels: usize, file: usize) -> bool
        ensures { result ≡ buffers_wrong self.width self.height pixels file }
    {
        pixels != 4 * self.pixels() || file != self.file_length()
    }

    // Writes the header; where it ends.
    fn put_header(self, file: &mut [u8]) -> usize
        requires { length (header_text self.width self.height) ≤ length file.old }
        ensures { (result ≡ length (header_text self.width self.height)) × (file.new ≡ sets file.old 0 (header_text self.width self.height)) }
    {
        let at = put(file, 0, b"P7\nWIDTH ");
        let at = put_decimal(file, at, self.width);
        let at = put(file, at, b"\nHEIGHT ");
        let at = put_decimal(file, at, self.height);
        put(
            file,
            at,
            b"\nDEPTH 4\nMAXVAL 255\nTUPLTYPE RGB_ALPHA\nENDHDR\n",
        )
    }

    // Writes the whole file. No public call: the caller sees to the lengths.
    pub fn put_file(self, pixels: &[u8], file: &mut [u8])
        requires { length file.old ≡ length (pam_of self.width self.height pixels.now) }
        ensures { file.new ≡ pam_of self.width self.height pixels.now }
    {
        let at = self.put_header(file);
        put(file, at, pixels);
    }
}
