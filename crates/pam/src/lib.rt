// PAM files: the size of one, its pixels, and the one form that is written. The layout is that of the public Netpbm PAM
// document; the subset is document 02's, Ask 1.
#![tactic(auto)]

mod header;
mod raster;
mod sides;
mod text;
mod writing;

ghost use Rattle.std.specs.Prelude.{◌≡◌, IfOk};
ghost use Rattle.replies.specs.Replies.{first_reply};
ghost use Rattle.replies.specs.Refusals.{number_of};
ghost use Rattle.pam.specs.Pam.{size_replies, PamSized, PamRead, PamMeasured, PamWritten};
ghost use Rattle.pam.specs.Reading.{HeaderRead};

use header::{Header, header_of};
use replies::Refusal;
use sides::Sides;

// A picture's sides.
#[derive(Clone, Copy, Debug, PartialEq, Eq, Hash)]
pub struct Size {
    pub width: u32,
    pub height: u32,
}

// The header of a file, or the refusal that needs no lent buffer.
fn checked_header(file: &[u8]) -> Result<Header<'_>, Refusal>
    ensures number { number_of result ≡ first_reply (size_replies file.now) }
    ensures header { IfOk result (λ h. HeaderRead file.now h.size h.depth h.raster.now) }
{
    let header = header_of(file).ok_or(Refusal::PamHeader)?;
    let Size { width, height } = header.size;
    let n = Sides::checked(width, height)?.pixels();
    if header.raster.len() != header.depth as usize * n {
        return Err(Refusal::PamPixels);
    }
    Ok(header)
}

// ---- the calls

// The size of a file's picture, for which a reader lends four bytes a pixel.
pub fn pam_size(file: &[u8]) -> Result<Size, Refusal>
    ensures { PamSized file.now result }
{
    let header = checked_header(file)?;
    Ok(header.size)
}

// A file's pixels, four bytes each, and its size. On a refusal the buffer is as it was.
pub fn read_pam(file: &[u8], pixels: &mut [u8]) -> Result<Size, Refusal>
    ensures { PamRead file.now pixels.old result pixels.new }
{
    let header = checked_header(file)?;
    let n = header.size.width as usize * header.size.height as usize;
    if pixels.len() != 4 * n {
        return Err(Refusal::Length);
    }
    raster::put_pixels(header.depth, header.raster, pixels);
    Ok(header.size)
}

// How many bytes the file of a picture takes.
pub fn pam_length(width: u32, height: u32) -> Result<u64, Refusal>
    ensures { PamMeasured width height result }
{
    Ok(Sides::checked(width, height)?.file_length() as u64)
}

// Writes a picture's file into a buffer of just that length. On a refusal the buffer is as it was.
pub fn write_pam(width: u32, height: u32, pixels: &[u8], file: &mut [u8]) -> Result<(), Refusal>
    ensures { PamWritten width height pixels.now file.old result file.new }
{
    let sides = Sides::checked(width, height)?;
    if sides.lengths_wrong(pixels.len(), file.len()) {
        return Err(Refusal::Length);
    }
    sides.put_file(pixels, file);
    Ok(())
}
