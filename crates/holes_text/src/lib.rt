// The text that the program `holes` prints for an image.
#![tactic(auto)]

ghost use Rattle.std.specs.Prelude.{◌≡◌, ◌*◌, length};
ghost use Rattle.error.specs.Answers.{as_outcome};
ghost use Rattle.error.specs.Lent.{with, left, leaving};
ghost use Rattle.text.specs.Text.{written};
ghost use Rattle.holes_text.specs.Holes.{section_limit, text_limit, holes_text, holes_written};

use crate::listing::{write_listing, write_refusal};
use error::Refusal;
use image::read_image;
use text::words::write_bytes;

mod listing;

// The bytes of the longest image that is read.
pub const IMAGE_LIMIT: usize = 65536;

// The sections that are listed at the most.
pub const SECTION_LIMIT: usize = 2048;

// The bytes of the longest text.
pub const TEXT_LIMIT: usize = 92178;

// A run for the sections.
fn lent_run() -> [u64; 2 * SECTION_LIMIT]
    ensures { 2 * section_limit ≡ length result }
{
    [0; 2 * SECTION_LIMIT]
}

// Memory that holds any text.
fn text_memory() -> [u8; TEXT_LIMIT]
    ensures { text_limit ≡ length result }
{
    [0; TEXT_LIMIT]
}

// Writes the listing of an image that begins with its message, or the refusal of its reading. Answers how many bytes of
// `out` it wrote; what would pass the end is dropped.
fn print(image: &[u8], out: &mut [u8]) -> usize
    ensures { with result out.new ≡ written 0 (holes_text image.now) out.old }
{
    if IMAGE_LIMIT < image.len() {
        let refusal = Refusal::OverCapacity {
            needed: image.len() as u64,
            given: IMAGE_LIMIT as u64,
        };
        return write_refusal(refusal.number(), out);
    }
    let mut run = lent_run();
    let read = read_image(image, 0, &mut run);
    match read.answer {
        Ok(()) => write_listing(&read.counts, &run, out),
        Err(refusal) => write_refusal(refusal.number(), out),
    }
}

// Writes the text of an image to the front of `out`: the listing, or the refusal of its reading. The text is made in memory
// that holds any, so that its length is known before a byte is written.
pub fn holes_text(image: &[u8], out: &mut [u8]) -> Result<usize, Refusal>
    ensures { left (as_outcome result) out.new ≡ leaving out.old (holes_written image.now out.old) }
{
    let mut text = text_memory();
    let n = print(image, &mut text);
    if out.len() < n {
        return Err(Refusal::OverCapacity {
            needed: n as u64,
            given: out.len() as u64,
        });
    }
    Ok(write_bytes(out, 0, &text[..n]))
}
