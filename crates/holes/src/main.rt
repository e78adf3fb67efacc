// Lists the sections that an image on standard input tracks as free: slot, address and size, a line for each.
#![tactic(auto)]

ghost use Rattle.std.specs.Prelude.{◌≡◌, ◌+◌, ◌≤◌, length, take};
ghost use Rattle.holes_text.specs.Holes.{image_limit, text_limit, holes_text};

use holes_text::{IMAGE_LIMIT, TEXT_LIMIT, holes_text};
use std::io;
use streams::read_full;

// Memory for the bytes of an image: one more than the limit, so that a longer one is noticed.
fn image_buffer() -> [u8; IMAGE_LIMIT + 1]
    ensures { image_limit + 1 ≡ length result }
{
    [0; IMAGE_LIMIT + 1]
}

// Memory that holds any text that `holes_text` writes.
fn text_buffer() -> [u8; TEXT_LIMIT]
    ensures { text_limit ≡ length result }
{
    [0; TEXT_LIMIT]
}

// Writes the text to memory that holds any, so that none is refused, and answers its length.
fn write_text(image: &[u8], out: &mut [u8]) -> usize
    requires { text_limit ≤ length out.old }
    ensures { (result ≤ length out.new) × (take result out.new ≡ holes_text image.now) }
{
    holes_text(image, out).unwrap()
}

fn main(rt: HostRuntime) -> io::Result<()> {
    let mut image = image_buffer();
    let n = read_full(&mut rt.reader(), &mut image)?;
    let mut text = text_buffer();
    let len = write_text(&image[..n], &mut text);
    rt.write_all(&text[..len])
}
