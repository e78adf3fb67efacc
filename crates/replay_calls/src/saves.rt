// The call of a save.
use crate::lines::{end_line, put_bytes};
use crate::lists::Lists;
use crate::memory::{BYTES, bytes_memory};
use crate::reply::{Answered, Failure, Reply};
use replay_lines::answer::put_number;
use save::{Target, save_begin};
use save_step::save_steps;
use text::words::write_bytes;

// The line of the blocks' length and of the image.
fn image_line(len: u64, image: &[u8], out: &mut [u8]) -> usize {
    let at = write_bytes(out, 0, b"ok ");
    let bytes = put_number(out, at, len);
    let end = put_bytes(out, bytes, image);
    end_line(out, end)
}

// Saves the lists over an image, makes as many steps as the last number says, and writes the image that they leave.
pub(crate) fn save_call(args: &[u64], image: &mut [u8], lists: &Lists, out: &mut [u8]) -> Answered {
    let &[page, start, place, steps] = args else {
        return Err(Failure::Bad);
    };
    let mut memory = bytes_memory();
    let n = lists.scratch.min(BYTES);
    let scratch = &mut memory[..n];
    let save = save_begin(
        lists.metadata.lent(),
        lists.raw.lent(),
        lists.unclassified.lent(),
        lists.records(),
        Target { page, start, place },
        image,
        scratch,
    )?;
    save_steps(save, image, scratch, steps);
    Ok(Reply::Text(image_line(save.len, image, out)))
}
