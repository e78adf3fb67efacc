// The calls that read an image.
use crate::lines::{end_line, pairs_line, put_numbers};
use crate::memory::{NUMBERS, numbers_memory};
use crate::reply::{Answered, Failure, Reply};
use image::{ImageRead, read_image};
use text::words::write_bytes;

// The sum of the slots' counts, modulo 2^64: no run has as many sections.
fn total(counts: &[u64]) -> u64 {
    counts.iter().fold(0, |sum, n| sum.wrapping_add(*n))
}

// The line of the slots' counts and of their sections.
fn counts_line(counts: &[u64], sections: &[u64], out: &mut [u8]) -> usize {
    let at = write_bytes(out, 0, b"ok ");
    let run = put_numbers(out, at, counts);
    pairs_line(out, run, sections, total(counts))
}

pub(crate) fn image_call(args: &[u64], image: &[u8], out: &mut [u8]) -> Answered {
    let &[place] = args else {
        return Err(Failure::Bad);
    };
    let mut sections = numbers_memory::<NUMBERS>();
    let read = read_image(image, place, &mut sections);
    read.answer?;
    Ok(Reply::Text(counts_line(&read.counts, &sections, out)))
}

// The line of the slots' counts and of all numbers of the lent run.
fn run_line(counts: &[u64], run: &[u64], out: &mut [u8]) -> usize {
    let at = write_bytes(out, 0, b"ok ");
    let to = put_numbers(out, at, counts);
    let end = put_numbers(out, to, run);
    end_line(out, end)
}

// Reads into a lent run of as many numbers as asked for, each 7 before.
pub(crate) fn image_into_call<F: FnOnce(&[u8], u64, &mut [u64]) -> ImageRead>(
    args: &[u64],
    image: &[u8],
    out: &mut [u8],
    read_by: F,
) -> Answered
    requires { F.IsAlwaysCallable read_by }
{
    let &[place, room] = args else {
        return Err(Failure::Bad);
    };
    let n = room as usize;
    if NUMBERS < n {
        return Err(Failure::Bad);
    }
    let mut sections = [7; NUMBERS];
    let run = &mut sections[..n];
    let read = read_by(image, place, run);
    read.answer?;
    Ok(Reply::Text(run_line(&read.counts, run, out)))
}
