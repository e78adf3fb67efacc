// One line, answered.
ghost use Rattle.std.specs.Prelude.{◌≤◌};

use crate::addresses::address_call;
use crate::blocks::{fshd_parse_call, fsse_parse_call, read_call, serialize_call, split_call};
use crate::images::{image_call, image_into_call};
use crate::lengths::{blocks_len_call, fsse_len_call};
use crate::lists::{Lists, change_call, question_call};
use crate::memory::{FEW, NUMBERS, SOME, input_memory, numbers_memory};
use crate::message::{managers_call, parse_message_call, serialize_message_call};
use crate::pages::pages_call;
use crate::plans::plan_call;
use crate::reply::{Answered, Failure, Reply};
use crate::saves::save_call;
use crate::sums::{hashlittle_call, lookup3_call, verify_call};
use crate::words::{read_numbers, read_words};
use fsm_blocks::persisted::{read_persisted_sections, read_persisted_sections_strict};
use image::{read_image, read_image_strict};
use replay_lines::call::call_name;

// Answers a call of numbers alone.
fn numbers_call(name: &[u8], args: &[u64], lists: &mut Lists, out: &mut [u8]) -> Answered {
    match name {
        b"free"
        | b"take"
        | b"allocw"
        | b"alloc"
        | b"trail"
        | b"new"
        | b"lend"
        | b"room"
        | b"lend_total"
        | b"scratch" => change_call(name, args, lists),
        b"largestw" | b"largest" | b"isempty" | b"total" | b"sections" | b"run" | b"tstart" => {
            question_call(name, args, lists, out)
        }
        b"marks" | b"show_marks" | b"page_alloc" | b"page_free" => {
            pages_call(name, args, lists, out)
        }
        b"fsse_len" => fsse_len_call(args),
        b"blocks_len" => blocks_len_call(args),
        b"split" => split_call(args, out),
        b"serialize" => serialize_call(args, out),
        b"plan" => plan_call(args, out),
        b"msg_ser" => serialize_message_call(args, out),
        b"msg_managers" => managers_call(args, out),
        _ => address_call(name, args),
    }
}

// Whether the last word of a call is bytes.
fn has_bytes(name: &[u8]) -> bool {
    matches!(
        name,
        b"lookup3"
            | b"hashlittle"
            | b"verify"
            | b"fshd_parse"
            | b"fsse_parse"
            | b"read"
            | b"strict"
            | b"msg_parse"
            | b"image"
            | b"image_into"
            | b"strict_image"
            | b"save"
    )
}

// Answers a call of numbers and bytes. A save changes a copy of the image that its bytes are.
fn bytes_call(
    name: &[u8],
    args: &[u64],
    bytes: &mut [u8],
    lists: &Lists,
    out: &mut [u8],
) -> Answered {
    match name {
        b"lookup3" => Ok(Reply::Text(lookup3_call(args, bytes, out))),
        b"hashlittle" => Ok(Reply::Text(hashlittle_call(args, bytes, out))),
        b"verify" => Ok(Reply::Text(verify_call(args, bytes, out))),
        b"fshd_parse" => fshd_parse_call(args, bytes, out),
        b"fsse_parse" => fsse_parse_call(args, bytes, out),
        b"read" => read_call(args, bytes, out, read_persisted_sections),
        b"strict" => read_call(args, bytes, out, read_persisted_sections_strict),
        b"msg_parse" => parse_message_call(args, bytes, out),
        b"image" => image_call(args, bytes, out),
        b"image_into" => image_into_call(args, bytes, out, read_image),
        b"strict_image" => image_into_call(args, bytes, out, read_image_strict),
        b"save" => save_call(args, bytes, lists, out),
        _ => Err(Failure::Bad),
    }
}

// Answers a call of at most N numbers.
fn few_numbers<const N: usize>(
    name: &[u8],
    line: &[u8],
    lists: &mut Lists,
    out: &mut [u8],
) -> Answered
    requires { N ≤ 32768 }
{
    let mut numbers = numbers_memory::<N>();
    let n = read_numbers(line, &mut numbers)?;
    numbers_call(name, &numbers[..n], lists, out)
}

// Answers a call whose last word is bytes.
fn line_with_bytes(name: &[u8], line: &[u8], lists: &Lists, out: &mut [u8]) -> Answered {
    let mut numbers = numbers_memory::<NUMBERS>();
    let mut bytes = input_memory();
    let words = read_words(line, &mut numbers, &mut bytes)?;
    bytes_call(
        name,
        &numbers[..words.numbers],
        &mut bytes[..words.bytes],
        lists,
        out,
    )
}

// The answer to a line. Memory for few numbers takes less time to make, and most calls have few; one stands after each space.
pub(crate) fn answer_line(line: &[u8], lists: &mut Lists, out: &mut [u8]) -> Answered {
    let name = call_name(line);
    if has_bytes(name) {
        return line_with_bytes(name, line, lists, out);
    }
    match line.iter().filter(|byte| **byte == b' ').count() {
        0..=FEW => few_numbers::<FEW>(name, line, lists, out),
        ..=SOME => few_numbers::<SOME>(name, line, lists, out),
        _ => few_numbers::<NUMBERS>(name, line, lists, out),
    }
}
