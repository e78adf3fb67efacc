// The free space of a real HDF5 file. The input has the file's offset size and length size (a byte each), the place of the
// File Space Info message in the file (8 bytes) and its length (2), then the file. The program prints the number of each slot
// of the message, and under it the sections of the manager that the slot names, first as the loose reading gives them and then,
// below `strictly`, as the strict one does.
#![tactic(auto)]

ghost use Rattle.std.specs.Prelude.{◌≡◌, length};

use error::Refusal;
use fields::address::BaseAddress;
use fields::bytes::read_uint_le;
use file_space_info::{FileSpaceInfo, NUM_FILE_FSM_MANAGERS, Parsed};
use fsm_blocks::persisted::{read_persisted_sections, read_persisted_sections_strict};
use std::io;
use streams::read_full;

// Memory for the input.
fn input_buffer() -> [u8; 65536]
    ensures { 65536 ≡ length result }
{
    [0; 65536]
}

// As in real_blocks: a crate for three lines is no plainer.
fn print_line(rt: &impl Print, value: u64) -> io::Result<()> {
    println!(rt; "{value}")
}

fn print_refusal(rt: &impl Print, refusal: Refusal) -> io::Result<()> {
    rt.write_all(b"refused\n")?;
    print_line(rt, u64::from(refusal.number()))
}

fn print_section(rt: &impl Print, addr: u64, size: u64) -> io::Result<()> {
    println!(rt; "{addr} {size}")
}

// The first `count` pairs of a run, as far as it goes.
fn print_sections(rt: &impl Print, run: &[u64], count: u64) -> io::Result<()> {
    for pair in run.chunks_exact(2).take(count as usize) {
        print_section(rt, pair[0], pair[1])?;
    }
    Ok(())
}

fn print_answer(rt: &impl Print, read: Result<u64, Refusal>, run: &[u64]) -> io::Result<()> {
    match read {
        Ok(count) => print_sections(rt, run, count),
        Err(refusal) => print_refusal(rt, refusal),
    }
}

// The sections of the manager that a slot names. The file has no user block, so its base address is 0.
fn print_manager(rt: &impl Print, file: &[u8], slot: u64, offset_size: u8) -> io::Result<()> {
    let base = BaseAddress(0);
    let mut run = [0; 64];
    let read = read_persisted_sections(file, &[slot], base, offset_size, &mut run);
    print_answer(rt, read, &run)?;
    let mut strict = [0; 64];
    let checked = read_persisted_sections_strict(file, &[slot], base, offset_size, &mut strict);
    rt.write_all(b"strictly\n")?;
    print_answer(rt, checked, &strict)
}

// The first `count` slots, as far as they go.
fn print_slots(
    rt: &impl Print,
    file: &[u8],
    slots: &[u64],
    count: usize,
    offset_size: u8,
) -> io::Result<()> {
    for (i, slot) in slots.iter().enumerate().take(count) {
        rt.write_all(b"slot ")?;
        print_line(rt, i as u64)?;
        print_manager(rt, file, *slot, offset_size)?;
    }
    Ok(())
}

fn print_message(
    rt: &impl Print,
    file: &[u8],
    message: &[u8],
    offset_size: u8,
    length_size: u8,
) -> io::Result<()> {
    let mut slots = [0; NUM_FILE_FSM_MANAGERS];
    match FileSpaceInfo::parse(message, offset_size, length_size, &mut slots) {
        Ok(Parsed { info: _, count }) => print_slots(rt, file, &slots, count, offset_size),
        Err(refusal) => print_refusal(rt, refusal),
    }
}

// An input that is too short for its message prints nothing.
fn print_file(rt: &impl Print, input: &[u8]) -> io::Result<()> {
    if input.len() < 12 {
        return Ok(());
    }
    let place = read_uint_le(input, 2, 8);
    let len = read_uint_le(input, 10, 2);
    let file_len = (input.len() - 12) as u64;
    if file_len < len {
        return Ok(());
    }
    if file_len - len < place {
        return Ok(());
    }
    let first = 12 + place as usize;
    let end = first + len as usize;
    print_message(rt, &input[12..], &input[first..end], input[0], input[1])
}

fn main(rt: HostRuntime) -> io::Result<()> {
    let mut input = input_buffer();
    let len = read_full(&mut rt.reader(), &mut input)?;
    print_file(&rt, &input[..len])
}
