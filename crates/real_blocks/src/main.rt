// Managers of real HDF5 files. Each stands in the input as the address of its FSHD (8 bytes), the FSHD (82) and the FSSE
// (its used length). Of each the program prints the address and the sections, `same` where writing these sections gives the same
// bytes, and below `strictly` what the strict reading gives.
#![tactic(auto)]

ghost use Rattle.std.specs.Prelude.{◌≡◌, ◌<◌, ◌≤◌, length, IfOk, IfSome};

use fields::address::BaseAddress;
use fields::bytes::read_uint_le;
use fields::width::enc_size;
use fsm_blocks::fsse::parse_fsse;
use fsm_blocks::header::FsmHeader;
use fsm_blocks::persisted::read_persisted_sections_strict;
use fsm_writer::writer::{serialize_fshd, serialize_fsse};
use std::io;
use streams::read_full;
use text::words::write_bytes;

fn numbers() -> [u64; 1024]
    ensures { 1024 ≡ length result }
{
    [0; 1024]
}

// Memory for the input.
fn input_buffer() -> [u8; 65536]
    ensures { 65536 ≡ length result }
{
    [0; 65536]
}

// Memory for a file with both blocks of a manager.
fn file_buffer() -> [u8; 524288] {
    [0; 524288]
}

// Memory for a block that is written.
fn block_buffer() -> [u8; 4096]
    ensures { 4096 ≡ length result }
{
    [0; 4096]
}

// As in real_image: a crate for three lines is no plainer.
fn print_line(rt: &impl Print, value: u64) -> io::Result<()> {
    println!(rt; "{value}")
}

fn print_section(rt: &impl Print, addr: u64, size: u64) -> io::Result<()> {
    println!(rt; "{addr} {size}")
}

// The first `count` pairs of a run, as far as it goes.
fn print_sections(rt: &impl Print, run: &[u64], count: usize) -> io::Result<()> {
    for pair in run.chunks_exact(2).take(count) {
        print_section(rt, pair[0], pair[1])?;
    }
    Ok(())
}

// Whether writing the sections of the manager at the front of `bytes`, which has `used` bytes of FSSE, gives its bytes.
fn writes_back(bytes: &[u8], used: usize, run: &[u64], count: usize, fsse_addr: u64) -> bool {
    let address = read_uint_le(bytes, 0, 8);
    let width = enc_size(count as u64);
    if 8 < width || 4096 < used || bytes.len() < 90 + used {
        return false;
    }
    // The class byte of the first entry.
    let class = read_uint_le(bytes, 119 + width, 1);
    let mut out = block_buffer();
    let _ = serialize_fshd(run, count, fsse_addr, 8, &mut out);
    if out[0..82] != bytes[8..90] {
        return false;
    }
    let _ = serialize_fsse(run, count, address, 8, (class % 256) as u8, &mut out);
    out[0..used] == bytes[90..90 + used]
}

// Prints what the strict reading gives of a manager whose blocks stand at their addresses in a file of zeros.
fn print_strictly(
    rt: &impl Print,
    fshd_addr: u64,
    fshd: &[u8],
    fsse_addr: u64,
    fsse: &[u8],
) -> io::Result<()> {
    let mut file = file_buffer();
    write_bytes(&mut file, fshd_addr as usize, fshd);
    write_bytes(&mut file, fsse_addr as usize, fsse);
    let mut run = numbers();
    let read = read_persisted_sections_strict(&file, &[fshd_addr], BaseAddress(0), 8, &mut run);
    if let Ok(count) = read {
        rt.write_all(b"strictly\n")?;
        print_sections(rt, &run, count as usize)?;
    }
    Ok(())
}

// Prints the manager at the front of `bytes`, if one stands there, and answers how many bytes it takes.
fn manager(rt: &impl Print, bytes: &[u8]) -> io::Result<Option<usize>>
    ensures { IfOk result (λ o. IfSome o (λ n. (0 < n) × (n ≤ length bytes.now))) }
{
    if bytes.len() < 90 {
        return Ok(None);
    }
    let Ok(h) = FsmHeader::parse(&bytes[8..90], 8) else {
        return Ok(None);
    };
    let used = h.fsse_used;
    if ((bytes.len() - 90) as u64) < used {
        return Ok(None);
    }
    let end = 90 + used as usize;
    let mut run = numbers();
    let Ok(count) = parse_fsse(&bytes[90..end], h, 8, &mut run) else {
        return Ok(None);
    };
    let address = read_uint_le(bytes, 0, 8);
    rt.write_all(b"manager ")?;
    print_line(rt, address)?;
    print_sections(rt, &run, count as usize)?;
    if writes_back(bytes, used as usize, &run, count as usize, h.fsse_addr) {
        rt.write_all(b"same\n")?;
    }
    print_strictly(rt, address, &bytes[8..90], h.fsse_addr, &bytes[90..end])?;
    Ok(Some(end))
}

fn managers(rt: &impl Print, bytes: &[u8]) -> io::Result<()> {
    let mut rest = bytes;
    while let Some(taken) = manager(rt, rest)? {
        rest = &rest[taken..];
    }
    Ok(())
}

fn main(rt: HostRuntime) -> io::Result<()> {
    let mut input = input_buffer();
    let len = read_full(&mut rt.reader(), &mut input)?;
    managers(&rt, &input[..len])
}
