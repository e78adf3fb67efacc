// The calls on sections and their blocks.
use crate::lines::{end_line, put_first, put_numbers};
use crate::memory::{NUMBERS, bytes_memory, numbers_memory};
use crate::reply::{Answered, Failure, Reply, pairs_reply};
use crate::words::pairs_in;
use error::Refusal;
use fields::address::BaseAddress;
use fsm_blocks::fsse::parse_fsse;
use fsm_blocks::header::FsmHeader;
use fsm_pages::pages::split_at_pages;
use fsm_writer::writer::{serialize_fshd, serialize_fsse};
use text::words::write_bytes;

pub(crate) fn split_call(args: &[u64], out: &mut [u8]) -> Answered {
    let [page, count, run @ ..] = args else {
        return Err(Failure::Bad);
    };
    let n = pairs_in(run, *count)?;
    let mut sections = numbers_memory::<NUMBERS>();
    let pieces = split_at_pages(run, n, *page, &mut sections)?;
    Ok(pairs_reply(b"", &sections, pieces as u64, out))
}

// Serializes both blocks of the sections.
pub(crate) fn serialize_call(args: &[u64], out: &mut [u8]) -> Answered {
    let [o, fshd_addr, fsse_addr, class, count, run @ ..] = args else {
        return Err(Failure::Bad);
    };
    let o = u8::try_from(*o)?;
    let class = u8::try_from(*class)?;
    let n = pairs_in(run, *count)?;
    let mut fshd = bytes_memory();
    let fshd_len = serialize_fshd(run, n, *fsse_addr, o, &mut fshd)?;
    let mut fsse = bytes_memory();
    let fsse_len = serialize_fsse(run, n, *fshd_addr, o, class, &mut fsse)?;
    let at = put_first(out, 0, &fshd, fshd_len);
    let end = put_first(out, at, &fsse, fsse_len);
    Ok(Reply::Text(end_line(out, end)))
}

fn header_line(header: FsmHeader, out: &mut [u8]) -> usize {
    let fields = [
        header.total_space,
        header.total_sections,
        u64::from(header.addr_space_bits),
        header.max_section_size,
        header.fsse_addr,
        header.fsse_used,
    ];
    let at = write_bytes(out, 0, b"ok ");
    let end = put_numbers(out, at, &fields);
    end_line(out, end)
}

pub(crate) fn fshd_parse_call(args: &[u64], bytes: &[u8], out: &mut [u8]) -> Answered {
    let &[o] = args else {
        return Err(Failure::Bad);
    };
    let header = FsmHeader::parse(bytes, u8::try_from(o)?)?;
    Ok(Reply::Text(header_line(header, out)))
}

pub(crate) fn fsse_parse_call(args: &[u64], bytes: &[u8], out: &mut [u8]) -> Answered {
    let &[o, total_sections, bits, max_section_size] = args else {
        return Err(Failure::Bad);
    };
    let o = u8::try_from(o)?;
    let header = FsmHeader {
        total_space: 0,
        total_sections,
        addr_space_bits: u16::try_from(bits)?,
        max_section_size,
        fsse_addr: 0,
        fsse_used: bytes.len() as u64,
    };
    let mut sections = numbers_memory::<NUMBERS>();
    let n = parse_fsse(bytes, header, o, &mut sections)?;
    Ok(pairs_reply(b"ok ", &sections, n, out))
}

// Reads the sections of the slots.
pub(crate) fn read_call<
    F: FnOnce(&[u8], &[u64], BaseAddress, u8, &mut [u64]) -> Result<u64, Refusal>,
>(args: &[u64], bytes: &[u8], out: &mut [u8], read_by: F) -> Answered
    requires { F.IsAlwaysCallable read_by }
{
    let [o, base, count, slots @ ..] = args else {
        return Err(Failure::Bad);
    };
    if *count != slots.len() as u64 {
        return Err(Failure::Bad);
    }
    let o = u8::try_from(*o)?;
    let mut sections = numbers_memory::<NUMBERS>();
    let n = read_by(bytes, slots, BaseAddress(*base), o, &mut sections)?;
    Ok(pairs_reply(b"ok ", &sections, n, out))
}
