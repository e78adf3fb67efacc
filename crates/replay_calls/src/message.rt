// The calls on the File Space Info message.
use crate::lines::{end_line, put_counted, put_first, put_numbers};
use crate::memory::{NUMBERS, bytes_memory, numbers_memory};
use crate::reply::{Answered, Failure, Reply};
use file_space_info::{FileSpaceInfo, FileSpaceStrategy};
use text::words::write_bytes;

fn message_line(info: FileSpaceInfo, addrs: &[u64], count: usize, out: &mut [u8]) -> usize {
    let fields = [
        u64::from(info.strategy.to_code()),
        u64::from(info.persist),
        info.threshold,
        info.page_size,
        u64::from(info.page_end_meta_threshold),
        info.eoa_pre_fsm,
    ];
    let at = write_bytes(out, 0, b"ok ");
    let slots = put_numbers(out, at, &fields);
    let end = put_counted(out, slots, addrs, count as u64);
    end_line(out, end)
}

pub(crate) fn parse_message_call(args: &[u64], bytes: &[u8], out: &mut [u8]) -> Answered {
    let &[o, l] = args else {
        return Err(Failure::Bad);
    };
    let mut addrs = numbers_memory::<NUMBERS>();
    let parsed = FileSpaceInfo::parse(bytes, u8::try_from(o)?, u8::try_from(l)?, &mut addrs)?;
    Ok(Reply::Text(message_line(parsed.info, &addrs, parsed.count, out)))
}

// A message serialized.
fn message_bytes(info: FileSpaceInfo, addrs: &[u64], out: &mut [u8]) -> Answered {
    let mut message = bytes_memory();
    let len = info.serialize(addrs, &mut message)?;
    let end = put_first(out, 0, &message, len);
    Ok(Reply::Text(end_line(out, end)))
}

fn flag(n: u64) -> Result<bool, Failure> {
    match n {
        0 => Ok(false),
        1 => Ok(true),
        _ => Err(Failure::Bad),
    }
}

// A code that is none of a strategy breaks the protocol.
fn strategy(code: u64) -> Result<FileSpaceStrategy, Failure> {
    FileSpaceStrategy::from_code(u8::try_from(code)?).map_err(|_| Failure::Bad)
}

pub(crate) fn serialize_message_call(args: &[u64], out: &mut [u8]) -> Answered {
    let [
        code,
        persist,
        threshold,
        page_size,
        page_end,
        eoa_pre_fsm,
        count,
        addrs @ ..,
    ] = args
    else {
        return Err(Failure::Bad);
    };
    if *count != addrs.len() as u64 {
        return Err(Failure::Bad);
    }
    let info = FileSpaceInfo {
        strategy: strategy(*code)?,
        persist: flag(*persist)?,
        threshold: *threshold,
        page_size: *page_size,
        page_end_meta_threshold: u16::try_from(*page_end)?,
        eoa_pre_fsm: *eoa_pre_fsm,
    };
    message_bytes(info, addrs, out)
}

pub(crate) fn managers_call(args: &[u64], out: &mut [u8]) -> Answered {
    let [threshold, page_size, eoa_pre_fsm, 12, addrs @ ..] = args else {
        return Err(Failure::Bad);
    };
    let Ok(slots) = <[u64; 12]>::try_from(addrs) else {
        return Err(Failure::Bad);
    };
    let message = FileSpaceInfo::persistent_managers(
        FileSpaceStrategy::Page,
        *threshold,
        *page_size,
        slots,
        *eoa_pre_fsm,
    );
    message_bytes(message.info, &message.slots, out)
}
