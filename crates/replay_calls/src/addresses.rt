// The calls of the small arithmetic on addresses and sizes. Each has one to three numbers and a short answer.
use crate::memory::{BYTES, bytes_memory};
use crate::reply::{Answered, Failure, Reply};
use fields::address::BaseAddress;
use fields::bytes::ensure_len;
use fields::convert::{align_up, is_undefined_addr, slice_range};
use fields::width::{enc_size, fshd_len};
use free_regions::FreeRegion;

fn interior_call(addr: u64, len: u64, unit: u64) -> Answered {
    let interior = FreeRegion { addr, len }.aligned_interior(unit)?;
    Ok(match interior {
        Some(whole) => Reply::SomePair(whole.start, whole.span),
        None => Reply::Nothing,
    })
}

fn slice_range_call(offset: u64, len: u64) -> Answered {
    let range = slice_range(offset, len)?;
    Ok(Reply::OkPair(range.start, range.end))
}

// Data of any bytes has the length that the call names.
fn ensure_len_call(len: u64, offset: u64, needed: u64) -> Answered {
    let n = len as usize;
    if BYTES < n {
        return Err(Failure::Bad);
    }
    let bytes = bytes_memory();
    ensure_len(&bytes[..n], offset as usize, needed as usize)?;
    Ok(Reply::Done)
}

// The answer to a call of this group, and to any other that no group has.
pub(crate) fn address_call(name: &[u8], args: &[u64]) -> Answered {
    match (name, args) {
        (b"enc_size", &[n]) => Ok(Reply::Is(enc_size(n) as u64)),
        (b"fshd_len", &[o]) => Ok(Reply::Is(fshd_len(u8::try_from(o)?)?)),
        (b"region_end", &[addr, len]) => Ok(Reply::Is(FreeRegion { addr, len }.end()?)),
        (b"align_up", &[n, unit]) => Ok(Reply::Is(align_up(n, unit)?)),
        (b"slice_range", &[offset, len]) => slice_range_call(offset, len),
        (b"undef", &[addr, o]) => {
            let undefined = is_undefined_addr(addr, u8::try_from(o)?)?;
            Ok(Reply::Is(u64::from(undefined)))
        }
        (b"absolute", &[base, stored]) => Ok(Reply::Ok(BaseAddress(base).absolute(stored)?)),
        (b"interior", &[addr, len, unit]) => interior_call(addr, len, unit),
        (b"ensure_len", &[len, offset, needed]) => ensure_len_call(len, offset, needed),
        _ => Err(Failure::Bad),
    }
}
