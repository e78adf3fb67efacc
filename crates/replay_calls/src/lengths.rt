// The calls of the lengths of blocks.
use crate::reply::{Answered, Failure, Reply};
use crate::words::pairs_in;
use fsm_lengths::fsse_len;
use fsm_writer::writer::file_fsm_blocks_len;

pub(crate) fn fsse_len_call(args: &[u64]) -> Answered {
    let [o, count, lens @ ..] = args else {
        return Err(Failure::Bad);
    };
    if *count != lens.len() as u64 {
        return Err(Failure::Bad);
    }
    Ok(Reply::Is(fsse_len(lens, u8::try_from(*o)?)?))
}

pub(crate) fn blocks_len_call(args: &[u64]) -> Answered {
    let [o, count, run @ ..] = args else {
        return Err(Failure::Bad);
    };
    let n = pairs_in(run, *count)?;
    Ok(Reply::Is(file_fsm_blocks_len(run, n, u8::try_from(*o)?)?))
}
