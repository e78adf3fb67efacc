// The answers, and standard output.
use crate::lines::{end_line, pairs_line, put_counted};
use error::Refusal;
use free_lists::calls::Answer;
use replay_lines::answer::{bad, done, nothing, number_line, pair_line, refused, word_line};
use std::io;
use std::num::TryFromIntError;
use text::words::write_bytes;

// The answer to a call: none for a line that needs none, a short one, or how many bytes of the memory for answers a long one has.
// What is printed: `Is`, `Some` and `Ok` hold one number each and differ in the word, so no Option says them.
#[derive(Clone, Copy, Debug, PartialEq, Eq)]
pub(crate) enum Reply {
    Silent,
    Text(usize),
    Done,
    Nothing,
    Is(u64),
    Some(u64),
    Ok(u64),
    SomePair(u64, u64),
    OkPair(u64, u64),
}

// Why a call has no such answer.
#[derive(Clone, Copy, Debug, PartialEq, Eq)]
pub(crate) enum Failure {
    // The line breaks the protocol.
    Bad,
    Refused(Refusal),
}

pub(crate) type Answered = Result<Reply, Failure>;

impl From<Answer> for Reply {
    fn from(answer: Answer) -> Reply {
        match answer {
            Answer::Done => Reply::Done,
            Answer::At(addr) => Reply::Some(addr),
            Answer::Nothing => Reply::Nothing,
        }
    }
}

impl From<Refusal> for Failure {
    fn from(refusal: Refusal) -> Failure {
        Failure::Refused(refusal)
    }
}

// A number that is too large for its place breaks the protocol.
impl From<TryFromIntError> for Failure {
    fn from(_: TryFromIntError) -> Failure {
        Failure::Bad
    }
}

// The line of an answer.
fn answer_line(out: &mut [u8], answered: Answered) -> usize {
    match answered {
        Ok(Reply::Silent) => 0,
        Ok(Reply::Text(len)) => len,
        Ok(Reply::Done) => done(out),
        Ok(Reply::Nothing) => nothing(out),
        Ok(Reply::Is(n)) => number_line(out, n),
        Ok(Reply::Some(n)) => word_line(out, b"some ", n),
        Ok(Reply::Ok(n)) => word_line(out, b"ok ", n),
        Ok(Reply::SomePair(first, second)) => pair_line(out, b"some ", first, second),
        Ok(Reply::OkPair(first, second)) => pair_line(out, b"ok ", first, second),
        Err(Failure::Bad) => bad(out),
        Err(Failure::Refused(refusal)) => refused(out, refusal),
    }
}

// Writes an answer.
pub(crate) fn say(rt: &impl Print, answered: Answered, out: &mut [u8]) -> io::Result<()> {
    let len = answer_line(out, answered);
    if let Some(line) = out.get(..len) {
        rt.write_all(line)?;
    }
    Ok(())
}

// A run of numbers.
pub(crate) fn numbers_reply(run: &[u64], out: &mut [u8]) -> Reply {
    let at = put_counted(out, 0, run, run.len() as u64);
    Reply::Text(end_line(out, at))
}

// A word, a count and as many pairs of a run.
pub(crate) fn pairs_reply(word: &[u8], run: &[u64], count: u64, out: &mut [u8]) -> Reply {
    let at = write_bytes(out, 0, word);
    Reply::Text(pairs_line(out, at, run, count))
}
