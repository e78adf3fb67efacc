// The calls that hand out bytes in pages by kind, and those of the marks.
ghost use Rattle.std.specs.Prelude.{◌≡◌, length};

use crate::lines::end_line;
use crate::lists::{Lists, MARKS};
use crate::reply::{Answered, Failure, Reply};
use paged_calls::perform;
use paged_lists::{PageType, PagedCall};
use replay_lines::answer::put_number;

fn marks_memory() -> [u8; MARKS]
    ensures { 8192 ≡ length result }
{
    [0; MARKS]
}

// Puts any bytes in place of the marks: they need not be marks.
fn lend_marks(lists: &mut Lists, marks: &[u64]) -> Answered {
    let n = marks.len();
    if MARKS < n {
        return Err(Failure::Bad);
    }
    let mut bytes = marks_memory();
    for (byte, mark) in bytes.iter_mut().zip(marks) {
        *byte = u8::try_from(*mark)?;
    }
    let lent = &mut lists.marks[..];
    lent[..n].copy_from_slice(&bytes[..n]);
    lists.marks_lent = n;
    Ok(Reply::Done)
}

fn show_marks(lists: &Lists, out: &mut [u8]) -> Answered {
    let n = lists.marks_lent.min(MARKS);
    let mut at = put_number(out, 0, n as u64);
    for mark in &lists.marks[..n] {
        at = put_number(out, at, u64::from(*mark));
    }
    Ok(Reply::Text(end_line(out, at)))
}

// No `TryFrom`: the type is of another crate.
fn kind_of(kind: u64) -> Result<PageType, Failure> {
    match kind {
        0 => Ok(PageType::Meta),
        1 => Ok(PageType::Raw),
        _ => Err(Failure::Bad),
    }
}

// Makes a call on the three lists and the marks, as far as they are lent.
fn make(lists: &mut Lists, page: u64, call: PagedCall) -> Answered {
    let records = lists.records();
    let n = lists.marks_lent.min(MARKS);
    let marks = &mut lists.marks[..];
    let made = perform(
        lists.metadata.lent_mut(),
        lists.raw.lent_mut(),
        lists.unclassified.lent_mut(),
        &mut marks[..n],
        records,
        page,
        call,
    );
    lists.metadata.record = made.lists.metadata;
    lists.raw.record = made.lists.raw;
    lists.unclassified.record = made.lists.unclassified;
    Ok(Reply::from(made.answer?))
}

// Answers a call on pages.
pub(crate) fn pages_call(name: &[u8], args: &[u64], lists: &mut Lists, out: &mut [u8]) -> Answered {
    match (name, args) {
        (b"marks", [n, marks @ ..]) if *n == marks.len() as u64 => lend_marks(lists, marks),
        (b"show_marks", []) => show_marks(lists, out),
        (b"page_alloc", &[kind, page, len]) => {
            let kind = kind_of(kind)?;
            make(lists, page, PagedCall::Alloc { kind, len })
        }
        (b"page_free", &[kind, page, addr, len]) => {
            let kind = kind_of(kind)?;
            make(lists, page, PagedCall::Free { kind, addr, len })
        }
        _ => Err(Failure::Bad),
    }
}
