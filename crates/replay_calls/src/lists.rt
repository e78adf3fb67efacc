// The three lists, with what a line may lend of them, and the calls on them.
ghost use Rattle.std.specs.Prelude.{◌≤◌, length};

use crate::memory::BYTES;
use crate::reply::{Answered, Failure, Reply, numbers_reply, pairs_reply};
use free_lists::calls::{ListCall, perform};
use free_lists::{FileLists, trailing_run_start};
use free_space::list::FreeList;

// The numbers that the run of a list has.
const RUN: usize = 8192;

// The most marks that are lent.
pub(crate) const MARKS: usize = 8192;

// A list: its run, its record, and how many numbers of the run are lent to a call.
// Fixed memory with how much of it counts: no heap.
#[derive(Drop)]
pub(crate) struct List {
    run: [u64; RUN],
    pub(crate) record: FreeList,
    room: usize,
}

impl List {
    fn new() -> List {
        List {
            run: [0; RUN],
            record: FreeList::new(),
            room: RUN,
        }
    }

    // The numbers that a call is lent.
    pub(crate) fn lent(&self) -> &[u64] {
        let n = self.room.min(RUN);
        &self.run[..n]
    }

    // The same, to be changed.
    pub(crate) fn lent_mut(&mut self) -> &mut [u64] {
        let n = self.room.min(RUN);
        let run = &mut self.run[..];
        &mut run[..n]
    }

    // Makes a call that changes the list.
    fn change(&mut self, call: ListCall) -> Answered {
        let record = self.record;
        let done = perform(self.lent_mut(), record, call);
        self.record = done.list;
        Ok(Reply::from(done.answer?))
    }

    // Puts any numbers into the run, and any count beside it: they need not be a list. The total is the sum of the lengths that count.
    fn lend(&mut self, count: u64, numbers: &[u64]) -> Answered {
        let n = numbers.len();
        if RUN < n {
            return Err(Failure::Bad);
        }
        let run = &mut self.run[..];
        run[..n].copy_from_slice(numbers);
        let count = count as usize;
        let mut total: u64 = 0;
        for pair in run.chunks_exact(2).take(count) {
            total = total.wrapping_add(pair[1]);
        }
        self.record = FreeList { count, total };
        Ok(Reply::Done)
    }
}

// The lists, how many bytes of scratch a save is lent, and the marks, with how many of them are lent.
#[derive(Drop)]
pub(crate) struct Lists {
    pub(crate) metadata: List,
    pub(crate) raw: List,
    pub(crate) unclassified: List,
    pub(crate) scratch: usize,
    pub(crate) marks: [u8; MARKS],
    pub(crate) marks_lent: usize,
}

impl Lists {
    // Empty lists, of which a call is lent all, and no marks.
    pub(crate) fn new() -> Lists {
        Lists {
            metadata: List::new(),
            raw: List::new(),
            unclassified: List::new(),
            scratch: BYTES,
            marks: [0; MARKS],
            marks_lent: 0,
        }
    }

    // The list that a number names.
    fn list(&mut self, k: u64) -> Result<&mut List, Failure> {
        match k {
            0 => Ok(&mut self.metadata),
            1 => Ok(&mut self.raw),
            2 => Ok(&mut self.unclassified),
            _ => Err(Failure::Bad),
        }
    }

    pub(crate) fn records(&self) -> FileLists {
        FileLists {
            metadata: self.metadata.record,
            raw: self.raw.record,
            unclassified: self.unclassified.record,
        }
    }

    fn trailing_run_start(&self, eof: u64) -> Answered {
        let start = trailing_run_start(
            self.metadata.lent(),
            self.raw.lent(),
            self.unclassified.lent(),
            self.records(),
            eof,
        )?;
        Ok(Reply::Is(start))
    }
}

// Answers a call that changes a list.
pub(crate) fn change_call(name: &[u8], args: &[u64], lists: &mut Lists) -> Answered {
    match (name, args) {
        (b"free", &[k, addr, len]) => lists.list(k)?.change(ListCall::Free { addr, len }),
        (b"take", &[k, addr, len]) => lists.list(k)?.change(ListCall::TakeRange { addr, len }),
        (b"allocw", &[k, len, unit]) => {
            lists
                .list(k)?
                .change(ListCall::AllocWholeUnits { len, unit })
        }
        (b"alloc", &[k, len]) => lists.list(k)?.change(ListCall::Alloc { len }),
        (b"trail", &[k, eof]) => lists.list(k)?.change(ListCall::TakeTrailing { eof }),
        (b"new", &[k]) => {
            lists.list(k)?.record = FreeList::new();
            Ok(Reply::Done)
        }
        (b"lend", [k, count, n, numbers @ ..]) if *n == numbers.len() as u64 => {
            lists.list(*k)?.lend(*count, numbers)
        }
        // Lends the first numbers of the run from now on. The record stays.
        (b"room", &[k, n]) if n <= RUN as u64 => {
            lists.list(k)?.room = n as usize;
            Ok(Reply::Done)
        }
        (b"lend_total", &[k, total]) => {
            lists.list(k)?.record.total = total;
            Ok(Reply::Done)
        }
        (b"scratch", &[n]) if n <= BYTES as u64 => {
            lists.scratch = n as usize;
            Ok(Reply::Done)
        }
        _ => Err(Failure::Bad),
    }
}

// Answers a call that asks of a list.
pub(crate) fn question_call(
    name: &[u8],
    args: &[u64],
    lists: &mut Lists,
    out: &mut [u8],
) -> Answered {
    match (name, args) {
        (b"largestw", &[k, unit]) => {
            let list = lists.list(k)?;
            Ok(Reply::Is(list.record.largest_whole_units(list.lent(), unit)?))
        }
        (b"largest", &[k]) => {
            let list = lists.list(k)?;
            Ok(Reply::Is(list.record.largest(list.lent())?))
        }
        (b"isempty", &[k]) => Ok(Reply::Is(u64::from(lists.list(k)?.record.is_empty()))),
        (b"total", &[k]) => Ok(Reply::Is(lists.list(k)?.record.free_bytes())),
        (b"sections", &[k]) => {
            let list = lists.list(k)?;
            let count = list.record.count as u64;
            Ok(pairs_reply(b"", list.lent(), count, out))
        }
        (b"run", &[k]) => Ok(numbers_reply(lists.list(k)?.lent(), out)),
        (b"tstart", &[eof]) => lists.trailing_run_start(eof),
        _ => Err(Failure::Bad),
    }
}
