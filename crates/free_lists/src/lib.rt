// The three lists of a file: what is asked of them together, and the calls on them.
#![tactic(auto)]

pub mod calls;
pub mod decide;
mod share;

ghost use Rattle.std.specs.Prelude.{◌≡◌, max};
ghost use Rattle.error.specs.Answers.{as_outcome};
ghost use Rattle.free_lists.specs.Lists.{lists_in, are_lists, together};
ghost use Rattle.free_lists.specs.Trailing.{falling, walk, run_start};
ghost use Rattle.free_lists.specs.Walks.{AllInOrder, remaining, Onward};

use crate::share::{Ordered, share_any};
use error::Refusal;
use free_regions::FreeRegion;
use free_space::check::is_list;
use free_space::list::FreeList;

// The records of the three lists of a file. Their runs are lent beside them, in the same order.
#[derive(Clone, Copy, Debug, PartialEq, Eq)]
pub struct FileLists {
    pub metadata: FreeList,
    pub raw: FreeList,
    pub unclassified: FreeList,
}

// Whether all three are lists: refusal 3 alone.
pub fn are_lists(meta: &[u64], raw: &[u64], unclassified: &[u64], lists: FileLists) -> bool
    ensures { result ≡ are_lists (lists_in meta.now raw.now unclassified.now lists) }
{
    is_list(meta, lists.metadata)
        && is_list(raw, lists.raw)
        && is_list(unclassified, lists.unclassified)
}

// Refusals 3 and 5 of three lists that are given together.
pub fn check_lists(
    meta: &[u64],
    raw: &[u64],
    unclassified: &[u64],
    lists: FileLists,
) -> Result<(), Refusal>
    ensures { as_outcome result ≡ together (lists_in meta.now raw.now unclassified.now lists) }
{
    if !are_lists(meta, raw, unclassified, lists) {
        return Err(Refusal::NotAList);
    }
    if share_any(meta, raw, unclassified, lists) {
        return Err(Refusal::SharedAddress);
    }
    Ok(())
}

// How many regions of each of three lists there are to look at. The runs stay the same over the walk: three `Ordered` would have to say so in each step.
#[derive(Clone, Copy)]
struct Cursors {
    meta: usize,
    raw: usize,
    unclassified: usize,
}

// The region that the walk comes to next, and the cursors after it.
#[derive(Clone, Copy)]
struct Reached {
    region: FreeRegion,
    rest: Cursors,
}

// The last region of the list that reaches highest; on a tie the first such list's.
fn highest(meta: &[u64], raw: &[u64], unclassified: &[u64], at: Cursors) -> Option<Reached>
    requires { AllInOrder meta.now raw.now unclassified.now at }
    ensures { Onward meta.now raw.now unclassified.now at result }
{
    let m = Ordered {
        run: meta,
        count: at.meta,
    };
    let r = Ordered {
        run: raw,
        count: at.raw,
    };
    let u = Ordered {
        run: unclassified,
        count: at.unclassified,
    };
    let a = m.height();
    let b = r.height();
    let c = u.height();
    if b.max(c) <= a {
        if a == 0 {
            return None;
        }
        let last = at.meta - 1;
        return Some(Reached {
            region: m.region(last),
            rest: Cursors { meta: last, ..at },
        });
    }
    if c <= b {
        let last = at.raw - 1;
        return Some(Reached {
            region: r.region(last),
            rest: Cursors { raw: last, ..at },
        });
    }
    let last = at.unclassified - 1;
    Some(Reached {
        region: u.region(last),
        rest: Cursors {
            unclassified: last,
            ..at
        },
    })
}

// Where the walk from the end of file down the regions of three lists ends.
fn walk_down(meta: &[u64], raw: &[u64], unclassified: &[u64], all: Cursors, eof: u64) -> u64
    requires { AllInOrder meta.now raw.now unclassified.now all }
    ensures { result ≡ walk eof (falling (remaining meta.now raw.now unclassified.now all)) }
{
    let mut start = eof;
    let mut at = all;
    while let Some(Reached { region: r, rest }) = highest(meta, raw, unclassified, at) {
        if r.addr + r.len < start {
            return start;
        }
        at = rest;
        if r.addr < start {
            start = r.addr;
        }
    }
    start
}

// The lowest address of the run of free bytes that reaches the end of file, over three lists; `eof` itself where nothing there is free.
pub fn trailing_run_start(
    meta: &[u64],
    raw: &[u64],
    unclassified: &[u64],
    lists: FileLists,
    eof: u64,
) -> Result<u64, Refusal>
    ensures { as_outcome result ≡ run_start (lists_in meta.now raw.now unclassified.now lists) eof }
{
    check_lists(meta, raw, unclassified, lists)?;
    let all = Cursors {
        meta: lists.metadata.count,
        raw: lists.raw.count,
        unclassified: lists.unclassified.count,
    };
    Ok(walk_down(meta, raw, unclassified, all, eof))
}
