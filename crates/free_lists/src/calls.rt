// A call on one of the three lists of a file, as a value, and the one function that makes it.
ghost use Rattle.std.specs.Prelude.{◌≡◌, [], ◌∷◌};
ghost use Rattle.error.specs.Answers.{as_outcome, as_optional_outcome};
ghost use Rattle.free_space.specs.Calls.{record_after, keeping};
ghost use Rattle.free_lists.specs.Lists.{list_in, lists_in};
ghost use Rattle.free_lists.specs.History.{mapped, perform, given_out, answered_outcome, on, next};

use crate::FileLists;
use error::Refusal;
use free_space::list::{FreeList, Given};

// The lists of metadata, of raw data and of unclassified space.
#[derive(Clone, Copy, Debug, PartialEq, Eq)]
pub enum Which {
    Metadata,
    Raw,
    Unclassified,
}

// A list call with its arguments.
#[derive(Clone, Copy, Debug, PartialEq, Eq)]
pub enum ListCall {
    Free { addr: u64, len: u64 },
    Alloc { len: u64 },
    AllocWholeUnits { len: u64, unit: u64 },
    TakeRange { addr: u64, len: u64 },
    TakeTrailing { eof: u64 },
}

// What a call answers that is not refused: `At` the address that it gives out, `Done` where it gives none.
// No Option<Option<u64>>: a call that gives no address out and one that finds none would both be None.
#[derive(Clone, Copy, Debug, PartialEq, Eq)]
pub enum Answer {
    Done,
    At(u64),
    Nothing,
}

// The answer, and the records of the three lists after the call.
// The lists stand beside the answer: they are told on a refusal too.
#[derive(Clone, Copy, Debug, PartialEq, Eq)]
pub struct Applied {
    pub answer: Result<Answer, Refusal>,
    pub lists: FileLists,
}

// The answer, and the record of the one list after the call.
// The list stands beside the answer: it is told on a refusal too.
#[derive(Clone, Copy, Debug, PartialEq, Eq)]
pub struct Performed {
    pub answer: Result<Answer, Refusal>,
    pub list: FreeList,
}

// After a call that gives nothing out; a refusal leaves the old record.
fn after_kept(list: FreeList, k: Result<FreeList, Refusal>) -> Performed
    ensures list { result.list ≡ record_after keeping list (as_outcome k) }
    ensures answer { answered_outcome result.answer ≡ mapped (λ l. []) (as_outcome k) }
{
    match k {
        Ok(after) => Performed {
            answer: Ok(Answer::Done),
            list: after,
        },
        Err(r) => Performed {
            answer: Err(r),
            list,
        },
    }
}

// After one that gives an address out.
fn after_given(list: FreeList, g: Result<Option<Given>, Refusal>) -> Performed
    ensures list { result.list ≡ record_after (λ a. a.list) list (as_optional_outcome g) }
    ensures answer { answered_outcome result.answer ≡ mapped (λ a. a.addr ∷ []) (as_optional_outcome g) }
{
    match g {
        Ok(Some(Given { addr, list: after })) => Performed {
            answer: Ok(Answer::At(addr)),
            list: after,
        },
        Ok(None) => Performed {
            answer: Ok(Answer::Nothing),
            list,
        },
        Err(r) => Performed {
            answer: Err(r),
            list,
        },
    }
}

// Makes a call on one list.
pub fn perform(run: &mut [u64], list: FreeList, call: ListCall) -> Performed
    ensures list { list_in run.new result.list ≡ (perform call (list_in run.old list)).left }
    ensures answer { answered_outcome result.answer ≡ mapped (given_out call) (perform call (list_in run.old list)).outcome }
{
    match call {
        ListCall::Free { addr, len } => after_kept(list, list.free(run, addr, len)),
        ListCall::Alloc { len } => after_given(list, list.alloc(run, len)),
        ListCall::AllocWholeUnits { len, unit } => {
            after_given(list, list.alloc_whole_units(run, len, unit))
        }
        ListCall::TakeRange { addr, len } => after_kept(list, list.take_range(run, addr, len)),
        ListCall::TakeTrailing { eof } => after_given(list, list.take_trailing(run, eof)),
    }
}

// Makes a call on one of three lists.
pub fn apply(
    metadata: &mut [u64],
    raw: &mut [u64],
    unclassified: &mut [u64],
    lists: FileLists,
    which: Which,
    call: ListCall,
) -> Applied
    ensures lists { lists_in metadata.new raw.new unclassified.new result.lists
        ≡ next (on which call) (lists_in metadata.old raw.old unclassified.old lists) }
    ensures answer { answered_outcome result.answer
        ≡ mapped (given_out call) (perform call (lists_in metadata.old raw.old unclassified.old lists which)).outcome }
{
    match which {
        Which::Metadata => {
            let made = perform(metadata, lists.metadata, call);
            Applied {
                answer: made.answer,
                lists: FileLists {
                    metadata: made.list,
                    ..lists
                },
            }
        }
        Which::Raw => {
            let made = perform(raw, lists.raw, call);
            Applied {
                answer: made.answer,
                lists: FileLists {
                    raw: made.list,
                    ..lists
                },
            }
        }
        Which::Unclassified => {
            let made = perform(unclassified, lists.unclassified, call);
            Applied {
                answer: made.answer,
                lists: FileLists {
                    unclassified: made.list,
                    ..lists
                },
            }
        }
    }
}
