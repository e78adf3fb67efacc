// The lists that a paged call changes, by their records, and what it answers.
ghost use Rattle.std.specs.Prelude.{◌≡◌};
ghost use Rattle.paged_calls.specs.Decisions.{applied};

use error::Refusal;
use free_lists::FileLists;
use free_lists::calls::{Answer, Applied};
use free_space::list::FreeList;

// The records of the kind's list and of the unclassified one, which all kinds share.
#[derive(Clone, Copy, Debug, PartialEq, Eq)]
pub(crate) struct Records {
    pub(crate) own: FreeList,
    pub(crate) shared: FreeList,
}

// What a step answers that is not refused, and these records after it.
#[derive(Clone, Copy, Debug, PartialEq, Eq)]
pub(crate) struct Step {
    pub(crate) answer: Answer,
    pub(crate) lists: Records,
}

// What a call answers that is not refused, and the records of the three lists after it.
#[derive(Clone, Copy)]
pub(crate) struct Called {
    pub(crate) answer: Answer,
    pub(crate) lists: FileLists,
}

// What a call answers, and the records after it: a refusal leaves them as they were.
pub(crate) fn applied(lists: FileLists, called: Result<Called, Refusal>) -> Applied
    ensures { result ≡ applied lists called }
{
    match called {
        Ok(
            Called {
                answer,
                lists: after,
            },
        ) => Applied {
            answer: Ok(answer),
            lists: after,
        },
        Err(r) => Applied {
            answer: Err(r),
            lists,
        },
    }
}
