// Pages freed into the unclassified list and then paged calls in a row, on lists begun empty and marks begun 0, read from two runs of numbers.
ghost use Rattle.std.specs.Prelude.{◌≡◌, length};
ghost use Rattle.free_lists.specs.Lists.{lists_in};
ghost use Rattle.free_lists.specs.History.{lists_after, empty_lists};
ghost use Rattle.paged_lists.specs.PagedCalls.{paged_in};
ghost use Rattle.paged_lists.specs.PagedHistory.{on_shared, paged_after};
ghost use Rattle.paged_calls.specs.Encoding.{type_of, paged_call_of, frees_of, paged_calls_of, runs_of};
ghost use Rattle.paged_calls.specs.Shown.{Shown};

use crate::perform;
use free_lists::FileLists;
use free_lists::calls::{ListCall, Which, apply};
use free_space::list::FreeList;
use paged_lists::{PageType, PagedCall};

// The kind of a number: 0 metadata, any other raw.
// Numbers for kinds and calls: the public functions take calls as a lent run of numbers.
#[tactic(auto, unfolding(crate::specs::Encoding::type_of))]
fn type_of(number: u64) -> PageType
    ensures { result ≡ type_of number }
{
    if number == 0 {
        PageType::Meta
    } else {
        PageType::Raw
    }
}

// The call of a number, a kind and two arguments: 0 alloc, any other free.
#[tactic(auto, unfolding(crate::specs::Encoding::paged_call_of))]
fn paged_call_of(number: u64, kind: PageType, a: u64, b: u64) -> PagedCall
    ensures { result ≡ paged_call_of number kind a b }
{
    if number == 0 {
        PagedCall::Alloc { kind, len: a }
    } else {
        PagedCall::Free {
            kind,
            addr: a,
            len: b,
        }
    }
}

// Frees the ranges of `frees`, in order, into the unclassified list of three lists that begin empty.
fn free_ranges(
    frees: &[u64],
    metadata: &mut [u64],
    raw: &mut [u64],
    unclassified: &mut [u64],
) -> FileLists
    ensures { lists_in metadata.new raw.new unclassified.new result
        ≡ lists_after (on_shared (frees_of frees.now)) (empty_lists (runs_of metadata.old raw.old unclassified.old)) }
{
    let mut lists = FileLists {
        metadata: FreeList::new(),
        raw: FreeList::new(),
        unclassified: FreeList::new(),
    };
    for range in frees.chunks_exact(2) {
        let call = ListCall::Free {
            addr: range[0],
            len: range[1],
        };
        let applied = apply(
            metadata,
            raw,
            unclassified,
            lists,
            Which::Unclassified,
            call,
        );
        lists = applied.lists;
    }
    lists
}

// Makes the paged calls of `calls`, in order, with one page size.
fn make_in_pages(
    calls: &[u64],
    metadata: &mut [u64],
    raw: &mut [u64],
    unclassified: &mut [u64],
    marks: &mut [u8],
    begun: FileLists,
    page: u64,
) -> FileLists
    ensures { paged_in metadata.new raw.new unclassified.new marks.new result
        ≡ paged_after page (paged_calls_of calls.now)
        (paged_in metadata.old raw.old unclassified.old marks.old begun) }
{
    let mut lists = begun;
    for row in calls.chunks_exact(4) {
        let call = paged_call_of(row[0], type_of(row[1]), row[2], row[3]);
        let applied = perform(metadata, raw, unclassified, marks, lists, page, call);
        lists = applied.lists;
    }
    lists
}

// Frees the ranges of `frees` into the unclassified list and then makes the paged calls of `calls`, with one page size, on lists begun empty
// and marks begun 0.
pub fn make_paged_calls(
    frees: &[u64],
    calls: &[u64],
    metadata: &mut [u64],
    raw: &mut [u64],
    unclassified: &mut [u64],
    marks: &mut [u8],
    page: u64,
) -> FileLists
    ensures { Shown page (runs_of metadata.old raw.old unclassified.old) (length marks.old)
        (frees_of frees.now) (paged_calls_of calls.now)
        (paged_in metadata.new raw.new unclassified.new marks.new result) }
{
    marks.fill(0);
    let lists = free_ranges(frees, metadata, raw, unclassified);
    make_in_pages(calls, metadata, raw, unclassified, marks, lists, page)
}
