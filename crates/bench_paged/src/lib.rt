// Bytes given out by the paged calls and freed again, and the same by the calls on the file's three lists that those are made of, through the
// C interface, for the benchmarks alone. Both answer the address, all ones where none is given out.
#![tactic(auto)]

ghost use Rattle.std.specs.Prelude.{◌≡◌, get_or};
ghost use Rattle.error.specs.Lent.{with};
ghost use Rattle.free_lists.specs.Lists.{lists_in};
ghost use Rattle.free_lists.specs.History.{lists_after};
ghost use Rattle.paged_lists.specs.PagedCalls.{paged_in};
ghost use Rattle.bench_paged.specs.Rounds.{records_in, memory_of, paged_round, runs_of, fill_calls, return_calls, new_page_round, list_round};

use free_lists::FileLists;
use free_lists::calls::{Answer, ListCall, Which, apply};
use free_space::list::FreeList;
use paged_lists::PageType;

// The i-th number; 0 where there is none.
// As in `pairs`, where it is private.
fn number_at(numbers: &[u64], i: usize) -> u64
    ensures { result ≡ get_or numbers.now i 0 }
{
    numbers.get(i).copied().unwrap_or(0)
}

fn records_in(numbers: &[u64]) -> FileLists
    ensures { result ≡ records_in numbers.now }
{
    FileLists {
        metadata: FreeList {
            count: number_at(numbers, 0) as usize,
            total: number_at(numbers, 1),
        },
        raw: FreeList {
            count: number_at(numbers, 2) as usize,
            total: number_at(numbers, 3),
        },
        unclassified: FreeList {
            count: number_at(numbers, 4) as usize,
            total: number_at(numbers, 5),
        },
    }
}

#[unsafe(no_mangle)]
pub extern "C" fn bench_paged(
    metadata: &mut [u64],
    raw: &mut [u64],
    unclassified: &mut [u64],
    marks: &mut [u8],
    numbers: &[u64],
    page: u64,
    len: u64,
) -> u64
    ensures { with result (memory_of (paged_in metadata.new raw.new unclassified.new marks.new (records_in numbers.now)))
        ≡ paged_round page len (paged_in metadata.old raw.old unclassified.old marks.old (records_in numbers.now)) }
{
    let lists = records_in(numbers);
    let made = paged_calls::alloc(
        metadata,
        raw,
        unclassified,
        marks,
        lists,
        page,
        PageType::Meta,
        len,
    );
    // An arm for each answer: what the `else` of a `let` over this nested pattern tells is too little for the proof.
    match made.answer {
        Ok(Answer::At(addr)) => {
            paged_calls::free(
                metadata,
                raw,
                unclassified,
                marks,
                made.lists,
                page,
                PageType::Meta,
                addr,
                len,
            );
            addr
        }
        Ok(Answer::Done) => u64::MAX,
        Ok(Answer::Nothing) => u64::MAX,
        Err(_) => u64::MAX,
    }
}

// The rest of a page joins the metadata list, and then the bytes from its front.
// Runs come one by one: of a struct of `&mut` each function would have to promise that its fields are still what was lent.
fn fill_page(
    metadata: &mut [u64],
    raw: &mut [u64],
    unclassified: &mut [u64],
    lists: FileLists,
    page: u64,
    addr: u64,
    len: u64,
) -> FileLists
    ensures { lists_in metadata.new raw.new unclassified.new result
        ≡ lists_after (fill_calls page addr len) (lists_in metadata.old raw.old unclassified.old lists) }
{
    let rest = ListCall::Free {
        addr: addr.saturating_add(len),
        len: page.saturating_sub(len),
    };
    let joined = apply(metadata, raw, unclassified, lists, Which::Metadata, rest);
    let bytes = ListCall::Free { addr, len };
    let filled = apply(
        metadata,
        raw,
        unclassified,
        joined.lists,
        Which::Metadata,
        bytes,
    );
    filled.lists
}

// A page leaves the metadata list and goes back to the unclassified one.
fn return_page(
    metadata: &mut [u64],
    raw: &mut [u64],
    unclassified: &mut [u64],
    lists: FileLists,
    page: u64,
    addr: u64,
) -> FileLists
    ensures { lists_in metadata.new raw.new unclassified.new result
        ≡ lists_after (return_calls page addr) (lists_in metadata.old raw.old unclassified.old lists) }
{
    let take = ListCall::TakeRange { addr, len: page };
    let taken = apply(metadata, raw, unclassified, lists, Which::Metadata, take);
    let free = ListCall::Free { addr, len: page };
    let given = apply(
        metadata,
        raw,
        unclassified,
        taken.lists,
        Which::Unclassified,
        free,
    );
    given.lists
}

// Both.
fn fill_and_return(
    metadata: &mut [u64],
    raw: &mut [u64],
    unclassified: &mut [u64],
    lists: FileLists,
    page: u64,
    addr: u64,
    len: u64,
) -> FileLists
    ensures { lists_in metadata.new raw.new unclassified.new result
        ≡ lists_after (return_calls page addr) (lists_after (fill_calls page addr len) (lists_in metadata.old raw.old unclassified.old lists)) }
{
    let filled = fill_page(metadata, raw, unclassified, lists, page, addr, len);
    return_page(metadata, raw, unclassified, filled, page, addr)
}

// The bytes come from a page that the unclassified list has.
fn in_new_page(
    metadata: &mut [u64],
    raw: &mut [u64],
    unclassified: &mut [u64],
    lists: FileLists,
    page: u64,
    len: u64,
) -> u64
    ensures { with result (runs_of (lists_in metadata.new raw.new unclassified.new lists))
        ≡ new_page_round page len (lists_in metadata.old raw.old unclassified.old lists) }
{
    let call = ListCall::AllocWholeUnits {
        len: page,
        unit: page,
    };
    let made = apply(
        metadata,
        raw,
        unclassified,
        lists,
        Which::Unclassified,
        call,
    );
    // An arm for each answer, as in `bench_paged`.
    match made.answer {
        Ok(Answer::At(addr)) => {
            fill_and_return(metadata, raw, unclassified, made.lists, page, addr, len);
            addr
        }
        Ok(Answer::Done) => u64::MAX,
        Ok(Answer::Nothing) => u64::MAX,
        Err(_) => u64::MAX,
    }
}

// The parameters are those of `bench_paged`, so that the interface costs the same.
#[unsafe(no_mangle)]
pub extern "C" fn bench_list_calls(
    metadata: &mut [u64],
    raw: &mut [u64],
    unclassified: &mut [u64],
    marks: &[u8],
    numbers: &[u64],
    page: u64,
    len: u64,
) -> u64
    ensures { with result (runs_of (lists_in metadata.new raw.new unclassified.new (records_in numbers.now)))
        ≡ list_round page len (lists_in metadata.old raw.old unclassified.old (records_in numbers.now)) }
{
    let lists = records_in(numbers);
    let call = ListCall::Alloc { len };
    let made = apply(metadata, raw, unclassified, lists, Which::Metadata, call);
    match made.answer {
        Ok(Answer::At(addr)) => {
            let back = ListCall::Free { addr, len };
            apply(
                metadata,
                raw,
                unclassified,
                made.lists,
                Which::Metadata,
                back,
            );
            addr
        }
        Ok(Answer::Done) => u64::MAX,
        Ok(Answer::Nothing) => in_new_page(metadata, raw, unclassified, made.lists, page, len),
        Err(_) => u64::MAX,
    }
}
