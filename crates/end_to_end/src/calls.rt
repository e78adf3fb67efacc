// List calls in a row on three lists that begin empty, read from a run of numbers.
ghost use Rattle.std.specs.Prelude.{◌≡◌, ◌^◌};
ghost use Rattle.free_regions.specs.Sets.{how_many};
ghost use Rattle.free_lists.specs.Lists.{lists_in};
ghost use Rattle.free_lists.specs.History.{empty_lists, last_over, was_free};
ghost use Rattle.end_to_end.specs.Encoding.{which_of, call_of, calls_of, runs_of, after_calls, runs_after};

use free_lists::FileLists;
use free_lists::calls::{ListCall, Which, apply};
use free_space::list::FreeList;

// The list of a number: 0 metadata, 1 raw, any other unclassified.
// Numbers for lists and calls: the public functions take calls as a lent run of numbers.
fn which_of(number: u64) -> Which
    ensures { result ≡ which_of number }
{
    match number {
        0 => Which::Metadata,
        1 => Which::Raw,
        _ => Which::Unclassified,
    }
}

// The call of a number and two arguments: 0 free, 1 alloc, 2 alloc_whole_units, 3 take_range, any other take_trailing.
fn call_of(number: u64, a: u64, b: u64) -> ListCall
    ensures { result ≡ call_of number a b }
{
    match number {
        0 => ListCall::Free { addr: a, len: b },
        1 => ListCall::Alloc { len: a },
        2 => ListCall::AllocWholeUnits { len: a, unit: b },
        3 => ListCall::TakeRange { addr: a, len: b },
        _ => ListCall::TakeTrailing { eof: a },
    }
}

// Makes the calls that `calls` encodes, in order, on three lists that begin empty.
pub fn make_calls(
    calls: &[u64],
    metadata: &mut [u64],
    raw: &mut [u64],
    unclassified: &mut [u64],
) -> FileLists
    ensures { lists_in metadata.new raw.new unclassified.new result
        ≡ after_calls calls.now metadata.old raw.old unclassified.old }
{
    let mut lists = FileLists {
        metadata: FreeList::new(),
        raw: FreeList::new(),
        unclassified: FreeList::new(),
    };
    let mut rest = calls;
    while let [which, number, a, b, after @ ..] = rest {
        let call = call_of(*number, *a, *b);
        lists = apply(metadata, raw, unclassified, lists, which_of(*which), call).lists;
        rest = after;
    }
    lists
}

// Makes the calls, and asks the list of a number how many bytes it then has free: as many as addresses are free by history in it.
pub fn free_bytes_after(
    calls: &[u64],
    metadata: &mut [u64],
    raw: &mut [u64],
    unclassified: &mut [u64],
    number: u64,
) -> u64
    ensures answer { result ≡ how_many (2 ^ 64) (λ b. was_free (last_over (which_of number) b (calls_of calls.now)
        (empty_lists (runs_of metadata.old raw.old unclassified.old)))) }
    ensures memory { runs_of metadata.new raw.new unclassified.new
        ≡ runs_after calls.now metadata.old raw.old unclassified.old }
{
    let lists = make_calls(calls, metadata, raw, unclassified);
    match which_of(number) {
        Which::Metadata => lists.metadata.free_bytes(),
        Which::Raw => lists.raw.free_bytes(),
        Which::Unclassified => lists.unclassified.free_bytes(),
    }
}
