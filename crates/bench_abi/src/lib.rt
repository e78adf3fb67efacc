// The list calls through the C interface, for the benchmarks alone: each answers the total of the list's lengths after it, all
// ones where it is refused or gets Nothing.
#![tactic(auto)]

ghost use Rattle.std.specs.Prelude.{◌≡◌};
ghost use Rattle.error.specs.Answers.{as_outcome, as_optional_outcome};
ghost use Rattle.error.specs.Lent.{with, leaving};
ghost use Rattle.free_space.specs.Calls.{freed, allocated, allocated_units, range_taken, trailing_taken};
ghost use Rattle.bench_abi.specs.Totals.{list_of, kept_total, given_total, kept_left, given_left};

use error::Refusal;
use free_space::list::{FreeList, Given};

fn kept_total(k: Result<FreeList, Refusal>) -> u64
    ensures { result ≡ kept_total (as_outcome k) }
{
    k.map_or(u64::MAX, |list| list.total)
}

fn given_total(g: Result<Option<Given>, Refusal>) -> u64
    ensures { result ≡ given_total (as_optional_outcome g) }
{
    match g {
        Ok(Some(given)) => given.list.total,
        Ok(None) | Err(_) => u64::MAX,
    }
}

#[unsafe(no_mangle)]
pub extern "C" fn bench_free(run: &mut [u64], count: usize, total: u64, addr: u64, len: u64) -> u64
    ensures { with result run.new ≡ kept_left (leaving run.old (freed run.old (list_of count total) addr len)) }
{
    kept_total(FreeList { count, total }.free(run, addr, len))
}

#[unsafe(no_mangle)]
pub extern "C" fn bench_take_range(
    run: &mut [u64],
    count: usize,
    total: u64,
    addr: u64,
    len: u64,
) -> u64
    ensures { with result run.new ≡ kept_left (leaving run.old (range_taken run.old (list_of count total) addr len)) }
{
    kept_total(FreeList { count, total }.take_range(run, addr, len))
}

#[unsafe(no_mangle)]
pub extern "C" fn bench_alloc(run: &mut [u64], count: usize, total: u64, len: u64) -> u64
    ensures { with result run.new ≡ given_left (leaving run.old (allocated run.old (list_of count total) len)) }
{
    given_total(FreeList { count, total }.alloc(run, len))
}

#[unsafe(no_mangle)]
pub extern "C" fn bench_alloc_whole_units(
    run: &mut [u64],
    count: usize,
    total: u64,
    len: u64,
    unit: u64,
) -> u64
    ensures { with result run.new ≡ given_left (leaving run.old (allocated_units run.old (list_of count total) len unit)) }
{
    given_total(FreeList { count, total }.alloc_whole_units(run, len, unit))
}

#[unsafe(no_mangle)]
pub extern "C" fn bench_take_trailing(run: &mut [u64], count: usize, total: u64, eof: u64) -> u64
    ensures { with result run.new ≡ given_left (leaving run.old (trailing_taken run.old (list_of count total) eof)) }
{
    given_total(FreeList { count, total }.take_trailing(run, eof))
}
