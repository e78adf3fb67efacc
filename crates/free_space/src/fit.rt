// The passes for the best fit, which test for refusal 3 as they go.
ghost use Rattle.std.specs.Prelude.{◌≡◌, ℕ, ◌-◌, ◌^◌, ◌<◌, ◌≤◌, Ok};
ghost use Rattle.free_regions.specs.declared.FreeRegion.{FreeRegion};
ghost use Rattle.free_regions.specs.Regions.{one_at, lower};
ghost use Rattle.free_space.specs.Passes.{Measures};
ghost use Rattle.free_space.specs.Splices.{First};
ghost use Rattle.free_space.specs.Searches.{so_far, answered, Finds};

use crate::check::{first_region, follows};
use crate::list::FreeList;
use crate::run::region_at;
use error::Refusal;
use free_regions::FreeRegion;

// The best of the regions passed, and the bytes that it has beyond the length asked for. The bytes that lack wrap, and
// so stand above all that are left over: one comparison tests both, that a region suffices and that it is better.
#[derive(Clone, Copy)]
pub(crate) struct Best {
    pub(crate) index: usize,
    pub(crate) slack: u64,
}

fn none_yet(len: u64) -> Best
    requires { 0 < len }
    ensures { 2 ^ 64 - len ≤ result.slack }
{
    Best {
        index: 0,
        slack: u64::MAX - (len - 1),
    }
}

// The better of `b` and the region at `i`, above it, of which `span` bytes can serve.
fn better_of(b: Best, i: usize, span: u64, len: u64) -> Best
    requires { 0 < len }
    ensures { so_far len result ≡ lower (so_far len b) (one_at len i span) }
{
    let slack = span.wrapping_sub(len);
    if slack < b.slack {
        Best { index: i, slack }
    } else {
        b
    }
}

fn found(b: Best, len: u64) -> Option<usize>
    requires { 0 < len }
    ensures { Ok result ≡ answered len b }
{
    if b.slack <= u64::MAX - len {
        Some(b.index)
    } else {
        None
    }
}

// The same test as in `greatest_after` and `rest_is_list`: one pass for all would take state, step and end as closures, with a contract of each.
fn best_after<M: Fn(FreeRegion) -> u64>(
    run: &[u64],
    list: FreeList,
    first: FreeRegion,
    len: u64,
    measure: M,
) -> Result<Option<usize>, Refusal>
    requires first { First run.now list first × (0 < len) }
    requires calls { M.IsAlwaysCallable measure }
    ensures { (m : FreeRegion → ℕ) → Measures m (M.post measure) → Finds m run.now list len result }
{
    let mut b = better_of(none_yet(len), 0, measure(first), len);
    let mut prev = first.addr + first.len;
    let mut sum = first.len;
    for i in 1..list.count {
        let r = region_at(run, i);
        if !follows(prev, r) {
            return Err(Refusal::NotAList);
        }
        b = better_of(b, i, measure(r), len);
        prev = r.addr + r.len;
        sum += r.len;
    }
    if list.total != sum {
        return Err(Refusal::NotAList);
    }
    Ok(found(b, len))
}

// The region with the least measure that suffices, the lowest on a tie.
pub(crate) fn best_fit<M: Fn(FreeRegion) -> u64>(
    run: &[u64],
    list: FreeList,
    len: u64,
    measure: M,
) -> Result<Option<usize>, Refusal>
    requires some { 0 < len }
    requires calls { M.IsAlwaysCallable measure }
    ensures { (m : FreeRegion → ℕ) → Measures m (M.post measure) → Finds m run.now list len result }
{
    let Some(first) = first_region(run, list)? else {
        return Ok(None);
    };
    best_after(run, list, first, len, measure)
}
