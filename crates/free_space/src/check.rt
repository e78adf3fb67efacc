// The test that a run and a record are a list. A call makes it in the pass that it makes anyway.
ghost use Rattle.std.specs.Prelude.{◌≡◌, suc, true};
ghost use Rattle.free_regions.specs.Regions.{fits_from};
ghost use Rattle.free_space.specs.Runs.{is_list};
ghost use Rattle.free_space.specs.Splices.{First, Begins};

use crate::list::FreeList;
use crate::run::region_at;
use error::Refusal;
use free_regions::FreeRegion;
use pairs::is_run;

// Whether a region is not empty and ends within 64 bits. The wrapped end is above the address in no other case.
pub(crate) fn stands(r: FreeRegion) -> bool
    ensures { result ≡ fits_from 0 r }
{
    r.addr < r.addr.wrapping_add(r.len)
}

// Whether a region can follow one that ends at `prev`.
pub(crate) fn follows(prev: u64, r: FreeRegion) -> bool
    ensures { result ≡ fits_from (suc prev) r }
{
    prev < r.addr && stands(r)
}

// The first region, if there is room for the count and the region stands. It follows none, so a pass begins after it.
pub(crate) fn first_region(run: &[u64], list: FreeList) -> Result<Option<FreeRegion>, Refusal>
    ensures { Begins run.now list result }
{
    if !is_run(run, list.count) {
        return Err(Refusal::NotAList);
    }
    if list.count == 0 {
        if list.total == 0 {
            return Ok(None);
        }
        return Err(Refusal::NotAList);
    }
    let r = region_at(run, 0);
    if !stands(r) {
        return Err(Refusal::NotAList);
    }
    Ok(Some(r))
}

// Whether the regions after the first follow, and all lengths add up to the total. The sum of the first lengths is at most
// the end of the last of them, so that it does not overflow. Two regions in an iteration: with one, the sum takes a third more time.
// A `while`: a `for` with `step_by` would be left in two ways, and is no plainer.
fn rest_is_list(run: &[u64], list: FreeList, first: FreeRegion) -> bool
    requires { First run.now list first }
    ensures { result ≡ is_list run.now list }
{
    let count = list.count;
    let mut prev = first.addr + first.len;
    let mut sum = first.len;
    let mut i = 1;
    // An even number of them, and then the last if one is left.
    let stop = count - (count - 1) % 2;
    while i < stop {
        let r = region_at(run, i);
        if !follows(prev, r) {
            return false;
        }
        prev = r.addr + r.len;
        sum += r.len;
        let s = region_at(run, i + 1);
        if !follows(prev, s) {
            return false;
        }
        prev = s.addr + s.len;
        sum += s.len;
        i += 2;
    }
    if stop == count {
        return list.total == sum;
    }
    let last = region_at(run, i);
    if !follows(prev, last) {
        return false;
    }
    list.total == sum + last.len
}

// Whether a run and a record are a list.
pub fn is_list(run: &[u64], list: FreeList) -> bool
    ensures { result ≡ is_list run.now list }
{
    match first_region(run, list) {
        Err(_) => false,
        Ok(None) => true,
        Ok(Some(r)) => rest_is_list(run, list, r),
    }
}
