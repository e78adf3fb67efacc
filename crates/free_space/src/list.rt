// The record of a list, and what its calls answer.
ghost use Rattle.std.specs.Prelude.{◌≡◌, ◌+◌, ◌-◌, ◌*◌, ◌≤◌, [], length, ◌==◌};
ghost use Rattle.error.specs.Answers.{as_outcome, as_optional_outcome};
ghost use Rattle.error.specs.Lent.{with, left, leaving};
ghost use Rattle.free_regions.specs.Regions.{spliced};
ghost use Rattle.free_space.specs.Runs.{record_of, regions, stored};
ghost use Rattle.free_space.specs.Calls.{freed, allocated, allocated_units, range_taken, trailing_taken};
ghost use Rattle.free_space.specs.Splices.{patch};
ghost use Rattle.free_space.specs.Decisions.{given_by, kept_by, Applicable, fits, carried_out};

use crate::decide::{
    Decision, Replacement, decide_alloc, decide_free, decide_range, decide_trailing,
    decide_whole_units,
};
use crate::run::{patch_len, replace};
use error::Refusal;

// A list's record: how many pairs of its run count, and what their lengths add up to. The run is lent beside it: no memory is allocated.
#[derive(Clone, Copy, Debug, PartialEq, Eq)]
pub struct FreeList {
    pub count: usize,
    pub total: u64,
}

// The address that a call gives out, and the record after it.
#[derive(Clone, Copy, Debug, PartialEq, Eq)]
pub struct Given {
    pub addr: u64,
    pub list: FreeList,
}

impl FreeList {
    // The record of an empty list.
    pub fn new() -> Self
        ensures { result ≡ record_of [] }
    {
        FreeList { count: 0, total: 0 }
    }

    pub fn is_empty(self) -> bool
        ensures { result ≡ (self.count == 0) }
    {
        self.count == 0
    }

    // Records the `len` bytes from `addr` on as free, and folds the regions that they touch into one with them.
    pub fn free(self, run: &mut [u64], addr: u64, len: u64) -> Result<FreeList, Refusal>
        ensures { left (as_outcome result) run.new ≡ leaving run.old (freed run.old self addr len) }
    {
        let d = decide_free(run, self, addr, len);
        keep(run, self, d)
    }

    // Takes `len` bytes from the front of the smallest region that is long enough, the lowest on a tie.
    pub fn alloc(self, run: &mut [u64], len: u64) -> Result<Option<Given>, Refusal>
        ensures { left (as_optional_outcome result) run.new ≡ leaving run.old (allocated run.old self len) }
    {
        let d = decide_alloc(run, self, len);
        give(run, self, d)
    }

    // Takes `len` bytes from the front of the least aligned interior that is long enough, the lowest on a tie. What lies on
    // either side stays free.
    pub fn alloc_whole_units(
        self,
        run: &mut [u64],
        len: u64,
        unit: u64,
    ) -> Result<Option<Given>, Refusal>
        ensures { left (as_optional_outcome result) run.new ≡ leaving run.old (allocated_units run.old self len unit) }
    {
        let d = decide_whole_units(run, self, len, unit);
        give(run, self, d)
    }

    // Removes the free bytes of the `len` from `addr` on.
    pub fn take_range(self, run: &mut [u64], addr: u64, len: u64) -> Result<FreeList, Refusal>
        ensures { left (as_outcome result) run.new ≡ leaving run.old (range_taken run.old self addr len) }
    {
        let d = decide_range(run, self, addr, len);
        keep(run, self, d)
    }

    // Drops the last region if it ends at `eof`, and gives its address.
    pub fn take_trailing(self, run: &mut [u64], eof: u64) -> Result<Option<Given>, Refusal>
        ensures { left (as_optional_outcome result) run.new ≡ leaving run.old (trailing_taken run.old self eof) }
    {
        let d = decide_trailing(run, self, eof);
        give(run, self, d)
    }
}

// Replaces the regions, and makes the record of what is left.
fn apply(run: &mut [u64], list: FreeList, c: Replacement) -> FreeList
    requires { (c.lo ≤ c.hi) × (c.hi ≤ list.count) × (2 * list.count ≤ length run.old)
        × (2 * (c.lo + length (patch c.patch) + (list.count - c.hi)) ≤ length run.old) }
    ensures record { result ≡ record { count = c.lo + length (patch c.patch) + (list.count - c.hi); total = c.total } }
    ensures memory { run.new ≡ stored run.old list.count (spliced (regions run.old list) c.lo c.hi (patch c.patch)) }
{
    replace(run, list.count, c.lo, c.hi, c.patch);
    FreeList {
        count: c.lo + patch_len(c.patch) + (list.count - c.hi),
        total: c.total,
    }
}

// Carries out a decision of a call that gives an address out.
fn give(run: &mut [u64], list: FreeList, d: Decision) -> Result<Option<Given>, Refusal>
    requires { Applicable run.old list d }
    ensures { left (as_optional_outcome result) run.new ≡ leaving run.old (given_by run.old list d) }
{
    let Some(c) = d? else {
        return Ok(None);
    };
    Ok(Some(Given {
        addr: c.addr,
        list: apply(run, list, c),
    }))
}

// The same for one that gives nothing out.
// Beside `give`: where there is nothing, the record stays. Inlined, since the decision goes through memory at a call.
#[inline(always)]
fn keep(run: &mut [u64], list: FreeList, d: Decision) -> Result<FreeList, Refusal>
    requires { Applicable run.old list d }
    ensures { left (as_outcome result) run.new ≡ leaving run.old (kept_by run.old list d) }
{
    let Some(c) = d? else {
        return Ok(list);
    };
    Ok(apply(run, list, c))
}

// Whether the regions to be replaced are some of the list, and the run has room for those that are left then.
fn can_replace(run: &[u64], list: FreeList, c: Replacement) -> bool
    ensures { result ≡ fits run.now list c.lo c.hi (patch c.patch) }
{
    let given = run.len() / 2;
    c.lo <= c.hi
        && c.hi <= list.count
        && list.count <= given
        && c.lo + patch_len(c.patch) + (list.count - c.hi) <= given
}

// Carries out a decision that was made on this list. One that does not fit the list changes nothing.
pub fn carry_out(run: &mut [u64], list: FreeList, d: Decision) -> FreeList
    ensures { with result run.new ≡ carried_out run.old list d }
{
    let Ok(Some(c)) = d else {
        return list;
    };
    if can_replace(run, list, c) {
        apply(run, list, c)
    } else {
        list
    }
}
