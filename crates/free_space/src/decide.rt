// What each call decides before anything changes: a refusal, Nothing, or which regions to replace by which.
ghost use Rattle.std.specs.Prelude.{◌≡◌, ◌+◌, ◌-◌, ◌<◌, ◌≤◌, true, ◌++◌};
ghost use Rattle.pairs.specs.Pairs.{capacity};
ghost use Rattle.free_regions.specs.Regions.{end, piece, cut_all};
ghost use Rattle.free_regions.specs.Units.{interior_start, interior_span};
ghost use Rattle.free_space.specs.Runs.{region_at, regions, is_list};
ghost use Rattle.free_space.specs.Calls.{placed, keeping, giving, without, allocated, allocated_units, freed, range_taken, trailing_taken, part_unit};
ghost use Rattle.free_space.specs.Splices.{Apart, Goes, patch, Replaces};
ghost use Rattle.free_space.specs.Decisions.{number_in, fitted, Applicable, Gives, Keeps, Folds};

use crate::fit::best_fit;
use crate::list::FreeList;
use crate::meet::Met;
use crate::run::{Patch, patch_len};
use crate::units::whole_units;
use crate::valid::ValidList;
use error::Refusal;
use free_regions::FreeRegion;

// What is known before anything changes. The calls carry it out, or several of them together.
#[derive(Clone, Copy, Debug, PartialEq, Eq)]
pub struct Replacement {
    pub addr: u64,
    pub lo: usize,
    pub hi: usize,
    pub total: u64,
    pub patch: Patch,
}

pub type Decision = Result<Option<Replacement>, Refusal>;

// The number of the refusal that a decision is, 0 where it is none.
// A number, 0 for none: public, named in docs/STATEMENTS.md.
pub fn refusal_number(d: Decision) -> u8
    ensures { result ≡ number_in d }
{
    match d {
        Err(r) => r.number(),
        Ok(_) => 0,
    }
}

// What is left below `a` from `addr` on, and above `e` up to `last`.
fn edges(addr: u64, a: u64, e: u64, last: u64) -> Patch
    ensures { patch result ≡ piece addr (a - addr) ++ piece e (last - e) }
{
    let front = FreeRegion {
        addr,
        len: a.saturating_sub(addr),
    };
    let back = FreeRegion {
        addr: e,
        len: last.saturating_sub(e),
    };
    match (front.len, back.len) {
        (0, 0) => Patch::Empty,
        (0, _) => Patch::One(back),
        (_, 0) => Patch::One(front),
        _ => Patch::Two(front, back),
    }
}

impl ValidList<'_> {
    // A change, if the run has room for the regions that it leaves.
    pub(crate) fn change(self, c: Replacement) -> Decision
        requires { Replaces self.run.now self.list c.lo c.hi c.total (patch c.patch) }
        ensures { (result ≡ fitted (capacity self.entry.run.now) self.entry.list.count c.addr c.lo c.hi c.total c.patch) × Applicable self.entry.run.now self.entry.list result }
    {
        let needed = c.lo + patch_len(c.patch) + (self.list.count - c.hi);
        let given = self.run.len() / 2;
        if given < needed {
            return Err(Refusal::OverCapacity {
                needed: needed as u64,
                given: given as u64,
            });
        }
        Ok(Some(c))
    }

    // Takes the `len` bytes from `start` on out of the region `r` at `i`.
    fn take_part(self, i: usize, r: FreeRegion, start: u64, len: u64) -> Decision
        requires { (i < self.list.count) × (r ≡ region_at self.run.now i) × (r.addr ≤ start) × (start + len ≤ end r) }
        ensures { Gives self.entry.run.now self.entry.list (placed (giving start) self.entry.run.now self.entry.list
            (without (regions self.entry.run.now self.entry.list) i start len)) result }
    {
        self.change(Replacement {
            addr: start,
            lo: i,
            hi: i + 1,
            total: self.list.total - len,
            patch: edges(r.addr, start, start + len, r.addr + r.len),
        })
    }

    // The same from the front of the whole units of the region.
    fn take_units(self, i: usize, r: FreeRegion, len: u64, unit: u64) -> Decision
        requires { (i < self.list.count) × (r ≡ region_at self.run.now i) × (0 < len) × (len ≤ interior_span unit r) }
        ensures { Gives self.entry.run.now self.entry.list (placed (giving (interior_start unit r)) self.entry.run.now self.entry.list
            (without (regions self.entry.run.now self.entry.list) i (interior_start unit r) len)) result }
    {
        self.take_part(i, r, whole_units(r, unit).start, len)
    }

    // Cuts the range from `a` up to `e` out of the regions that share a byte with it, `gone` bytes in all.
    fn cut_between(self, lo: usize, met: Met, a: u64, e: u64) -> Decision
        requires { Apart self.run.now self.list a e lo met.upto × (a < e) × Goes (regions self.run.now self.list) lo met.upto met.gone }
        ensures { Keeps self.entry.run.now self.entry.list (placed keeping self.entry.run.now self.entry.list (cut_all a e (regions self.entry.run.now self.entry.list))) result }
    {
        if lo == met.upto {
            return Ok(None);
        }
        let first = self.region(lo);
        let last = self.region(met.upto - 1);
        let end = last.addr + last.len;
        let left = a.saturating_sub(first.addr) + end.saturating_sub(e);
        // The bytes of the range that were free.
        let taken = met.gone - left;
        self.change(Replacement {
            addr: a,
            lo,
            hi: met.upto,
            total: self.list.total - taken,
            patch: edges(first.addr, a, e, end),
        })
    }
}

// `alloc`: the smallest region that is long enough serves.
#[tactic(auto, unfolding(crate::specs::Calls::allocated, error::specs::Outcome::first_of))]
pub fn decide_alloc(run: &[u64], list: FreeList, len: u64) -> Decision
    ensures { Gives run.now list (allocated run.now list len) result }
{
    if len == 0 {
        ValidList::new(run, list)?;
        return Ok(None);
    }
    let Some(i) = best_fit(run, list, len, |r| r.len)? else {
        return Ok(None);
    };
    let valid = ValidList { run, list };
    let r = valid.region(i);
    valid.take_part(i, r, r.addr, len)
}

// Whether `len` is no multiple of a unit that is not 0.
fn is_part(len: u64, unit: u64) -> bool
    ensures { result ≡ part_unit len unit }
{
    unit != 0 && len % unit != 0
}

// `alloc_whole_units`: the region with the least whole units that suffice serves.
#[tactic(auto, unfolding(crate::specs::Calls::allocated_units, error::specs::Outcome::first_of))]
pub fn decide_whole_units(run: &[u64], list: FreeList, len: u64, unit: u64) -> Decision
    ensures { Gives run.now list (allocated_units run.now list len unit) result }
{
    if is_part(len, unit) {
        ValidList::new(run, list)?;
        return Err(Refusal::PartUnit);
    }
    if len == 0 {
        ValidList::new(run, list)?;
        return Ok(None);
    }
    let Some(i) = best_fit(run, list, len, |r| whole_units(r, unit).span)? else {
        return Ok(None);
    };
    let valid = ValidList { run, list };
    valid.take_units(i, valid.region(i), len, unit)
}

// `free`: bytes that are free already are refused.
#[tactic(auto, unfolding(crate::specs::Calls::freed, error::specs::Outcome::first_of))]
pub fn decide_free(run: &[u64], list: FreeList, addr: u64, len: u64) -> Decision
    ensures decided { Keeps run.now list (freed run.now list addr len) result }
    ensures folds { Folds addr len result }
{
    let valid = ValidList::new(run, list)?;
    let Some(i) = valid.meeting(addr, len)? else {
        return Ok(None);
    };
    if valid.begins_below(i, addr + len) {
        return Err(Refusal::SharedAddress);
    }
    valid.put_between(i, FreeRegion { addr, len })
}

// `take_range`: the free bytes of the range go.
#[tactic(auto, unfolding(crate::specs::Calls::range_taken, error::specs::Outcome::first_of))]
pub(crate) fn decide_range(run: &[u64], list: FreeList, addr: u64, len: u64) -> Decision
    ensures { Keeps run.now list (range_taken run.now list addr len) result }
{
    let valid = ValidList::new(run, list)?;
    let Some(i) = valid.meeting(addr, len)? else {
        return Ok(None);
    };
    let met = valid.first_from(i, addr + len);
    valid.cut_between(i, met, addr, addr + len)
}

// `take_trailing`: the last region goes, if it ends at `eof`.
#[tactic(auto, unfolding(crate::specs::Calls::trailing_taken, error::specs::Outcome::first_of))]
pub(crate) fn decide_trailing(run: &[u64], list: FreeList, eof: u64) -> Decision
    ensures { Gives run.now list (trailing_taken run.now list eof) result }
{
    let valid = ValidList::new(run, list)?;
    let count = valid.list.count;
    if count == 0 {
        return Ok(None);
    }
    let r = valid.region(count - 1);
    if r.addr + r.len != eof {
        return Ok(None);
    }
    valid.change(Replacement {
        addr: r.addr,
        lo: count - 1,
        hi: count,
        total: valid.list.total - r.len,
        patch: Patch::Empty,
    })
}
