// Puts a freed region between those of a list: the regions that it touches fold into it.
ghost use Rattle.std.specs.Prelude.{◌≡◌, ◌+◌, ◌<◌, ◌≤◌, ◌∷◌, ◌++◌, take, drop};
ghost use Rattle.fields.specs.Ranges.{top};
ghost use Rattle.free_regions.specs.Regions.{end, sum_of_lengths, absorb, insert};
ghost use Rattle.free_space.specs.Runs.{region_at, regions};
ghost use Rattle.free_space.specs.Calls.{placed, keeping};
ghost use Rattle.free_space.specs.Splices.{Apart};
ghost use Rattle.free_space.specs.Decisions.{Keeps, Folds};

use crate::decide::{Decision, Replacement};
use crate::run::Patch;
use crate::valid::ValidList;
use free_regions::FreeRegion;

// A region with those that it touches on one side, and the place to which it then reaches.
#[derive(Clone, Copy)]
pub(crate) struct Joined {
    pub(crate) index: usize,
    pub(crate) region: FreeRegion,
}

impl ValidList<'_> {
    // `new` stands before the region at `i`: with the region below it, if they touch.
    // Beside `join_above`: each keeps another end of the region and promises another fact.
    fn join_below(self, i: usize, new: FreeRegion) -> Joined
        requires { Apart self.run.now self.list new.addr (end new) i i × (0 < new.len) × (end new ≤ top) }
        ensures { (result.index ≤ i) × (end result.region ≡ end new)
            × (insert new (regions self.entry.run.now self.entry.list)
            ≡ take result.index (regions self.entry.run.now self.entry.list) ++ absorb result.region (drop i (regions self.entry.run.now self.entry.list)))
            × (result.region.len + sum_of_lengths (drop i (regions self.entry.run.now self.entry.list))
            ≡ new.len + sum_of_lengths (drop result.index (regions self.entry.run.now self.entry.list)))
            × (result.region.addr ≤ new.addr) }
    {
        if 0 < i {
            let r = self.region(i - 1);
            if r.addr + r.len == new.addr {
                return Joined {
                    index: i - 1,
                    region: FreeRegion {
                        addr: r.addr,
                        len: r.len + new.len,
                    },
                };
            }
        }
        Joined {
            index: i,
            region: new,
        }
    }

    // The same with the region above it.
    fn join_above(self, i: usize, new: FreeRegion) -> Joined
        requires { (i ≤ self.list.count) × (i < self.list.count → end new ≤ (region_at self.run.now i).addr) × (end new ≤ top) }
        ensures { (i ≤ result.index) × (result.index ≤ self.entry.list.count)
            × (absorb new (drop i (regions self.entry.run.now self.entry.list)) ≡ result.region ∷ drop result.index (regions self.entry.run.now self.entry.list))
            × (result.region.len + sum_of_lengths (drop result.index (regions self.entry.run.now self.entry.list))
            ≡ new.len + sum_of_lengths (drop i (regions self.entry.run.now self.entry.list)))
            × (result.region.addr ≡ new.addr) × (end new ≤ end result.region) }
    {
        if i < self.list.count {
            let r = self.region(i);
            if new.addr + new.len == r.addr {
                return Joined {
                    index: i + 1,
                    region: FreeRegion {
                        addr: new.addr,
                        len: new.len + r.len,
                    },
                };
            }
        }
        Joined {
            index: i,
            region: new,
        }
    }

    // Frees `new`, which shares no byte with the regions and stands before that at `i`.
    pub(crate) fn put_between(self, i: usize, new: FreeRegion) -> Decision
        requires { Apart self.run.now self.list new.addr (end new) i i × (0 < new.len) × (end new ≤ top) }
        ensures decided { Keeps self.entry.run.now self.entry.list (placed keeping self.entry.run.now self.entry.list (insert new (regions self.entry.run.now self.entry.list))) result }
        ensures folds { Folds new.addr new.len result }
    {
        let low = self.join_below(i, new);
        let high = self.join_above(i, low.region);
        self.change(Replacement {
            addr: new.addr,
            lo: low.index,
            hi: high.index,
            total: self.list.total + new.len,
            patch: Patch::One(high.region),
        })
    }
}
