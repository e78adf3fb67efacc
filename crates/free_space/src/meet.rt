// Which regions of a list share a byte with a range.
ghost use Rattle.std.specs.Prelude.{◌≡◌, ◌≤◌, ◌&&◌, nat_lt};
ghost use Rattle.free_space.specs.Runs.{region_at, regions};
ghost use Rattle.free_space.specs.Splices.{Past, From, Goes, Meets};

use crate::valid::ValidList;
use error::Refusal;

// The place up to which a pass went, and the sum of the lengths that it passed.
#[derive(Clone, Copy)]
pub(crate) struct Met {
    pub(crate) upto: usize,
    pub(crate) gone: u64,
}

impl ValidList<'_> {
    // The first region that ends past `a`: the regions are in order.
    fn first_past(self, a: u64) -> usize
        ensures { Past self.entry.run.now self.entry.list a result }
    {
        let (regions, _) = self.run[..2 * self.list.count].as_chunks::<2>();
        regions.partition_point(|r| r[0].saturating_add(r[1]) <= a)
    }

    // The first region that can share a byte with the range of `len` bytes from `addr` on.
    pub(crate) fn meeting(self, addr: u64, len: u64) -> Result<Option<usize>, Refusal>
        ensures { Meets self.entry.run.now self.entry.list addr len result }
    {
        if u64::MAX - len < addr {
            return Err(Refusal::Overflow);
        }
        if len == 0 {
            return Ok(None);
        }
        Ok(Some(self.first_past(addr)))
    }

    // From `lo` on to the first region that begins at `e` or above.
    pub(crate) fn first_from(self, lo: usize, e: u64) -> Met
        requires { lo ≤ self.list.count }
        ensures { From self.entry.run.now self.entry.list lo e result.upto × Goes (regions self.entry.run.now self.entry.list) lo result.upto result.gone }
    {
        let mut gone = 0;
        for i in lo..self.list.count {
            let r = self.region(i);
            if e <= r.addr {
                return Met { upto: i, gone };
            }
            gone += r.len;
        }
        Met {
            upto: self.list.count,
            gone,
        }
    }

    // Whether the region at `i`, if there is one, begins below `e`.
    pub(crate) fn begins_below(self, i: usize, e: u64) -> bool
        ensures { result ≡ (nat_lt i self.entry.list.count && nat_lt (region_at self.entry.run.now i).addr e) }
    {
        i < self.list.count && self.region(i).addr < e
    }
}
