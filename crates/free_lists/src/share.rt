// Whether lists share a byte. The regions of a list are in order, so that those which end too low are passed without a look at each.
ghost use Rattle.std.specs.Prelude.{◌≡◌, leb, ◌+◌, ◌-◌, ◌≤◌, ◌<◌};
ghost use Rattle.fields.specs.Ranges.{top};
ghost use Rattle.free_regions.specs.Regions.{region, end, shares, share_bytes};
ghost use Rattle.free_space.specs.Runs.{region_at, decode};
ghost use Rattle.free_lists.specs.Lists.{lists_in, regions_in, shared_byte};
ghost use Rattle.free_lists.specs.Walks.{InOrder, counts_of, AllInOrder, FirstPast, height};

use crate::FileLists;
use free_regions::FreeRegion;

// The first `count` regions of a lent run, which are in order.
// Beside `ValidList` of free_space: here only the order of the regions is known, and no total.
#[derive(Clone, Copy)]
pub(crate) struct Ordered<'a> {
    pub(crate) run: &'a [u64],
    pub(crate) count: usize,
    ghost in_order: { InOrder run.now count },
}

impl Ordered<'_> {
    // The i-th region. It ends within 64 bits.
    pub(crate) fn region(self, i: usize) -> FreeRegion
        requires { i < self.count }
        ensures read { result ≡ region_at self.entry.run.now i }
        ensures within { end result ≤ top }
    {
        FreeRegion {
            addr: self.run[2 * i],
            len: self.run[2 * i + 1],
        }
    }

    // One above the address of the last region; 0 for none.
    pub(crate) fn height(self) -> u64
        ensures { result ≡ height self.entry.count self.entry.run.now }
    {
        if self.count == 0 {
            return 0;
        }
        self.region(self.count - 1).addr + 1
    }

    // Of the regions from `from` up to `upto` the first that ends past `a`, by halving. Each ends within 64 bits, so that the sum is not cut.
    fn first_past(self, from: usize, upto: usize, a: u64) -> usize
        requires { (from ≤ upto) × (upto ≤ self.count) }
        ensures { FirstPast self.entry.run.now from upto a result }
    {
        let (regions, _) = self.run.as_chunks::<2>();
        from + regions[from..upto].partition_point(|[addr, len]| addr.saturating_add(*len) <= a)
    }

    // The same of the regions from `from` on. What is looked for is often near, so steps that double come first, and then halving.
    fn first_past_from(self, from: usize, a: u64) -> usize
        requires { from ≤ self.count }
        ensures { FirstPast self.entry.run.now from self.entry.count a result }
    {
        let mut low = from;
        let mut ahead = 0;
        // A `while`: the steps double, so no range counts them.
        while ahead < self.count - low {
            let at = low + ahead;
            let r = self.region(at);
            if a < r.addr + r.len {
                return self.first_past(low, at, a);
            }
            ahead = at - from;
            low = at + 1;
        }
        self.first_past(low, self.count, a)
    }

    // Whether regions of two lists share a byte: of the two at hand, the one that ends first is passed, with those after it that end too low.
    fn share_regions(self, other: Ordered) -> bool
        ensures { result ≡ share_bytes (decode self.entry.count self.entry.run.now) (decode other.entry.count other.entry.run.now) }
    {
        let mut i = 0;
        let mut j = 0;
        // A `while`: both places go on by searches, each as far as it finds.
        while i < self.count && j < other.count {
            let r = self.region(i);
            let s = other.region(j);
            if r.addr + r.len <= s.addr {
                i = self.first_past_from(i + 1, s.addr);
            } else {
                if r.addr < s.addr + s.len {
                    return true;
                }
                j = other.first_past_from(j + 1, r.addr);
            }
        }
        false
    }

    // Whether all of a list ends before another begins, by its last region and the other's first.
    fn ends_before(self, other: Ordered) -> bool
        requires { (0 < self.count) × (0 < other.count) }
        ensures { result ≡ leb (end (region_at self.entry.run.now (self.entry.count - 1))) (region_at other.entry.run.now 0).addr }
    {
        let last = self.region(self.count - 1);
        last.addr + last.len <= other.region(0).addr
    }

    // Whether two lists share a byte. Often one has no regions, or ends before the other begins.
    fn shares(self, other: Ordered) -> bool
        ensures { result ≡ share_bytes (decode self.entry.count self.entry.run.now) (decode other.entry.count other.entry.run.now) }
    {
        if self.count == 0
            || other.count == 0
            || self.ends_before(other)
            || other.ends_before(self)
        {
            return false;
        }
        self.share_regions(other)
    }

    // Whether a list holds a byte of the range of `len` bytes from `addr` on.
    pub(crate) fn holds_any(self, addr: u64, len: u64) -> bool
        requires { addr + len ≤ top }
        ensures { result ≡ shares (region addr len) (decode self.entry.count self.entry.run.now) }
    {
        if len == 0 {
            return false;
        }
        let i = self.first_past(0, self.count, addr);
        i < self.count && self.region(i).addr < addr + len
    }
}

// Whether two of three lists share a byte.
pub(crate) fn share_any(meta: &[u64], raw: &[u64], unclassified: &[u64], lists: FileLists) -> bool
    requires { AllInOrder meta.now raw.now unclassified.now (counts_of lists) }
    ensures { result ≡ shared_byte (regions_in (lists_in meta.now raw.now unclassified.now lists)) }
{
    let m = Ordered {
        run: meta,
        count: lists.metadata.count,
    };
    let r = Ordered {
        run: raw,
        count: lists.raw.count,
    };
    let u = Ordered {
        run: unclassified,
        count: lists.unclassified.count,
    };
    m.shares(r) || m.shares(u) || r.shares(u)
}
