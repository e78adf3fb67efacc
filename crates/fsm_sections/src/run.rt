// The regions of a lent run, one after the other: every pass over a run takes them from here.
ghost use Rattle.std.specs.Prelude.{◌≡◌, ◌*◌, ◌≤◌, length};
ghost use Rattle.std.specs.Iterator.{YieldsFirst, item_count};
ghost use Rattle.fsm_sections.specs.Sections.{decode};
ghost use Rattle.fsm_sections.specs.Chains.{sections_of};
ghost use Rattle.fsm_sections.specs.Sources.{chains_in};
ghost use Rattle.fsm_sections.specs.RunSteps.{regions_left, first_of, rows_left, Alike, GivesRow};
ghost use Rattle.fsm_sections.specs.Cursors.{run_start, passed, rest_in, taken_of, RowIs};

use crate::parts::part_chain;
use crate::{FreeSection, Part};

// The regions of a lent run that are left, one after the other.
#[derive(Clone, Copy, Debug)]
pub struct Regions<'a> {
    run: &'a [u64],
}

impl<'a> Regions<'a> {
    // The first `count` regions of a run. Pairs that the run does not have are not there.
    pub fn new(run: &'a [u64], count: usize) -> Regions<'a>
        ensures { regions_left result ≡ decode count run.now }
    {
        Regions {
            run: &run[..2 * count.min(run.len() / 2)],
        }
    }

    // The region that comes next.
    pub fn first(&self) -> Option<FreeSection>
        ensures { result ≡ first_of (regions_left self.now) }
    {
        if self.run.len() < 2 {
            return None;
        }
        Some(FreeSection {
            addr: self.run[0],
            size: self.run[1],
        })
    }
}

impl<'a> Iterator for Regions<'a> {
    type Item = FreeSection;

    ghost next_gives = { YieldsFirst regions_left };

    ghost remaining = { item_count regions_left };

    fn next(&mut self) -> Option<FreeSection> {
        let region = self.first()?;
        self.run = &self.run[2..];
        Some(region)
    }
}

// A number of sections of one size.
#[derive(Clone, Copy, Debug, PartialEq, Eq)]
pub struct Row {
    pub size: u64,
    pub count: u64,
}

// How many of the regions at the front of a run have a size; four in an iteration, as long as there are four: with one, as an iterator
// goes, a pass over 1,000 regions takes a quarter longer.
fn alike(run: &[u64], size: u64) -> usize
    ensures { (2 * result ≤ length run.now) × Alike size result run.now }
{
    let mut n = 0;
    while 2 * n + 8 <= run.len() {
        if run[2 * n + 1] != size {
            return n;
        }
        if run[2 * n + 3] != size {
            return n + 1;
        }
        if run[2 * n + 5] != size {
            return n + 2;
        }
        if run[2 * n + 7] != size {
            return n + 3;
        }
        n += 4;
    }
    while 2 * n + 2 <= run.len() {
        if run[2 * n + 1] != size {
            return n;
        }
        n += 1;
    }
    n
}

// The sections that a part of a run's regions makes, in rows of one size.
#[derive(Clone, Copy, Debug)]
pub struct Rows<'a> {
    regions: Regions<'a>,
    part: Part,
    page: u64,
}

impl<'a> Rows<'a> {
    // Those of the first `count` regions of a run.
    pub fn new(run: &'a [u64], count: usize, part: Part, page: u64) -> Rows<'a>
        ensures { rows_left result ≡ sections_of (chains_in part page (decode count run.now)) }
    {
        Rows {
            regions: Regions::new(run, count),
            part,
            page,
        }
    }
}

impl<'a> Iterator for Rows<'a> {
    type Item = Row;

    ghost next_gives = { GivesRow };

    ghost remaining = { item_count (λ r. regions_left r.regions) };

    // The sections of the next region and, where regions are uncut, of those after it that have its size. Inlined, since a row goes
    // through memory at a call.
    #[inline(always)]
    fn next(&mut self) -> Option<Row> {
        let region = self.regions.next()?;
        if let Part::Whole = self.part {
            let more = alike(self.regions.run, region.size);
            self.regions.run = &self.regions.run[2 * more..];
            return Some(Row {
                size: region.size,
                count: 1 + more as u64,
            });
        }
        let chain = part_chain(self.part, self.page, region.addr, region.size);
        Some(Row {
            size: chain.size,
            count: chain.count,
        })
    }
}

// Where a pass over a run stands that a caller leaves and takes up again, with the run lent anew: so many regions are passed.
#[derive(Clone, Copy, Debug, PartialEq, Eq)]
pub struct RunCursor {
    i: usize,
}

impl RunCursor {
    // Before the first region.
    pub fn start() -> RunCursor
        ensures { result ≡ run_start }
    {
        RunCursor { i: 0 }
    }

    // After `n` regions more. A place of a run fits; no other is reached.
    pub(crate) fn after(self, n: usize) -> RunCursor
        ensures { result ≡ passed n self }
    {
        RunCursor {
            i: self.i.saturating_add(n),
        }
    }
}

impl<'a> Regions<'a> {
    // Those of the first `count` regions of a run that are left at a cursor.
    pub(crate) fn at(run: &'a [u64], count: usize, at: RunCursor) -> Regions<'a>
        ensures { regions_left result ≡ rest_in count run.now at }
    {
        let all = Regions::new(run, count);
        let passed = at.i.min(all.run.len() / 2);
        Regions {
            run: &all.run[2 * passed..],
        }
    }
}

// A region, and where the pass stands then.
#[derive(Clone, Copy, Debug, PartialEq, Eq)]
pub struct RunStep {
    pub region: FreeSection,
    pub at: RunCursor,
}

// The next of the first `count` regions of a run. Pairs that the run does not have are not there.
pub fn next_in(run: &[u64], count: usize, at: RunCursor) -> Option<RunStep>
    ensures { rest_in count run.now at ≡ taken_of count run.now result }
{
    let region = Regions::at(run, count, at).next()?;
    Some(RunStep {
        region,
        at: at.after(1),
    })
}

// A row, and where the pass stands then.
#[derive(Clone, Copy, Debug, PartialEq, Eq)]
pub struct RowStep {
    pub row: Row,
    pub at: RunCursor,
}

// The sections of the next region and, where regions are uncut, of those after it that have its size.
pub fn next_row(run: &[u64], count: usize, at: RunCursor, part: Part, page: u64) -> Option<RowStep>
    ensures { RowIs part page count run.now at result }
{
    let mut left = Regions::at(run, count, at);
    let region = left.next()?;
    if let Part::Whole = part {
        let more = alike(left.run, region.size);
        return Some(RowStep {
            row: Row {
                size: region.size,
                count: (1 + more) as u64,
            },
            at: at.after(1 + more),
        });
    }
    let chain = part_chain(part, page, region.addr, region.size);
    Some(RowStep {
        row: Row {
            size: chain.size,
            count: chain.count,
        },
        at: at.after(1),
    })
}
