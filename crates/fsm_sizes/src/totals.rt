// How many sections a source has, how many sizes they have and what their sizes add up to.
ghost use Rattle.std.specs.Prelude.{◌≡◌, ◌+◌, length};
ghost use Rattle.error.specs.Answers.{as_outcome};
ghost use Rattle.fsm_sections.specs.Sections.{decode, space};
ghost use Rattle.fsm_sections.specs.Chains.{sections_of};
ghost use Rattle.fsm_sections.specs.Sources.{chains_in, chains_of};
ghost use Rattle.fsm_sizes.specs.Totals.{summed, totals_of};

use crate::windows::distinct_sizes;
use error::Refusal;
use fsm_sections::parts::part_chain;
use fsm_sections::run::Regions;
use fsm_sections::{Part, Source};

// A number of sections, and the sum of their sizes.
#[derive(Clone, Copy, Debug, PartialEq, Eq)]
pub struct Sums {
    pub count: u64,
    pub space: u64,
}

// A number of sections, how many sizes they have, and the sum of their sizes.
#[derive(Clone, Copy, Debug, PartialEq, Eq)]
pub struct Totals {
    pub count: u64,
    pub sizes: u64,
    pub space: u64,
}

// The sections of a run's regions, in closed form per region, added to others.
fn sums_in(run: &[u64], count: usize, part: Part, page: u64, from: Sums) -> Result<Sums, Refusal>
    ensures { as_outcome result ≡ summed (from.count + length (sections_of (chains_in part page (decode count run.now))))
        (from.space + space (sections_of (chains_in part page (decode count run.now)))) }
{
    let mut n = from.count;
    let mut sum = from.space;
    for region in Regions::new(run, count) {
        let r = part_chain(part, page, region.addr, region.size);
        sum = sum.checked_add(r.count * r.size).ok_or(Refusal::Overflow)?;
        n = n.checked_add(r.count).ok_or(Refusal::Overflow)?;
    }
    Ok(Sums {
        count: n,
        space: sum,
    })
}

// How many sections a source has, and the sum of their sizes. Pairs that a run does not have count nothing.
pub fn sums_of(a: &[u64], b: &[u64], c: &[u64], s: Source) -> Result<Sums, Refusal>
    ensures { as_outcome result ≡ summed (length (sections_of (chains_of s a.now b.now c.now)))
        (space (sections_of (chains_of s a.now b.now c.now))) }
{
    let none = Sums { count: 0, space: 0 };
    let x = sums_in(a, s.na, s.pa, s.page, none)?;
    let y = sums_in(b, s.nb, s.pb, s.page, x)?;
    sums_in(c, s.nc, s.pc, s.page, y)
}

// The totals of a source's sections.
pub fn totals_of(a: &[u64], b: &[u64], c: &[u64], s: Source) -> Result<Totals, Refusal>
    ensures { as_outcome result ≡ totals_of (sections_of (chains_of s a.now b.now c.now)) }
{
    let t = sums_of(a, b, c, s)?;
    Ok(Totals {
        count: t.count,
        sizes: distinct_sizes(a, b, c, s),
        space: t.space,
    })
}
