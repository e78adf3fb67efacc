// The measure of sections: the sum of their sizes, their number, and the length of their two blocks.
ghost use Rattle.std.specs.Prelude.{◌≡◌, ◌+◌, cond, eqb};
ghost use Rattle.error.specs.Answers.{as_outcome};
ghost use Rattle.fsm_sections.specs.Chains.{sections_of};
ghost use Rattle.fsm_sections.specs.Sources.{chains_of, small_source, large_source};
ghost use Rattle.fsm_sections.specs.Passes.{storable};
ghost use Rattle.fsm_blocks.specs.Fshd.{fshd_size};
ghost use Rattle.fsm_blocks.specs.Settings.{starting_set, used_by};
ghost use Rattle.fsm_plan.specs.Blocks.{measured};

use crate::Counts;
use error::Refusal;
use fsm_blocks::length::fsse_used;
use fsm_sections::{Part, Source};
use fsm_sizes::totals::totals_of;

// The sum of the sizes, the number of the sections, and the length of their blocks, 0 for none.
#[derive(Clone, Copy, Debug, PartialEq, Eq)]
pub struct Measure {
    pub space: u64,
    pub count: u64,
    pub len: u64,
}

// The sections of slot 0 or 2: the pieces below a page of a run's n regions, the run given twice.
pub fn small_source(n: usize, page: u64) -> Source
    ensures { result ≡ small_source page n }
{
    Source {
        na: n,
        pa: Part::Head,
        nb: n,
        pb: Part::Tail,
        nc: 0,
        pc: Part::Whole,
        page,
    }
}

// The sections of slot 6: the whole pages of two runs' regions, and a third's uncut.
pub fn large_source(n: Counts, page: u64) -> Source
    ensures { result ≡ large_source page n.meta n.raw n.unclassified }
{
    Source {
        na: n.meta,
        pa: Part::Pages,
        nb: n.raw,
        pb: Part::Pages,
        nc: n.unclassified,
        pc: Part::Whole,
        page,
    }
}

// The length of the two blocks of `count` sections of `sizes` sizes.
fn blocks_len(count: u64, sizes: u64, offset_size: u8) -> Result<u64, Refusal>
    ensures { as_outcome result ≡ storable
        (cond (eqb count 0) 0 (fshd_size offset_size + used_by offset_size (starting_set offset_size) count sizes)) }
{
    if count == 0 {
        return Ok(0);
    }
    let used = fsse_used(count, sizes, offset_size)?;
    let head = 74 + u64::from(offset_size);
    head.checked_add(used).ok_or(Refusal::Overflow)
}

// The measure of a source's sections.
pub(crate) fn measure_of(
    a: &[u64],
    b: &[u64],
    c: &[u64],
    s: Source,
    offset_size: u8,
) -> Result<Measure, Refusal>
    ensures { as_outcome result ≡ measured offset_size (sections_of (chains_of s a.now b.now c.now)) }
{
    let t = totals_of(a, b, c, s)?;
    let len = blocks_len(t.count, t.sizes, offset_size)?;
    Ok(Measure {
        space: t.space,
        count: t.count,
        len,
    })
}
