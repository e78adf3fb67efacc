// Where the blocks of slots 0, 2 and 6 stand, how long they are, and the refusals of a plan.
ghost use Rattle.std.specs.Prelude.{◌≡◌, ◌+◌, ◌≤◌, ◌<◌, ◌&&◌, ltb, eqb};
ghost use Rattle.error.specs.Answers.{as_outcome};
ghost use Rattle.fields.specs.Ranges.{top, undefined_addr};
ghost use Rattle.fsm_blocks.specs.Fshd.{fshd_size};
ghost use Rattle.fsm_plan.specs.Blocks.{block_at, end_at, managers_at, wide_block, wide_managers, Placed, slots_measured};
ghost use Rattle.fsm_plan.specs.Blocks.{slots_by, paged, Ready, planned_from, planned_blocks};

use crate::Counts;
use crate::chains::{Paged, source_of};
use crate::measure::{Measure, large_source, measure_of, small_source};
use crate::pieces::wide_slots;
use crate::runs::test_runs;
use crate::sharing::is_shared;
use error::Refusal;
use fields::convert::{UNDEF, undefined_addr};

// The class of the sections of slots 0 and 2, and of those of slot 6.
// Bytes and no enum: serialize_fsse takes any class byte.
pub const SECT_CLASS_SMALL: u8 = 1;

pub const SECT_CLASS_LARGE: u8 = 2;

// The blocks of a slot, the class that its sections carry, and how many it has. A slot without sections has no blocks, and for both the
// undefined address of 8 bytes, at every offset size.
// No Option of addresses: docs/DIFFERENCES.md promises the record with all four, UNDEF for none.
#[derive(Clone, Copy, Debug, PartialEq, Eq)]
pub struct PagedManagerBlock {
    pub fshd_addr: u64,
    pub fsse_addr: u64,
    pub class: u8,
    pub count: usize,
}

// The blocks of slots 0, 2 and 6, and where they end.
#[derive(Clone, Copy, Debug, PartialEq, Eq)]
pub struct PagedManagerPlan {
    pub slot0: PagedManagerBlock,
    pub slot2: PagedManagerBlock,
    pub slot6: PagedManagerBlock,
    pub end_of_managers: u64,
}

impl PagedManagerPlan {
    // Whether no slot has sections.
    pub fn is_empty(self) -> bool
        ensures { result ≡ (eqb self.slot0.count 0 && (eqb self.slot2.count 0 && eqb self.slot6.count 0)) }
    {
        self.slot0.count == 0 && self.slot2.count == 0 && self.slot6.count == 0
    }

    // The twelve slots of the message: the addresses of the headers, and for a slot without blocks the undefined one of 8 bytes. Stored in
    // fewer bytes this is the undefined one of those.
    pub fn slots(self) -> [u64; 12]
        ensures { result ≡ slots_by self }
    {
        [
            self.slot0.fshd_addr,
            UNDEF,
            self.slot2.fshd_addr,
            UNDEF,
            UNDEF,
            UNDEF,
            self.slot6.fshd_addr,
            UNDEF,
            UNDEF,
            UNDEF,
            UNDEF,
            UNDEF,
        ]
    }
}

// The measure of each slot's sections.
#[derive(Clone, Copy, Debug, PartialEq, Eq)]
pub struct Measures {
    pub slot0: Measure,
    pub slot2: Measure,
    pub slot6: Measure,
}

// A plan of blocks, and the measures that it is made by.
#[derive(Clone, Copy, Debug, PartialEq, Eq)]
pub struct BlocksPlan {
    pub managers: PagedManagerPlan,
    pub measures: Measures,
}

// The measures of slots 0, 2 and 6.
fn measure_slots(
    meta: &[u64],
    raw: &[u64],
    unclassified: &[u64],
    n: Counts,
    page: u64,
    offset_size: u8,
) -> Result<Measures, Refusal>
    requires { 0 < page }
    ensures { as_outcome result ≡ slots_measured (paged n page) meta.now raw.now unclassified.now offset_size }
{
    let s0 = small_source(n.meta, page);
    let slot0 = measure_of(meta, meta, meta, s0, offset_size)?;
    let s2 = small_source(n.raw, page);
    let slot2 = measure_of(raw, raw, raw, s2, offset_size)?;
    let s6 = large_source(n, page);
    let slot6 = measure_of(meta, raw, unclassified, s6, offset_size)?;
    Ok(Measures {
        slot0,
        slot2,
        slot6,
    })
}

// Whether the blocks from `start` on end above 2^64 - 1.
fn ends_late(start: u64, m: Measures) -> bool
    ensures { result ≡ ltb top (end_at start m) }
{
    if u64::MAX - m.slot0.len < start {
        return true;
    }
    let at2 = start + m.slot0.len;
    if u64::MAX - m.slot2.len < at2 {
        return true;
    }
    let at6 = at2 + m.slot2.len;
    u64::MAX - m.slot6.len < at6
}

// The blocks of a slot from an address on.
fn block_at(m: Measure, class: u8, at: u64, offset_size: u8) -> PagedManagerBlock
    requires { (m.count ≡ 0 → ⊥) → at + fshd_size offset_size ≤ top }
    ensures { result ≡ block_at offset_size class at m }
{
    let (fshd_addr, fsse_addr) = if m.count == 0 {
        (UNDEF, UNDEF)
    } else {
        (at, at + (74 + u64::from(offset_size)))
    };
    PagedManagerBlock {
        fshd_addr,
        fsse_addr,
        class,
        count: m.count as usize,
    }
}

// The blocks of the slots side by side from `start` on.
fn managers_at(start: u64, m: Measures, offset_size: u8) -> PagedManagerPlan
    requires { Placed offset_size start m }
    ensures { result ≡ managers_at offset_size start m }
{
    let at2 = start + m.slot0.len;
    let at6 = at2 + m.slot2.len;
    PagedManagerPlan {
        slot0: block_at(m.slot0, SECT_CLASS_SMALL, start, offset_size),
        slot2: block_at(m.slot2, SECT_CLASS_SMALL, at2, offset_size),
        slot6: block_at(m.slot6, SECT_CLASS_LARGE, at6, offset_size),
        end_of_managers: at6 + m.slot6.len,
    }
}

// Whether a slot has blocks, and one begins at `limit` or after it.
fn wide_block(b: PagedManagerBlock, limit: u64) -> bool
    ensures { result ≡ wide_block limit b }
{
    b.count != 0 && (limit <= b.fshd_addr || limit <= b.fsse_addr)
}

// Whether a block of any slot does.
fn wide_managers(p: PagedManagerPlan, limit: u64) -> bool
    ensures { result ≡ wide_managers limit p }
{
    wide_block(p.slot0, limit) || wide_block(p.slot2, limit) || wide_block(p.slot6, limit)
}

// The plan after the tests of the runs and of the slots' sums: refusals 4 for the end, 5 and 12.
fn plan_from(
    meta: &[u64],
    raw: &[u64],
    unclassified: &[u64],
    s: Paged,
    m: Measures,
    start: u64,
    offset_size: u8,
) -> Result<BlocksPlan, Refusal>
    requires { Ready meta.now raw.now unclassified.now s offset_size m }
    ensures { as_outcome result ≡ planned_from meta.now raw.now unclassified.now
        (undefined_addr offset_size) s m start offset_size }
{
    if ends_late(start, m) {
        return Err(Refusal::Overflow);
    }
    if is_shared(meta, raw, unclassified, source_of(s)) {
        return Err(Refusal::SharedAddress);
    }
    let managers = managers_at(start, m, offset_size);
    // A block at the undefined address would be skipped by every reader; above it, the address does not fit.
    if wide_managers(managers, undefined_addr(offset_size)) {
        return Err(Refusal::WideAddress);
    }
    if wide_slots(meta, raw, unclassified, s, offset_size as usize) {
        return Err(Refusal::WideAddress);
    }
    Ok(BlocksPlan {
        managers,
        measures: m,
    })
}

// The plan of the blocks of metadata, raw and unclassified regions, side by side from `start` on.
pub fn plan_blocks(
    meta: &[u64],
    raw: &[u64],
    unclassified: &[u64],
    n: Counts,
    page: u64,
    start: u64,
    offset_size: u8,
) -> Result<BlocksPlan, Refusal>
    ensures { as_outcome result ≡ planned_blocks meta.now raw.now unclassified.now n page start offset_size }
{
    test_runs(meta, raw, unclassified, n, page, offset_size)?;
    let m = measure_slots(meta, raw, unclassified, n, page, offset_size)?;
    let s = Paged {
        na: n.meta,
        nb: n.raw,
        nc: n.unclassified,
        page,
    };
    plan_from(meta, raw, unclassified, s, m, start, offset_size)
}
