// The managers of a paged file: the plan of their blocks, and the sections of each slot in a lent run.
ghost use Rattle.std.specs.Prelude.{◌≡◌, ◌*◌, ◌≤◌, false, length};
ghost use Rattle.error.specs.Answers.{as_outcome};
ghost use Rattle.error.specs.Lent.{left, leaving, over};
ghost use Rattle.fsm_sections.specs.Sections.{decode, flat};
ghost use Rattle.fsm_sections.specs.Sources.{Given};
ghost use Rattle.fsm_sections.specs.Runs.{ends_above};
ghost use Rattle.fsm_plan.specs.Order.{source_of};
ghost use Rattle.fsm_plan.specs.Plan.{Counted, planned, plan_sections, plan_count, planned_into};

use crate::Counts;
use crate::blocks::{PagedManagerPlan, plan_blocks};
use crate::chains::{Paged, source_of};
use crate::put::{put_large, put_small};
use error::Refusal;
use fields::width::is_width;

// Puts the sections of slots 0, 2 and 6.
fn put_slots(meta: &[u64], raw: &[u64], unclassified: &[u64], s: Paged, out: &mut [u64])
    requires given { Given (source_of s) meta.now raw.now unclassified.now }
    requires fits { (ends_above (decode s.na meta.now) ≡ false) × (ends_above (decode s.nb raw.now) ≡ false) }
    requires room { 2 * plan_count s meta.now raw.now unclassified.now ≤ length out.old }
    ensures { out.new ≡ over 0 (flat (plan_sections s meta.now raw.now unclassified.now)) out.old }
{
    let k = put_small(meta, s.na, s.page, out, 0);
    let j = put_small(raw, s.nb, s.page, out, k);
    let source = source_of(s);
    put_large(meta, raw, unclassified, source, &mut out[j..]);
}

// Puts the sections of a plan, if there is room.
fn put_plan(
    meta: &[u64],
    raw: &[u64],
    unclassified: &[u64],
    s: Paged,
    p: PagedManagerPlan,
    out: &mut [u64],
) -> Result<PagedManagerPlan, Refusal>
    requires given { Given (source_of s) meta.now raw.now unclassified.now }
    requires fits { (ends_above (decode s.na meta.now) ≡ false) × (ends_above (decode s.nb raw.now) ≡ false) }
    requires counted { Counted s meta.now raw.now unclassified.now p }
    ensures { left (as_outcome result) out.new
        ≡ leaving out.old (planned_into s meta.now raw.now unclassified.now p out.old) }
{
    let needed = (p.slot0.count + p.slot2.count + p.slot6.count) as u64;
    let capacity = (out.len() / 2) as u64;
    if capacity < needed {
        return Err(Refusal::OverCapacity {
            needed,
            given: capacity,
        });
    }
    put_slots(meta, raw, unclassified, s, out);
    Ok(p)
}

// Classes metadata, raw and unclassified sections into slots 0, 2 and 6, puts them into the run `out` slot by slot, and places their
// blocks side by side from `start` on. Sections below a page carry class 1, those of slot 6 class 2.
pub fn plan_paged_managers(
    meta: &[u64],
    raw: &[u64],
    unclassified: &[u64],
    n: Counts,
    page: u64,
    start: u64,
    offset_size: u8,
    out: &mut [u64],
) -> Result<PagedManagerPlan, Refusal>
    ensures { left (as_outcome result) out.new
        ≡ leaving out.old (planned meta.now raw.now unclassified.now n page start offset_size
        out.old) }
{
    if !is_width(offset_size) {
        return Err(Refusal::Width);
    }
    if page == 0 {
        return Err(Refusal::Page);
    }
    if out.len() % 2 != 0 {
        return Err(Refusal::NotAList);
    }
    let p = plan_blocks(meta, raw, unclassified, n, page, start, offset_size)?;
    let s = Paged {
        na: n.meta,
        nb: n.raw,
        nc: n.unclassified,
        page,
    };
    put_plan(meta, raw, unclassified, s, p.managers, out)
}
