// The managers of a paged file in its bytes, at any offset size.
#![tactic(auto)]

ghost use Rattle.std.specs.Prelude.{◌≡◌};
ghost use Rattle.error.specs.Answers.{as_outcome};
ghost use Rattle.error.specs.Outcome.{answer};
ghost use Rattle.error.specs.Lent.{left, leaving};
ghost use Rattle.fsm_blocks.specs.declared.checks.Reading.{Reading};
ghost use Rattle.fsm_blocks.specs.Reading.{read_slots};
ghost use Rattle.fsm_plan.specs.declared.blocks.BlocksPlan.{BlocksPlan};
ghost use Rattle.stored_managers.specs.Storing.{stored_slots, sections_by_slot, stored_managers};

use error::Refusal;
use fields::address::BaseAddress;
use fsm_plan::Counts;
use fsm_plan::blocks::BlocksPlan;
use fsm_writer::managers::serialize_paged_managers;

// Plans the blocks of metadata, raw and unclassified regions side by side from `start` on, and writes them into the bytes of a
// file, each at its address plus the base. The plan's slots, stored in `offset_size` bytes each, then read as the sections of
// each slot, loosely and strictly.
pub fn store_managers(
    meta: &[u64],
    raw: &[u64],
    unclassified: &[u64],
    n: Counts,
    page: u64,
    start: u64,
    base: BaseAddress,
    offset_size: u8,
    bytes: &mut [u8],
) -> Result<BlocksPlan, Refusal>
    ensures stored { left (as_outcome result) bytes.new
        ≡ leaving bytes.old (stored_managers meta.now raw.now unclassified.now n page start base.0
        offset_size bytes.old) }
    ensures read { (how : Reading) (p : BlocksPlan) → as_outcome result ≡ answer p
        → read_slots how offset_size base.0 (stored_slots offset_size p.managers) bytes.new
        ≡ answer (sections_by_slot meta.now raw.now unclassified.now n page) }
{
    // Past the end of the bytes there is room for no block.
    let at = start.saturating_add(base.0).min(bytes.len() as u64) as usize;
    serialize_paged_managers(
        meta,
        raw,
        unclassified,
        n,
        page,
        start,
        offset_size,
        &mut bytes[at..],
    )
}
