// The sections of all managers that a file names.
ghost use Rattle.std.specs.Prelude.{◌≡◌, ◌*◌, ◌≤◌, length};
ghost use Rattle.error.specs.Answers.{as_outcome};
ghost use Rattle.error.specs.Lent.{left, leaving, over};
ghost use Rattle.fsm_sections.specs.Sections.{flat};
ghost use Rattle.fsm_blocks.specs.declared.checks.Reading.TheVariants.{Loose, Strict};
ghost use Rattle.fsm_blocks.specs.Reading.{read_slots, joined, persisted};
ghost use Rattle.fsm_blocks.specs.Parts.{got, Accepted};
ghost use Rattle.fsm_blocks.specs.Named.{slots_count};

use crate::checks::Reading;
use crate::manager::{manager_count, put_manager};
use crate::size::OffsetSize;
use error::Refusal;
use fields::address::BaseAddress;

// How many sections all managers have, at most 2^64 - 1.
fn slots_count(
    bytes: &[u8],
    slots: &[u64],
    base: BaseAddress,
    size: OffsetSize,
    reading: Reading,
) -> Result<u64, Refusal>
    ensures { as_outcome result ≡ slots_count reading size.bytes base.0 slots.now bytes.now }
{
    let mut needed: u64 = 0;
    for slot in slots {
        let n = manager_count(bytes, *slot, base, size.bytes, reading)?;
        needed = needed.saturating_add(n);
    }
    Ok(needed)
}

// Puts the sections of accepted managers into the run.
fn put_slots(bytes: &[u8], slots: &[u64], base: BaseAddress, size: OffsetSize, out: &mut [u64])
    requires accepted { Accepted (read_slots Loose size.bytes base.0 slots.now bytes.now) }
    requires room { 2 * length (joined (got (read_slots Loose size.bytes base.0 slots.now bytes.now))) ≤ length out.old }
    ensures { out.new
        ≡ over 0 (flat (joined (got (read_slots Loose size.bytes base.0 slots.now bytes.now)))) out.old }
{
    let mut k = 0;
    for slot in slots {
        k = put_manager(bytes, *slot, base, size, out, k);
    }
}

// The sections of the managers that the slots name, by one of the two readings.
#[tactic(auto, unfolding(crate::specs::Reading::persisted, error::specs::Outcome::first_of))]
fn read_by(
    bytes: &[u8],
    slots: &[u64],
    base: BaseAddress,
    offset_size: u8,
    reading: Reading,
    out: &mut [u64],
) -> Result<u64, Refusal>
    ensures { left (as_outcome result) out.new
        ≡ leaving out.old (persisted reading slots.now base.0 offset_size bytes.now out.old) }
{
    let size = OffsetSize::new(offset_size)?;
    if out.len() % 2 != 0 {
        return Err(Refusal::NotAList);
    }
    let needed = slots_count(bytes, slots, base, size, reading)?;
    let capacity = (out.len() / 2) as u64;
    if capacity < needed {
        return Err(Refusal::OverCapacity {
            needed,
            given: capacity,
        });
    }
    put_slots(bytes, slots, base, size, out);
    Ok(needed)
}

// Reads the sections of the managers that the slots name into the run `out`, slot by slot. An address of which all bits of the
// offset size are one names no manager. Versions, client, checksums and back addresses are not tested.
pub fn read_persisted_sections(
    bytes: &[u8],
    slots: &[u64],
    base: BaseAddress,
    offset_size: u8,
    out: &mut [u64],
) -> Result<u64, Refusal>
    ensures { left (as_outcome result) out.new
        ≡ leaving out.old (persisted Loose slots.now base.0 offset_size bytes.now out.old) }
{
    read_by(bytes, slots, base, offset_size, Reading::Loose, out)
}

// The same, but each block is tested before it is parsed: its version, the header's client, its checksum, and that the section
// list names the slot as its header's address.
pub fn read_persisted_sections_strict(
    bytes: &[u8],
    slots: &[u64],
    base: BaseAddress,
    offset_size: u8,
    out: &mut [u64],
) -> Result<u64, Refusal>
    ensures { left (as_outcome result) out.new
        ≡ leaving out.old (persisted Strict slots.now base.0 offset_size bytes.now out.old) }
{
    read_by(bytes, slots, base, offset_size, Reading::Strict, out)
}
