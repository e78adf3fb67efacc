// One manager: where its section list stands, how many sections it has, and these put into a run.
ghost use Rattle.std.specs.Prelude.{◌≡◌, ◌+◌, ◌*◌, ◌≤◌, length};
ghost use Rattle.error.specs.Answers.{as_outcome};
ghost use Rattle.error.specs.Lent.{over};
ghost use Rattle.error.specs.Outcome.{first_of};
ghost use Rattle.fields.specs.Layout.{window};
ghost use Rattle.fsm_sections.specs.Sections.{flat};
ghost use Rattle.fsm_blocks.specs.declared.checks.Reading.TheVariants.{Loose};
ghost use Rattle.fsm_blocks.specs.Fshd.{kept, parsed_fshd};
ghost use Rattle.fsm_blocks.specs.Checks.{fshd_checks};
ghost use Rattle.fsm_blocks.specs.Reading.{read_named, read_manager};
ghost use Rattle.fsm_blocks.specs.Parts.{got, Accepted};
ghost use Rattle.fsm_blocks.specs.Named.{full, named_outcome, Inside, manager_count};

use crate::checks::{Reading, check_fshd, check_fsse};
use crate::fsse::{fsse_count, put_fsse};
use crate::header::FsmHeader;
use crate::size::OffsetSize;
use error::Refusal;
use fields::address::BaseAddress;
use fields::convert::undefined_addr;

// Where a manager's section list stands, with the header that names it.
#[derive(Clone, Copy)]
pub(crate) struct SectionList {
    pub(crate) start: u64,
    pub(crate) header: FsmHeader,
}

impl SectionList {
    // The bytes of the list.
    fn of(self, bytes: &[u8]) -> &[u8]
        requires { self.start + self.header.fsse_used ≤ length bytes.now }
        ensures { result.now ≡ window self.start self.header.fsse_used bytes.now }
    {
        let first = self.start as usize;
        &bytes[first..first + self.header.fsse_used as usize]
    }
}

// The header at the start of `bytes`, after the tests of the reading.
fn header_at(bytes: &[u8], offset_size: u8, reading: Reading) -> Result<FsmHeader, Refusal>
    ensures { as_outcome result
        ≡ first_of (fshd_checks reading offset_size bytes.now) (kept (parsed_fshd offset_size bytes.now)) }
{
    check_fshd(bytes, offset_size, reading)?;
    FsmHeader::parse(bytes, offset_size)
}

// The section list that a header names, which stands at `slot`. The undefined address is skipped before the base is added.
fn list_of(
    bytes: &[u8],
    slot: u64,
    header: FsmHeader,
    base: BaseAddress,
    size: OffsetSize,
    reading: Reading,
) -> Result<Option<SectionList>, Refusal>
    ensures named { named_outcome size.bytes bytes.now result
        ≡ read_named reading size.bytes base.0 slot (full header) bytes.now }
    ensures inside { Inside (length bytes.now) result }
{
    let fsse = header.fsse_addr;
    if fsse == undefined_addr(size.bytes) {
        return Ok(None);
    }
    let Ok(start) = base.absolute(fsse) else {
        return Err(Refusal::InvalidManager);
    };
    let len = bytes.len() as u64;
    if len < start {
        return Err(Refusal::InvalidManager);
    }
    if len - start < header.fsse_used {
        return Err(Refusal::InvalidManager);
    }
    let list = SectionList { start, header };
    check_fsse(list.of(bytes), slot, size, reading)?;
    Ok(Some(list))
}

// The section list of the manager whose header a slot names. The base is added to both addresses.
fn locate(
    bytes: &[u8],
    slot: u64,
    base: BaseAddress,
    size: OffsetSize,
    reading: Reading,
) -> Result<Option<SectionList>, Refusal>
    ensures named { named_outcome size.bytes bytes.now result ≡ read_manager reading size.bytes base.0 slot bytes.now }
    ensures inside { Inside (length bytes.now) result }
{
    if slot == undefined_addr(size.bytes) {
        return Ok(None);
    }
    let Ok(start) = base.absolute(slot) else {
        return Err(Refusal::InvalidManager);
    };
    if (bytes.len() as u64) < start {
        return Err(Refusal::InvalidManager);
    }
    let first = start as usize;
    let header = header_at(&bytes[first..], size.bytes, reading)?;
    list_of(bytes, slot, header, base, size, reading)
}

// How many sections the manager has whose header `slot` names.
#[tactic(auto, unfolding(crate::specs::Named::manager_count, error::specs::Outcome::first_of))]
pub fn manager_count(
    bytes: &[u8],
    slot: u64,
    base: BaseAddress,
    offset_size: u8,
    reading: Reading,
) -> Result<u64, Refusal>
    ensures { as_outcome result ≡ manager_count reading offset_size base.0 slot bytes.now }
{
    let size = OffsetSize::new(offset_size)?;
    let Some(list) = locate(bytes, slot, base, size, reading)? else {
        return Ok(0);
    };
    fsse_count(list.of(bytes), list.header, size)
}

// Puts the sections of an accepted manager into the run, and gives the place after them. What was accepted strictly is read alike
// loosely, so no checksum is computed again.
pub(crate) fn put_manager(
    bytes: &[u8],
    slot: u64,
    base: BaseAddress,
    size: OffsetSize,
    out: &mut [u64],
    from: usize,
) -> usize
    requires accepted { Accepted (read_manager Loose size.bytes base.0 slot bytes.now) }
    requires room { from + 2 * length (got (read_manager Loose size.bytes base.0 slot bytes.now)) ≤ length out.old }
    ensures put { out.new ≡ over from (flat (got (read_manager Loose size.bytes base.0 slot bytes.now))) out.old }
    ensures next { result ≡ from + 2 * length (got (read_manager Loose size.bytes base.0 slot bytes.now)) }
{
    // Two arms and no `let .. else`, nor one arm for both: in those the prover is not told which of the two it is.
    match locate(bytes, slot, base, size, Reading::Loose) {
        Ok(None) => from,
        Err(_) => from,
        Ok(Some(list)) => {
            put_fsse(list.of(bytes), list.header, size, out, from);
            from + 2 * list.header.total_sections as usize
        }
    }
}
