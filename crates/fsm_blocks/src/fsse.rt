// The section list, FSSE.
ghost use Rattle.std.specs.Prelude.{◌≡◌, ◌+◌, ◌*◌, ◌≤◌, length};
ghost use Rattle.error.specs.Answers.{as_outcome};
ghost use Rattle.error.specs.Lent.{left, leaving, over};
ghost use Rattle.fsm_sections.specs.Sections.{flat};
ghost use Rattle.fsm_blocks.specs.Reading.{parsed_fsse};
ghost use Rattle.fsm_blocks.specs.Parts.{got, Accepted, counted, sections_by};

use crate::groups::{groups_count, put_groups, widths_of};
use crate::header::{FsmHeader, is_signed};
use crate::size::OffsetSize;
use error::Refusal;

// How many sections a list holds.
pub(crate) fn fsse_count(bytes: &[u8], header: FsmHeader, size: OffsetSize) -> Result<u64, Refusal>
    ensures { as_outcome result ≡ counted (sections_by header size.bytes bytes.now) }
{
    let o = size.bytes as usize;
    let len = bytes.len();
    if len < 9 + o {
        return Err(Refusal::Short {
            expected: (9 + o) as u64,
            available: len as u64,
        });
    }
    if !is_signed(bytes, b'S', b'E') {
        return Err(Refusal::InvalidManager);
    }
    let bits = header.addr_space_bits;
    if bits == 0 || 64 < bits {
        return Err(Refusal::InvalidManager);
    }
    let start = 5 + o;
    let end = len - 4;
    groups_count(&bytes[start..end], widths_of(header), header.total_sections)
}

// Puts the sections of an accepted list into the run.
pub(crate) fn put_fsse(
    bytes: &[u8],
    header: FsmHeader,
    size: OffsetSize,
    out: &mut [u64],
    from: usize,
)
    requires accepted { Accepted (sections_by header size.bytes bytes.now) }
    requires room { from + 2 * header.total_sections ≤ length out.old }
    ensures { out.new ≡ over from (flat (got (sections_by header size.bytes bytes.now))) out.old }
{
    let start = 5 + size.bytes as usize;
    let end = bytes.len() - 4;
    put_groups(
        &bytes[start..end],
        widths_of(header),
        header.total_sections,
        out,
        from,
    );
}

// Reads the sections of the list `bytes`, whose header is given, into the run `out`. Versions, back address, class bytes and
// checksum are not tested, nor what follows the last section.
#[tactic(auto, unfolding(crate::specs::Reading::parsed_fsse, error::specs::Outcome::first_of))]
pub fn parse_fsse(
    bytes: &[u8],
    header: FsmHeader,
    offset_size: u8,
    out: &mut [u64],
) -> Result<u64, Refusal>
    ensures { left (as_outcome result) out.new
        ≡ leaving out.old (parsed_fsse header offset_size bytes.now out.old) }
{
    let size = OffsetSize::new(offset_size)?;
    if out.len() % 2 != 0 {
        return Err(Refusal::NotAList);
    }
    let n = fsse_count(bytes, header, size)?;
    let capacity = (out.len() / 2) as u64;
    if capacity < n {
        return Err(Refusal::OverCapacity {
            needed: n,
            given: capacity,
        });
    }
    put_fsse(bytes, header, size, out, 0);
    Ok(n)
}
