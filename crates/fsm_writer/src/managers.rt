// The blocks of a paged file's managers, planned and written straight from the lists' runs. The sections are not stored anywhere.
ghost use Rattle.std.specs.Prelude.{◌≡◌, ◌+◌, ◌≤◌, length};
ghost use Rattle.error.specs.Answers.{as_outcome};
ghost use Rattle.error.specs.Outcome.{answer};
ghost use Rattle.error.specs.Lent.{left, leaving, over};
ghost use Rattle.fields.specs.Ranges.{top};
ghost use Rattle.checksum.specs.Lookup3.{lookup3};
ghost use Rattle.fsm_sections.specs.Chains.{sections_of};
ghost use Rattle.fsm_sections.specs.Sources.{chains_of, Given};
ghost use Rattle.fsm_sections.specs.Passes.{Numbers};
ghost use Rattle.fsm_blocks.specs.Settings.{starting_set};
ghost use Rattle.fsm_plan.specs.Managers.{manager, manager_bytes};
ghost use Rattle.fsm_plan.specs.Blocks.{measure_of, planned_blocks};
ghost use Rattle.fsm_writer.specs.Writing.{Narrow};
ghost use Rattle.fsm_writer.specs.Paged.{managers_bytes, written_managers};

use crate::writer::{SectionList, write_fshd, write_fsse};
use error::Refusal;
use fsm_plan::Counts;
use fsm_plan::blocks::{BlocksPlan, SECT_CLASS_LARGE, SECT_CLASS_SMALL, plan_blocks};
use fsm_plan::measure::{Measure, large_source, small_source};
use fsm_sections::Source;

// The blocks of the source's sections, whose measure is known, at the front of `out`; nothing for none.
fn put_blocks(
    a: &[u64],
    b: &[u64],
    c: &[u64],
    s: Source,
    m: Measure,
    address: u64,
    class: u8,
    offset_size: u8,
    out: &mut [u8],
)
    requires given { Given s a.now b.now c.now }
    requires numbers { Numbers (sections_of (chains_of s a.now b.now c.now)) }
    requires width { (1 ≤ offset_size) × (offset_size ≤ 8) × Narrow offset_size (sections_of (chains_of s a.now b.now c.now)) }
    requires measure { m ≡ measure_of offset_size (sections_of (chains_of s a.now b.now c.now)) }
    requires room { (address + m.len ≤ top) × (m.len ≤ length out.old) }
    ensures { out.new ≡ over 0
        (manager_bytes offset_size (starting_set offset_size) lookup3 address
        (manager class (sections_of (chains_of s a.now b.now c.now)))) out.old }
{
    if m.count == 0 {
        return;
    }
    let o = offset_size as u64;
    let head = 74 + o;
    let used = m.len - head;
    let from = head as usize;
    write_fshd(out, o, m.space, m.count, address + head, used);
    let list = SectionList {
        fshd: address,
        class,
        count: m.count as usize,
        len: used as usize,
    };
    write_fsse(a, b, c, s, &mut out[from..], o as usize, list);
}

// Writes the blocks of a plan at the front of `out`.
fn put_managers(
    meta: &[u64],
    raw: &[u64],
    unclassified: &[u64],
    n: Counts,
    page: u64,
    start: u64,
    p: BlocksPlan,
    offset_size: u8,
    out: &mut [u8],
)
    requires plan { planned_blocks meta.now raw.now unclassified.now n page start offset_size ≡ answer p }
    requires room { p.managers.end_of_managers ≤ start + length out.old }
    ensures { out.new
        ≡ over 0 (managers_bytes meta.now raw.now unclassified.now n page start offset_size) out.old }
{
    let m = p.measures;
    let raw_at = m.slot0.len;
    let large_at = raw_at + m.slot2.len;
    let second = raw_at as usize;
    let third = large_at as usize;
    let small = small_source(n.meta, page);
    let small_raw = small_source(n.raw, page);
    let large = large_source(n, page);
    put_blocks(
        meta,
        meta,
        meta,
        small,
        m.slot0,
        start,
        SECT_CLASS_SMALL,
        offset_size,
        out,
    );
    put_blocks(
        raw,
        raw,
        raw,
        small_raw,
        m.slot2,
        start + raw_at,
        SECT_CLASS_SMALL,
        offset_size,
        &mut out[second..],
    );
    put_blocks(
        meta,
        raw,
        unclassified,
        large,
        m.slot6,
        start + large_at,
        SECT_CLASS_LARGE,
        offset_size,
        &mut out[third..],
    );
}

// Plans the blocks of metadata, raw and unclassified regions side by side from `start` on, and writes them at the front of `out`.
pub fn serialize_paged_managers(
    meta: &[u64],
    raw: &[u64],
    unclassified: &[u64],
    n: Counts,
    page: u64,
    start: u64,
    offset_size: u8,
    out: &mut [u8],
) -> Result<BlocksPlan, Refusal>
    ensures { left (as_outcome result) out.new
        ≡ leaving out.old (written_managers meta.now raw.now unclassified.now n page start offset_size
        out.old) }
{
    let p = plan_blocks(meta, raw, unclassified, n, page, start, offset_size)?;
    let len = p.managers.end_of_managers - start;
    if (out.len() as u64) < len {
        return Err(Refusal::OverCapacity {
            needed: len,
            given: out.len() as u64,
        });
    }
    put_managers(meta, raw, unclassified, n, page, start, p, offset_size, out);
    Ok(p)
}
