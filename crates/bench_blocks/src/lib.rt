// The blocks and the cutting at pages through the C interface, for the benchmarks alone: offset size 8, base 0; each answers how many
// bytes or sections it gives, all ones where it is refused.
#![tactic(auto)]

ghost use Rattle.std.specs.Prelude.{◌≡◌};
ghost use Rattle.error.specs.Lent.{with, leaving};
ghost use Rattle.fsm_blocks.specs.declared.checks.Reading.TheVariants.{Loose, Strict};
ghost use Rattle.fsm_blocks.specs.Reading.{persisted};
ghost use Rattle.fsm_writer.specs.Serializing.{written_fshd, written_fsse};
ghost use Rattle.fsm_pages.specs.Split.{split_into};
ghost use Rattle.fields.specs.Ranges.{or_top, left_or_top};

use fields::address::BaseAddress;
use fsm_blocks::persisted::{read_persisted_sections, read_persisted_sections_strict};
use fsm_pages::pages::split_at_pages;
use fsm_writer::writer::{serialize_fshd, serialize_fsse};

#[unsafe(no_mangle)]
pub extern "C" fn bench_serialize_fshd(
    sections: &[u64],
    count: usize,
    fsse_addr: u64,
    out: &mut [u8],
) -> u64
    ensures { with result out.new
        ≡ left_or_top (leaving out.old (written_fshd 8 sections.now count fsse_addr out.old)) }
{
    serialize_fshd(sections, count, fsse_addr, 8, out).unwrap_or(u64::MAX)
}

#[unsafe(no_mangle)]
pub extern "C" fn bench_serialize_fsse(
    sections: &[u64],
    count: usize,
    fshd_addr: u64,
    class: u8,
    out: &mut [u8],
) -> u64
    ensures { with result out.new
        ≡ left_or_top (leaving out.old (written_fsse 8 sections.now count fshd_addr class out.old)) }
{
    serialize_fsse(sections, count, fshd_addr, 8, class, out).unwrap_or(u64::MAX)
}

#[unsafe(no_mangle)]
pub extern "C" fn bench_read_sections(bytes: &[u8], slots: &[u64], out: &mut [u64]) -> u64
    ensures { with result out.new
        ≡ left_or_top (leaving out.old (persisted Loose slots.now 0 8 bytes.now out.old)) }
{
    read_persisted_sections(bytes, slots, BaseAddress(0), 8, out).unwrap_or(u64::MAX)
}

#[unsafe(no_mangle)]
pub extern "C" fn bench_read_sections_strict(bytes: &[u8], slots: &[u64], out: &mut [u64]) -> u64
    ensures { with result out.new
        ≡ left_or_top (leaving out.old (persisted Strict slots.now 0 8 bytes.now out.old)) }
{
    read_persisted_sections_strict(bytes, slots, BaseAddress(0), 8, out).unwrap_or(u64::MAX)
}

#[unsafe(no_mangle)]
pub extern "C" fn bench_split_at_pages(
    sections: &[u64],
    count: usize,
    page: u64,
    out: &mut [u64],
) -> usize
    ensures { with result out.new ≡ left_or_top (leaving out.old (split_into sections.now count page out.old)) }
{
    split_at_pages(sections, count, page, out).unwrap_or(usize::MAX)
}
