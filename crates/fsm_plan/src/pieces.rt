// Whether an address of the pieces of regions does not fit the offset size. Pieces are not gone through one by one.
ghost use Rattle.std.specs.Prelude.{◌≡◌, ◌+◌, ◌^◌, ◌<◌, false};
ghost use Rattle.fsm_sections.specs.Sections.{section, decode};
ghost use Rattle.fsm_sections.specs.Pages.{pieces, split};
ghost use Rattle.fsm_sections.specs.Sources.{Given};
ghost use Rattle.fsm_sections.specs.Runs.{ends_above, any_wide};
ghost use Rattle.fsm_plan.specs.Order.{source_of};
ghost use Rattle.fsm_plan.specs.Blocks.{wide_sections};

use crate::chains::Paged;
use fsm_sections::run::Regions;
use fsm_sections::wide::{any_wide, is_wide};
use numbers::quotient;

// Whether the address of one of a section's pieces does not fit o bytes: the last piece has the greatest.
fn wide_piece(page: u64, addr: u64, size: u64, o: usize) -> bool
    requires { (0 < page) × (addr + size < 2 ^ 64) }
    ensures { result ≡ any_wide o (pieces page (section addr size)) }
{
    if size == 0 {
        return false;
    }
    let last = quotient(addr + (size - 1), page) * page;
    is_wide(last.max(addr), o)
}

// Whether the address of a piece of one of the sections does not.
fn wide_pieces(sections: &[u64], count: usize, page: u64, o: usize) -> bool
    requires page { 0 < page }
    requires fits { ends_above (decode count sections.now) ≡ false }
    ensures { result ≡ any_wide o (split page (decode count sections.now)) }
{
    for region in Regions::new(sections, count) {
        if wide_piece(page, region.addr, region.size, o) {
            return true;
        }
    }
    false
}

// Whether the address of a section of a slot does not fit o bytes.
pub(crate) fn wide_slots(
    meta: &[u64],
    raw: &[u64],
    unclassified: &[u64],
    s: Paged,
    o: usize,
) -> bool
    requires given { Given (source_of s) meta.now raw.now unclassified.now }
    requires fits { (ends_above (decode s.na meta.now) ≡ false) × (ends_above (decode s.nb raw.now) ≡ false) }
    ensures { result ≡ wide_sections s meta.now raw.now unclassified.now o }
{
    wide_pieces(meta, s.na, s.page, o)
        || wide_pieces(raw, s.nb, s.page, o)
        || any_wide(unclassified, s.nc, o)
}
