// The source of slot 6.
ghost use Rattle.std.specs.Prelude.{◌≡◌};
ghost use Rattle.fsm_plan.specs.Order.{source_of};

use crate::Counts;
use crate::measure::large_source;
use fsm_sections::Source;

// How many metadata, raw and unclassified regions there are, and the page size.
#[derive(Clone, Copy, Debug, PartialEq, Eq)]
pub struct Paged {
    pub na: usize,
    pub nb: usize,
    pub nc: usize,
    pub page: u64,
}

// The whole pages of metadata and raw regions, and unclassified regions uncut.
pub(crate) fn source_of(s: Paged) -> Source
    ensures { result ≡ source_of s }
{
    let n = Counts {
        meta: s.na,
        raw: s.nb,
        unclassified: s.nc,
    };
    large_source(n, s.page)
}
