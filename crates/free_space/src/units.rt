// The whole units inside a region that ends within 64 bits.
ghost use Rattle.std.specs.Prelude.{◌≡◌, ◌<◌, ◌≤◌};
ghost use Rattle.fields.specs.Ranges.{top};
ghost use Rattle.free_regions.specs.Regions.{end};
ghost use Rattle.free_regions.specs.Units.{interior_start, interior_span};

use free_regions::{FreeRegion, Whole};

// The whole units of a region. Where there are none, the span is 0 and the start says nothing.
// No Option: the span is a measure, and a region without whole units measures 0.
pub(crate) fn whole_units(r: FreeRegion, unit: u64) -> Whole
    ensures { end r ≤ top → (result.span ≡ interior_span unit r) × (0 < result.span → result.start ≡ interior_start unit r) }
{
    match r.aligned_interior(unit) {
        Ok(Some(whole)) => whole,
        Ok(None) => Whole { start: 0, span: 0 },
        Err(_) => Whole { start: 0, span: 0 },
    }
}
