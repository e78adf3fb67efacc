// A region of free bytes, and the whole units inside it.
#![tactic(auto)]

ghost use Rattle.std.specs.Prelude.{◌≡◌};
ghost use Rattle.error.specs.Answers.{as_outcome, as_optional_outcome};
ghost use Rattle.fields.specs.Ranges.{sum};
ghost use Rattle.free_regions.specs.Units.{interior};

use error::Refusal;

// The bytes from `addr` up to `addr + len`.
#[derive(Clone, Copy, Debug, PartialEq, Eq)]
pub struct FreeRegion {
    pub addr: u64,
    pub len: u64,
}

// The whole units inside a region, if there are any.
#[derive(Clone, Copy, Debug, PartialEq, Eq)]
pub struct Whole {
    pub start: u64,
    pub span: u64,
}

impl FreeRegion {
    // One past the last byte.
    #[tactic(auto, unfolding(fields::specs::Ranges::sum, error::specs::Outcome::first_of))]
    pub fn end(self) -> Result<u64, Refusal>
        ensures { as_outcome result ≡ sum self.addr self.len }
    {
        self.addr.checked_add(self.len).ok_or(Refusal::Overflow)
    }

    // The whole units inside the region: from the first multiple of `unit` at or after `addr` to the last at or before the end.
    pub fn aligned_interior(self, unit: u64) -> Result<Option<Whole>, Refusal>
        ensures { as_optional_outcome result ≡ interior unit self }
    {
        let end = self.end()?;
        if unit == 0 {
            return Ok(None);
        }
        let last = end - end % unit;
        if last <= self.addr {
            return Ok(None);
        }
        // The first multiple is at most the last one, so that it fits.
        let start = self.addr.next_multiple_of(unit);
        if last <= start {
            return Ok(None);
        }
        Ok(Some(Whole {
            start,
            span: last - start,
        }))
    }
}
