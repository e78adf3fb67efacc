// The superblock's base address, a type of its own, so that it is not taken for an address that it shifts.
ghost use Rattle.std.specs.Prelude.{◌≡◌};
ghost use Rattle.error.specs.Answers.{as_outcome};
ghost use Rattle.fields.specs.Ranges.{sum};

use error::Refusal;

#[derive(Clone, Copy, Debug, PartialEq, Eq)]
pub struct BaseAddress(pub u64);

impl BaseAddress {
    // The position in the file of an address as it is stored, relative to the base.
    #[tactic(auto, unfolding(crate::specs::Ranges::sum, error::specs::Outcome::first_of))]
    pub fn absolute(self, stored: u64) -> Result<u64, Refusal>
        ensures { as_outcome result ≡ sum stored self.0 }
    {
        stored.checked_add(self.0).ok_or(Refusal::Overflow)
    }
}
