// What is asked of a list without changing it.
ghost use Rattle.std.specs.Prelude.{◌≡◌, ℕ};
ghost use Rattle.error.specs.Answers.{as_outcome};
ghost use Rattle.free_space.specs.Questions.{free_bytes, largest_of, largest_units_of};
ghost use Rattle.free_space.specs.Passes.{Measures, greatest_of};
ghost use Rattle.free_regions.specs.declared.FreeRegion.{FreeRegion};
ghost use Rattle.free_space.specs.Splices.{First};

use crate::check::{first_region, follows};
use crate::list::FreeList;
use crate::run::region_at;
use crate::units::whole_units;
use error::Refusal;
use free_regions::FreeRegion;

// The greatest measure of the regions of a list from its first on. The test for refusal 3 goes with it, so that each pair is read once.
// By the place, as the list's definition and `region_at` have it.
fn greatest_after<M: Fn(FreeRegion) -> u64>(
    run: &[u64],
    list: FreeList,
    first: FreeRegion,
    measure: M,
) -> Result<u64, Refusal>
    requires first { First run.now list first }
    requires calls { M.IsAlwaysCallable measure }
    ensures { (m : FreeRegion → ℕ) → Measures m (M.post measure) → as_outcome result ≡ greatest_of m run.now list }
{
    let mut most = measure(first);
    let mut end = first.addr + first.len;
    let mut sum = first.len;
    for i in 1..list.count {
        let r = region_at(run, i);
        if !follows(end, r) {
            return Err(Refusal::NotAList);
        }
        most = most.max(measure(r));
        end = r.addr + r.len;
        sum += r.len;
    }
    if list.total != sum {
        return Err(Refusal::NotAList);
    }
    Ok(most)
}

#[tactic(auto, unfolding(error::specs::Outcome::first_of))]
fn greatest_of<M: Fn(FreeRegion) -> u64>(
    run: &[u64],
    list: FreeList,
    measure: M,
) -> Result<u64, Refusal>
    requires { M.IsAlwaysCallable measure }
    ensures { (m : FreeRegion → ℕ) → Measures m (M.post measure) → as_outcome result ≡ greatest_of m run.now list }
{
    let Some(first) = first_region(run, list)? else {
        return Ok(0);
    };
    greatest_after(run, list, first, measure)
}

impl FreeList {
    // The free bytes, without a look at the run: what the record says.
    pub fn free_bytes(self) -> u64
        ensures { result ≡ free_bytes self }
    {
        self.total
    }

    // The length of the longest region.
    #[tactic(auto, unfolding(crate::specs::Questions::largest_of))]
    pub fn largest(self, run: &[u64]) -> Result<u64, Refusal>
        ensures { as_outcome result ≡ largest_of run.now self }
    {
        greatest_of(run, self, |r| r.len)
    }

    // The length of the longest run of whole units inside a region.
    #[tactic(auto, unfolding(crate::specs::Questions::largest_units_of))]
    pub fn largest_whole_units(self, run: &[u64], unit: u64) -> Result<u64, Refusal>
        ensures { as_outcome result ≡ largest_units_of run.now self unit }
    {
        greatest_of(run, self, |r| whole_units(r, unit).span)
    }
}
