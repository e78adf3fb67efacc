// A run and a record that are a list: what a call decides on once they are tested.
ghost use Rattle.std.specs.Prelude.{◌≡◌, ◌<◌, ◌≤◌, true, false, MatchResult};
ghost use Rattle.error.specs.declared.Refusal.TheVariants.{NotAList};
ghost use Rattle.fields.specs.Ranges.{top};
ghost use Rattle.free_regions.specs.Regions.{end};
ghost use Rattle.free_space.specs.Runs.{region_at, is_list};

use crate::check::is_list;
use crate::list::FreeList;
use crate::run::region_at;
use error::Refusal;
use free_regions::FreeRegion;

#[derive(Clone, Copy)]
pub(crate) struct ValidList<'a> {
    pub(crate) run: &'a [u64],
    pub(crate) list: FreeList,
    ghost tested: { is_list run.now list ≡ true },
}

impl<'a> ValidList<'a> {
    // Refusal 3 for what is no list.
    pub(crate) fn new(run: &'a [u64], list: FreeList) -> Result<Self, Refusal>
        ensures { MatchResult result (λ l. (l.run.now ≡ run.now) × (l.list ≡ list)) (λ r. (is_list run.now list ≡ false) × (r ≡ NotAList)) }
    {
        if is_list(run, list) {
            Ok(ValidList { run, list })
        } else {
            Err(Refusal::NotAList)
        }
    }

    // The i-th region. It ends within 64 bits.
    pub(crate) fn region(self, i: usize) -> FreeRegion
        requires { i < self.list.count }
        ensures read { result ≡ region_at self.entry.run.now i }
        ensures within { end result ≤ top }
    {
        region_at(self.run, i)
    }
}
