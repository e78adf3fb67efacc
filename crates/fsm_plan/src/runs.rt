// The tests of offset size, page and three runs of regions.
ghost use Rattle.std.specs.Prelude.{◌≡◌, ◌&&◌, ◌||◌, ltb};
ghost use Rattle.error.specs.Answers.{as_outcome};
ghost use Rattle.error.specs.Outcome.{answer, first_of};
ghost use Rattle.fields.specs.Ranges.{top};
ghost use Rattle.pairs.specs.Pairs.{is_run};
ghost use Rattle.fsm_sections.specs.Sections.{section, decode};
ghost use Rattle.fsm_sections.specs.Pages.{end};
ghost use Rattle.fsm_sections.specs.Runs.{ends_above};
ghost use Rattle.fsm_plan.specs.Blocks.{run_tests};

use crate::Counts;
use error::Refusal;
use fields::width::is_width;
use fsm_sections::run::Regions;
use pairs::is_run;

fn are_runs(a: &[u64], b: &[u64], c: &[u64], n: Counts) -> bool
    ensures { result ≡ (is_run a.now n.meta && (is_run b.now n.raw && is_run c.now n.unclassified)) }
{
    is_run(a, n.meta) && is_run(b, n.raw) && is_run(c, n.unclassified)
}

// Whether a region ends above 2^64 - 1.
fn is_late(addr: u64, size: u64) -> bool
    ensures { result ≡ ltb top (end (section addr size)) }
{
    u64::MAX - size < addr
}

// Whether some region of a run does.
fn any_late(run: &[u64], n: usize) -> bool
    ensures { result ≡ ends_above (decode n run.now) }
{
    Regions::new(run, n).any(|region| is_late(region.addr, region.size))
}

fn are_late(a: &[u64], b: &[u64], c: &[u64], n: Counts) -> bool
    ensures { result ≡ (ends_above (decode n.meta a.now) ||
        (ends_above (decode n.raw b.now) || ends_above (decode n.unclassified c.now))) }
{
    any_late(a, n.meta) || any_late(b, n.raw) || any_late(c, n.unclassified)
}

// Refusals 1, 2, 3, and 4 for a region that ends above 2^64 - 1.
pub(crate) fn test_runs(
    a: &[u64],
    b: &[u64],
    c: &[u64],
    n: Counts,
    page: u64,
    offset_size: u8,
) -> Result<(), Refusal>
    ensures { as_outcome result ≡ first_of (run_tests a.now b.now c.now n page offset_size) (answer tt) }
{
    if !is_width(offset_size) {
        return Err(Refusal::Width);
    }
    if page == 0 {
        return Err(Refusal::Page);
    }
    if !are_runs(a, b, c, n) {
        return Err(Refusal::NotAList);
    }
    if are_late(a, b, c, n) {
        return Err(Refusal::Overflow);
    }
    Ok(())
}
