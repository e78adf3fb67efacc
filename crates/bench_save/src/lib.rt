// The plan and the beginning of a save through the C interface, for the benchmarks alone: whole runs, offset size 8, message at 0; the end
// of the managers and the length of the blocks, all ones where it is refused.
#![tactic(auto)]

ghost use Rattle.std.specs.Prelude.{◌≡◌, get_or};
ghost use Rattle.error.specs.Answers.{as_outcome};
ghost use Rattle.error.specs.Lent.{with, leaving};
ghost use Rattle.fsm_plan.specs.Plan.{planned};
ghost use Rattle.free_lists.specs.Lists.{lists_in};
ghost use Rattle.save.specs.Saving.{begun};
ghost use Rattle.bench_save.specs.Lengths.{whole_lists, whole_counts, end_or_top, len_or_top, plan_left, save_left};

use error::Refusal;
use free_lists::FileLists;
use free_space::list::FreeList;
use fsm_plan::Counts;
use fsm_plan::blocks::PagedManagerPlan;
use fsm_plan::plan::plan_paged_managers;
use save::{Target, save_begin};
use save_step::Save;

fn end_of(p: Result<PagedManagerPlan, Refusal>) -> u64
    ensures { result ≡ end_or_top (as_outcome p) }
{
    p.map_or(u64::MAX, |plan| plan.end_of_managers)
}

fn len_of(b: Result<Save, Refusal>) -> u64
    ensures { result ≡ len_or_top (as_outcome b) }
{
    b.map_or(u64::MAX, |save| save.len)
}

// The i-th total; 0 where there is none.
// As in `pairs`, where it is private.
fn total_at(totals: &[u64], i: usize) -> u64
    ensures { result ≡ get_or totals.now i 0 }
{
    totals.get(i).copied().unwrap_or(0)
}

fn lists_of(meta: &[u64], raw: &[u64], unclassified: &[u64], totals: &[u64]) -> FileLists
    ensures { result ≡ whole_lists meta.now raw.now unclassified.now totals.now }
{
    FileLists {
        metadata: FreeList {
            count: meta.len() / 2,
            total: total_at(totals, 0),
        },
        raw: FreeList {
            count: raw.len() / 2,
            total: total_at(totals, 1),
        },
        unclassified: FreeList {
            count: unclassified.len() / 2,
            total: total_at(totals, 2),
        },
    }
}

#[unsafe(no_mangle)]
pub extern "C" fn bench_plan_paged_managers(
    meta: &[u64],
    raw: &[u64],
    unclassified: &[u64],
    page: u64,
    start: u64,
    out: &mut [u64],
) -> u64
    ensures { with result out.new
        ≡ plan_left (leaving out.old
        (planned meta.now raw.now unclassified.now
        (whole_counts meta.now raw.now unclassified.now) page start 8 out.old)) }
{
    let n = Counts {
        meta: meta.len() / 2,
        raw: raw.len() / 2,
        unclassified: unclassified.len() / 2,
    };
    end_of(plan_paged_managers(meta, raw, unclassified, n, page, start, 8, out))
}

#[unsafe(no_mangle)]
pub extern "C" fn bench_save_begin(
    meta: &[u64],
    raw: &[u64],
    unclassified: &[u64],
    totals: &[u64],
    page: u64,
    start: u64,
    image: &[u8],
    scratch: &mut [u8],
) -> u64
    ensures { with result scratch.new
        ≡ save_left (leaving scratch.old
        (begun (lists_in meta.now raw.now unclassified.now
        (whole_lists meta.now raw.now unclassified.now totals.now)) page start 0 image.now scratch.old)) }
{
    let lists = lists_of(meta, raw, unclassified, totals);
    let to = Target {
        page,
        start,
        place: 0,
    };
    len_of(save_begin(meta, raw, unclassified, lists, to, image, scratch))
}
