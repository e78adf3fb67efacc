// What a beginning does after its tests: it plans the blocks, writes them into the scratch, and after them the message.
ghost use Rattle.std.specs.Prelude.{◌≡◌, ℕ, ◌+◌, ◌-◌, ◌≤◌, ◌<◌, true, false, [], ◌∷◌, length};
ghost use Rattle.error.specs.Answers.{as_outcome};
ghost use Rattle.error.specs.declared.Refusal.TheVariants.{Overflow, OverCapacity};
ghost use Rattle.error.specs.Outcome.{Outcome, refused, when, first_of};
ghost use Rattle.error.specs.Lent.{left, leaving, over};
ghost use Rattle.fields.specs.Ranges.{top};
ghost use Rattle.free_lists.specs.Lists.{lists_in, regions_in, are_lists, shared_byte};
ghost use Rattle.save_step.specs.declared.Save.{Save};
ghost use Rattle.save.specs.Saving.{too_large, message_in};
ghost use Rattle.save.specs.Beginning.{counts_in, message_by, begun_after};

use crate::Request;
use crate::conditions::block_room;
use error::Refusal;
use file_space_info::{DEFAULT_THRESHOLD, FileSpaceInfo, FileSpaceStrategy, MESSAGE_LEN};
use free_lists::FileLists;
use fsm_plan::Counts;
use fsm_plan::blocks::{PagedManagerPlan, plan_blocks};
use fsm_writer::managers::serialize_paged_managers;
use save_step::Save;

// No `From`: both types are of other crates.
fn counts_of(lists: FileLists) -> Counts
    ensures { result ≡ counts_in lists }
{
    Counts {
        meta: lists.metadata.count,
        raw: lists.raw.count,
        unclassified: lists.unclassified.count,
    }
}

// Writes the message after the blocks of a plan.
fn put_message(page: u64, start: u64, p: PagedManagerPlan, scratch: &mut [u8])
    requires { (start ≤ p.end_of_managers) × (p.end_of_managers - start + 125 ≤ length scratch.old) }
    ensures { scratch.new ≡ over (p.end_of_managers - start) (message_by page start p) scratch.old }
{
    let message = FileSpaceInfo::persistent_managers(
        FileSpaceStrategy::Page,
        DEFAULT_THRESHOLD,
        page,
        p.slots(),
        start,
    );
    let info = message.info;
    let addrs = message.slots;
    let from = (p.end_of_managers - start) as usize;
    let _ = info.serialize(&addrs, &mut scratch[from..]);
}

// The refusal of a beginning that an early test refuses: a plan's 4 comes before it.
pub(crate) fn refuse_early(
    meta: &[u64],
    raw: &[u64],
    unclassified: &[u64],
    q: Request,
    early: Refusal,
) -> Refusal
    requires { (0 < q.to.page) × (are_lists (lists_in meta.now raw.now unclassified.now q.lists) ≡ true) }
    ensures { ◌≡◌ {A = Outcome Save} (refused result)
        (first_of (when (too_large q.to.page q.to.start
        (regions_in (lists_in meta.now raw.now unclassified.now q.lists))) Overflow ∷ []) (refused early)) }
{
    let n = counts_of(q.lists);
    match plan_blocks(meta, raw, unclassified, n, q.to.page, q.to.start, 8) {
        Ok(_) => early,
        // Matched in two steps for the same reason as in `begin_after`.
        Err(r) => match r {
            Refusal::Overflow => r,
            _ => early,
        },
    }
}

// A beginning that no early test refuses.
pub(crate) fn begin_after(
    meta: &[u64],
    raw: &[u64],
    unclassified: &[u64],
    q: Request,
    image: &[u8],
    scratch: &mut [u8],
) -> Result<Save, Refusal>
    requires lists { (0 < q.to.page) × (are_lists (lists_in meta.now raw.now unclassified.now q.lists) ≡ true) }
    requires apart { shared_byte (regions_in (lists_in meta.now raw.now unclassified.now q.lists)) ≡ false }
    requires message { message_in q.to.place image.now ≡ true }
    ensures { left (as_outcome result) scratch.new
        ≡ leaving scratch.old (begun_after (regions_in (lists_in meta.now raw.now unclassified.now q.lists))
        q.to.page q.to.start q.to.place image.now scratch.old) }
{
    let n = counts_of(q.lists);
    let given = scratch.len() as u64;
    let room = block_room(q.to, image);
    let lent = room.min(given.saturating_sub(MESSAGE_LEN)) as usize;
    let planned = serialize_paged_managers(
        meta,
        raw,
        unclassified,
        n,
        q.to.page,
        q.to.start,
        8,
        &mut scratch[..lent],
    );
    match planned {
        Ok(p) => {
            let len = p.managers.end_of_managers - q.to.start;
            if given < MESSAGE_LEN {
                return Err(Refusal::OverCapacity {
                    needed: len + MESSAGE_LEN,
                    given,
                });
            }
            put_message(q.to.page, q.to.start, p.managers, scratch);
            Ok(Save {
                start: q.to.start,
                place: q.to.place,
                len,
                done: 0,
            })
        }
        // Tried by `Err(Refusal::OverCapacity { .. })` beside `Err(r)`, whose proof did not close: the last arm does not say that it is no 14.
        Err(r) => match r {
            Refusal::OverCapacity { needed, .. } => {
                if room < needed {
                    return Err(Refusal::Place);
                }
                Err(Refusal::OverCapacity {
                    needed: needed + MESSAGE_LEN,
                    given,
                })
            }
            _ => Err(r),
        },
    }
}
