// A paged `alloc` past its tests: the drawing of pages.
ghost use Rattle.std.specs.Prelude.{◌≡◌, cond, ◌≤◌, ltb};
ghost use Rattle.free_lists.specs.Lists.{list_in};
ghost use Rattle.paged_lists.specs.declared.PagedCall.TheVariants as call;
ghost use Rattle.paged_lists.specs.PagedCalls.{paged_in, new_pages};
ghost use Rattle.paged_calls.specs.Decisions.{leaves, effect_of, step_outcome, left_of, TakesOwn, DrawsTo};

use crate::records::{Called, Records, Step};
use error::Refusal;
use free_lists::FileLists;
use free_lists::calls::Answer;
use free_space::decide::{Decision, decide_free, decide_whole_units};
use free_space::list::carry_out;
use numbers::quotient;
use paged_lists::PageType;
use paged_lists::marks::{mark_of, set_marks};

// `width` bytes of whole pages leave the shared list and are marked; what is not used of them joins the kind's list. All is decided first.
// Runs and marks come one by one, as in `called_alloc`.
pub(crate) fn draw(
    own: &mut [u64],
    shared: &mut [u64],
    marks: &mut [u8],
    lists: Records,
    page: u64,
    kind: PageType,
    len: u64,
    width: u64,
) -> Result<Step, Refusal>
    requires { len ≤ width }
    ensures { DrawsTo page kind len width (list_in own.old lists.own) (list_in shared.old lists.shared) marks.old
        (step_outcome result) (list_in own.new (left_of lists result).own) (list_in shared.new (left_of lists result).shared) marks.new }
{
    let pages = decide_whole_units(shared, lists.shared, width, page);
    let Some(drawn) = pages? else {
        return Ok(Step {
            answer: Answer::Nothing,
            lists,
        });
    };
    let rest = decide_free(own, lists.own, drawn.addr + len, width - len);
    rest?;
    set_marks(
        marks,
        quotient(drawn.addr, page),
        quotient(width, page),
        mark_of(kind),
    );
    let joined = carry_out(own, lists.own, rest);
    let taken = carry_out(shared, lists.shared, pages);
    Ok(Step {
        answer: Answer::At(drawn.addr),
        lists: Records {
            own: joined,
            shared: taken,
        },
    })
}

// A length below a page; 0 for any other, which no list serves.
pub(crate) fn below(len: u64, page: u64) -> u64
    ensures { result ≡ cond (ltb len page) len 0 }
{
    if len < page { len } else { 0 }
}

// The kind's list gives bytes out, as was decided. An arm for each kind: the check does not follow a run that a `match` picks.
pub(crate) fn take_own(
    metadata: &mut [u64],
    raw: &mut [u64],
    lists: FileLists,
    kind: PageType,
    own: Decision,
    addr: u64,
) -> Called
    ensures { TakesOwn kind addr own metadata.old raw.old lists metadata.new raw.new result }
{
    let after = match kind {
        PageType::Meta => FileLists {
            metadata: carry_out(metadata, lists.metadata, own),
            ..lists
        },
        PageType::Raw => FileLists {
            raw: carry_out(raw, lists.raw, own),
            ..lists
        },
    };
    Called {
        answer: Answer::At(addr),
        lists: after,
    }
}

// The kind's list has none: whole pages serve.
pub(crate) fn draw_for(
    metadata: &mut [u64],
    raw: &mut [u64],
    unclassified: &mut [u64],
    marks: &mut [u8],
    lists: FileLists,
    page: u64,
    kind: PageType,
    len: u64,
    width: u64,
) -> Result<Called, Refusal>
    requires { len ≤ width }
    ensures { leaves (paged_in metadata.new raw.new unclassified.new marks.new) lists result
        ≡ effect_of (call.Alloc kind len)
        (new_pages page kind len width (paged_in metadata.old raw.old unclassified.old marks.old lists))
        (paged_in metadata.old raw.old unclassified.old marks.old lists) }
{
    // An arm for each kind: the borrow checker does not cover a run that is chosen by `match` and then lent.
    let shared = lists.unclassified;
    match kind {
        PageType::Meta => {
            let both = Records {
                own: lists.metadata,
                shared,
            };
            let step = draw(metadata, unclassified, marks, both, page, kind, len, width)?;
            Ok(Called {
                answer: step.answer,
                lists: FileLists {
                    metadata: step.lists.own,
                    unclassified: step.lists.shared,
                    ..lists
                },
            })
        }
        PageType::Raw => {
            let both = Records {
                own: lists.raw,
                shared,
            };
            let step = draw(raw, unclassified, marks, both, page, kind, len, width)?;
            Ok(Called {
                answer: step.answer,
                lists: FileLists {
                    raw: step.lists.own,
                    unclassified: step.lists.shared,
                    ..lists
                },
            })
        }
    }
}
