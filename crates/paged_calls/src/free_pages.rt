// A paged `free` past its tests: the giving back of pages.
ghost use Rattle.std.specs.Prelude.{◌≡◌, cond, ◌&&◌, suc, ◌+◌, ◌-◌, ◌*◌, ◌≤◌, ◌<◌, leb, ltb, eqb};
ghost use Rattle.fields.specs.Ranges.{top};
ghost use Rattle.free_regions.specs.Regions.{end};
ghost use Rattle.free_lists.specs.Lists.{list_in, lists_in};
ghost use Rattle.paged_lists.specs.declared.PagedCall.TheVariants as call;
ghost use Rattle.paged_lists.specs.Kinds.{list_of};
ghost use Rattle.paged_lists.specs.PagedCalls.{paged_in};
ghost use Rattle.paged_calls.specs.Decisions.{leaves, effect_of, step_outcome, left_of, Ranged, folded_in, Joins, ReturnsTo, BacksTo, rejoined};

use crate::records::{Called, Records, Step};
use error::Refusal;
use free_lists::FileLists;
use free_lists::calls::{Answer, ListCall, perform};
use free_regions::FreeRegion;
use free_space::decide::{Decision, decide_free};
use free_space::list::carry_out;
use free_space::run::Patch;
use numbers::quotient;
use paged_lists::PageType;
use paged_lists::marks::set_marks;

// The bytes to be freed, and the first and the last page that they lie in.
#[derive(Clone, Copy, Debug, PartialEq, Eq)]
pub(crate) struct Freed {
    pub(crate) addr: u64,
    pub(crate) len: u64,
    pub(crate) first: u64,
    pub(crate) last: u64,
}

pub(crate) fn pages_of(page: u64, addr: u64, len: u64) -> Freed
    requires { (0 < page) × (0 < len) × (addr + len ≤ top) }
    ensures { (result.addr ≡ addr) × (result.len ≡ len) × Ranged page result }
{
    Freed {
        addr,
        len,
        first: quotient(addr, page),
        last: quotient(addr + (len - 1), page),
    }
}

// The region that a freed range folds into.
fn folded(p: Patch) -> FreeRegion
    ensures { result ≡ folded_in p }
{
    match p {
        Patch::One(r) => r,
        _ => FreeRegion { addr: 0, len: 0 },
    }
}

// Whether a region has all bytes of a page.
fn has_page(r: FreeRegion, page: u64, q: u64) -> bool
    requires { (q * page ≤ end r) × (end r ≤ top) }
    ensures { result ≡ (leb r.addr (q * page) && leb (q * page + page) (end r)) }
{
    let start = q * page;
    r.addr <= start && page <= r.addr + r.len - start
}

// Of the pages that a range meets, the first that the region has whole, where the ones after the first lie in it.
fn whole_from(r: FreeRegion, page: u64, first: u64) -> u64
    requires { (first * page ≤ end r) × (end r ≤ top) × (first < top) }
    ensures { result ≡ cond (leb r.addr (first * page) && leb (first * page + page) (end r)) first (suc first) }
{
    if has_page(r, page, first) {
        first
    } else {
        first + 1
    }
}

// One past the last.
fn whole_up_to(r: FreeRegion, page: u64, last: u64) -> u64
    requires { (last * page ≤ end r) × (end r ≤ top) × (last < top) }
    ensures { result ≡ cond (leb r.addr (last * page) && leb (last * page + page) (end r)) (suc last) last }
{
    if has_page(r, page, last) {
        last + 1
    } else {
        last
    }
}

// Whether a region more than there are in a full run is left, where a range is taken out of one of them.
fn is_over(r: FreeRegion, count: usize, room: usize, from: u64, upto: u64) -> bool
    requires { end r ≤ top }
    ensures { result ≡ (eqb count room && (ltb r.addr from && ltb upto (end r))) }
{
    count == room && r.addr < from && upto < r.addr + r.len
}

// The pages from `p` up to `e` go back, if the shared list has room for them.
fn return_pages(
    own: &mut [u64],
    shared: &mut [u64],
    marks: &mut [u8],
    lists: Records,
    page: u64,
    d: Decision,
    p: u64,
    e: u64,
) -> Result<Step, Refusal>
    requires { (p < e) × (e * page ≤ top) × (0 < page) }
    ensures { ReturnsTo page d p e (list_in own.old lists.own) (list_in shared.old lists.shared) marks.old
        (step_outcome result) (list_in own.new (left_of lists result).own) (list_in shared.new (left_of lists result).shared) marks.new }
{
    let addr = p * page;
    let len = (e - p) * page;
    let pages = decide_free(shared, lists.shared, addr, len);
    pages?;
    set_marks(marks, p, e - p, 0);
    let joined = carry_out(own, lists.own, d);
    let left = perform(own, joined, ListCall::TakeRange { addr, len });
    let given = carry_out(shared, lists.shared, pages);
    Ok(Step {
        answer: Answer::Done,
        lists: Records {
            own: left.list,
            shared: given,
        },
    })
}

// What is freed joins the kind's list, by the decision `d`; the pages that are then all free go from there to the shared list. All is decided first.
fn give_back(
    own: &mut [u64],
    shared: &mut [u64],
    marks: &mut [u8],
    lists: Records,
    page: u64,
    d: Decision,
    f: Freed,
) -> Result<Step, Refusal>
    requires { Joins page f (list_in own.old lists.own) d }
    ensures { BacksTo page f (list_in own.old lists.own) (list_in shared.old lists.shared) marks.old
        (step_outcome result) (list_in own.new (left_of lists result).own) (list_in shared.new (left_of lists result).shared) marks.new }
{
    let Some(change) = d? else {
        return Ok(Step {
            answer: Answer::Nothing,
            lists,
        });
    };
    let r = folded(change.patch);
    let p = whole_from(r, page, f.first);
    let e = whole_up_to(r, page, f.last);
    if e <= p {
        let joined = carry_out(own, lists.own, d);
        return Ok(Step {
            answer: Answer::Done,
            lists: Records {
                own: joined,
                ..lists
            },
        });
    }
    let count = change.lo + 1 + (lists.own.count - change.hi);
    let room = own.len() / 2;
    if is_over(r, count, room, p * page, e * page) {
        return Err(Refusal::OverCapacity {
            needed: count as u64 + 1,
            given: room as u64,
        });
    }
    return_pages(own, shared, marks, lists, page, d, p, e)
}

// The bytes join the kind's list, as was decided, and pages go from there to the shared one.
pub(crate) fn give_back_for(
    metadata: &mut [u64],
    raw: &mut [u64],
    unclassified: &mut [u64],
    marks: &mut [u8],
    lists: FileLists,
    page: u64,
    kind: PageType,
    own: Decision,
    f: Freed,
) -> Result<Called, Refusal>
    requires { Joins page f (lists_in metadata.old raw.old unclassified.old lists (list_of kind)) own }
    ensures { leaves (paged_in metadata.new raw.new unclassified.new marks.new) lists result
        ≡ effect_of (call.Free kind f.addr f.len)
        (rejoined page kind f.addr f.len (paged_in metadata.old raw.old unclassified.old marks.old lists))
        (paged_in metadata.old raw.old unclassified.old marks.old lists) }
{
    // An arm for each kind: the borrow checker does not cover a run that is chosen by `match` and then lent.
    let shared = lists.unclassified;
    match kind {
        PageType::Meta => {
            let both = Records {
                own: lists.metadata,
                shared,
            };
            let step = give_back(metadata, unclassified, marks, both, page, own, f)?;
            Ok(Called {
                answer: step.answer,
                lists: FileLists {
                    metadata: step.lists.own,
                    unclassified: step.lists.shared,
                    ..lists
                },
            })
        }
        PageType::Raw => {
            let both = Records {
                own: lists.raw,
                shared,
            };
            let step = give_back(raw, unclassified, marks, both, page, own, f)?;
            Ok(Called {
                answer: step.answer,
                lists: FileLists {
                    raw: step.lists.own,
                    unclassified: step.lists.shared,
                    ..lists
                },
            })
        }
    }
}
