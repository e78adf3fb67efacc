// The two calls that hand out bytes in pages by kind and take them back: document 02's front door (P4). Each decides first, and then changes
// lists and marks: a list call cannot be undone, since it clears places past the count.
#![tactic(auto)]

mod alloc_pages;
mod free_pages;
pub mod history;
mod records;
mod tests;

ghost use Rattle.std.specs.Prelude.{◌≡◌};
ghost use Rattle.error.specs.Lent.{left};
ghost use Rattle.free_lists.specs.History.{answered_outcome};
ghost use Rattle.paged_lists.specs.declared.PagedCall.TheVariants as call;
ghost use Rattle.paged_lists.specs.PagedCalls.{paged_in, performed};
ghost use Rattle.paged_calls.specs.Decisions.{leaves};

use crate::alloc_pages::{below, draw_for, take_own};
use crate::free_pages::{give_back_for, pages_of};
use crate::records::{Called, applied};
use crate::tests::{Lent, list_of};
use error::Refusal;
use free_lists::FileLists;
use free_lists::calls::{Answer, Applied};
use free_lists::decide::{decide_alloc, decide_free};
use paged_lists::marks::all_marked;
use paged_lists::{PageType, PagedCall};

// What `alloc` comes to.
// Runs and marks come one by one: of a struct of `&mut` each function would have to promise that its fields are still what was lent.
fn called_alloc(
    metadata: &mut [u64],
    raw: &mut [u64],
    unclassified: &mut [u64],
    marks: &mut [u8],
    lists: FileLists,
    page: u64,
    kind: PageType,
    len: u64,
) -> Result<Called, Refusal>
    ensures { leaves (paged_in metadata.new raw.new unclassified.new marks.new) lists result
        ≡ performed page (call.Alloc kind len)
        (paged_in metadata.old raw.old unclassified.old marks.old lists) }
{
    // From a page up the kind's list is asked for no bytes, but it is tested.
    let asked = below(len, page);
    let own = decide_alloc(metadata, raw, unclassified, lists, list_of(kind), asked);
    let lent = Lent {
        metadata,
        raw,
        unclassified,
        marks,
        lists,
    };
    let width = lent.test_alloc(page, len, own.err())?;
    if len == 0 {
        return Ok(Called {
            answer: Answer::Nothing,
            lists,
        });
    }
    match own? {
        None => draw_for(
            metadata,
            raw,
            unclassified,
            marks,
            lists,
            page,
            kind,
            len,
            width,
        ),
        Some(change) => Ok(take_own(metadata, raw, lists, kind, own, change.addr)),
    }
}

// Gives `len` bytes of a kind out: below a page from the kind's list, or else from whole pages of the unclassified one.
pub fn alloc(
    metadata: &mut [u64],
    raw: &mut [u64],
    unclassified: &mut [u64],
    marks: &mut [u8],
    lists: FileLists,
    page: u64,
    kind: PageType,
    len: u64,
) -> Applied
    ensures { left (answered_outcome result.answer)
        (paged_in metadata.new raw.new unclassified.new marks.new result.lists)
        ≡ performed page (call.Alloc kind len)
        (paged_in metadata.old raw.old unclassified.old marks.old lists) }
{
    let called = called_alloc(metadata, raw, unclassified, marks, lists, page, kind, len);
    applied(lists, called)
}

// What `free` comes to.
fn called_free(
    metadata: &mut [u64],
    raw: &mut [u64],
    unclassified: &mut [u64],
    marks: &mut [u8],
    lists: FileLists,
    page: u64,
    kind: PageType,
    addr: u64,
    len: u64,
) -> Result<Called, Refusal>
    ensures { leaves (paged_in metadata.new raw.new unclassified.new marks.new) lists result
        ≡ performed page (call.Free kind addr len)
        (paged_in metadata.old raw.old unclassified.old marks.old lists) }
{
    let own = decide_free(metadata, raw, unclassified, lists, list_of(kind), addr, len);
    let lent = Lent {
        metadata,
        raw,
        unclassified,
        marks,
        lists,
    };
    lent.test_free(page, addr, len, own.err())?;
    if len == 0 {
        return Ok(Called {
            answer: Answer::Nothing,
            lists,
        });
    }
    let f = pages_of(page, addr, len);
    if !all_marked(marks, kind, f.first, f.last - f.first + 1) {
        return Err(Refusal::OtherKind);
    }
    give_back_for(
        metadata,
        raw,
        unclassified,
        marks,
        lists,
        page,
        kind,
        own,
        f,
    )
}

// Frees `len` bytes of a kind: pages that are then all free go to the unclassified list.
pub fn free(
    metadata: &mut [u64],
    raw: &mut [u64],
    unclassified: &mut [u64],
    marks: &mut [u8],
    lists: FileLists,
    page: u64,
    kind: PageType,
    addr: u64,
    len: u64,
) -> Applied
    ensures { left (answered_outcome result.answer)
        (paged_in metadata.new raw.new unclassified.new marks.new result.lists)
        ≡ performed page (call.Free kind addr len)
        (paged_in metadata.old raw.old unclassified.old marks.old lists) }
{
    let called = called_free(
        metadata,
        raw,
        unclassified,
        marks,
        lists,
        page,
        kind,
        addr,
        len,
    );
    applied(lists, called)
}

// One of the two calls.
pub fn perform(
    metadata: &mut [u64],
    raw: &mut [u64],
    unclassified: &mut [u64],
    marks: &mut [u8],
    lists: FileLists,
    page: u64,
    call: PagedCall,
) -> Applied
    ensures { left (answered_outcome result.answer)
        (paged_in metadata.new raw.new unclassified.new marks.new result.lists)
        ≡ performed page call (paged_in metadata.old raw.old unclassified.old marks.old lists) }
{
    match call {
        PagedCall::Alloc { kind, len } => {
            alloc(metadata, raw, unclassified, marks, lists, page, kind, len)
        }
        PagedCall::Free { kind, addr, len } => {
            free(
                metadata,
                raw,
                unclassified,
                marks,
                lists,
                page,
                kind,
                addr,
                len,
            )
        }
    }
}
