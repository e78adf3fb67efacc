// The save of three lists into an image: its beginning, which makes every test and fills the scratch. The steps are crate `save_step`.
#![tactic(auto)]

ghost use Rattle.std.specs.Prelude.{◌≡◌};
ghost use Rattle.error.specs.Answers.{as_outcome};
ghost use Rattle.error.specs.Lent.{left, leaving};
ghost use Rattle.free_lists.specs.Lists.{lists_in};
ghost use Rattle.save.specs.Saving.{begun};

mod conditions;
mod fill;

use crate::conditions::test_early;
use crate::fill::{begin_after, refuse_early};
use error::Refusal;
use free_lists::{FileLists, are_lists};
use save_step::Save;

// Where a save goes: the page size of its blocks, the address of the first, and the place of the message.
#[derive(Clone, Copy, Debug, PartialEq, Eq)]
pub struct Target {
    pub page: u64,
    pub start: u64,
    pub place: u64,
}

// What a beginning is asked for: the lists to save, and where to.
#[derive(Clone, Copy)]
pub(crate) struct Request {
    pub(crate) lists: FileLists,
    pub(crate) to: Target,
}

// Begins a save of three lists: blocks from `to.start` on, message at `to.place`. The scratch gets all blocks and then the message.
pub fn save_begin(
    meta: &[u64],
    raw: &[u64],
    unclassified: &[u64],
    lists: FileLists,
    to: Target,
    image: &[u8],
    scratch: &mut [u8],
) -> Result<Save, Refusal>
    ensures { left (as_outcome result) scratch.new
        ≡ leaving scratch.old (begun (lists_in meta.now raw.now unclassified.now lists) to.page to.start
        to.place image.now scratch.old) }
{
    if to.page == 0 {
        return Err(Refusal::Page);
    }
    if !are_lists(meta, raw, unclassified, lists) {
        return Err(Refusal::NotAList);
    }
    let q = Request { lists, to };
    match test_early(meta, raw, unclassified, q, image) {
        Err(r) => Err(refuse_early(meta, raw, unclassified, q, r)),
        Ok(()) => begin_after(meta, raw, unclassified, q, image, scratch),
    }
}
