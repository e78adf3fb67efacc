// The tests of a beginning that need no plan: 5, 8, 9, and 13 for the message and the free regions. They read what is lent and change nothing.
ghost use Rattle.std.specs.Prelude.{◌≡◌, ℕ, ◌+◌, ◌≤◌, ◌<◌, true, ◌||◌, ltb};
ghost use Rattle.error.specs.Answers.{as_outcome};
ghost use Rattle.error.specs.Outcome.{answer, first_of};
ghost use Rattle.fields.specs.Ranges.{top};
ghost use Rattle.free_regions.specs.Regions.{region, meets};
ghost use Rattle.free_space.specs.Runs.{regions, is_list};
ghost use Rattle.free_lists.specs.Lists.{lists_in, regions_in, are_lists};
ghost use Rattle.save.specs.Saving.{in_the_way, message_in, blocks_out, any_in_the_way};
ghost use Rattle.save.specs.Beginning.{early_tests};

use crate::{Request, Target};
use error::Refusal;
use file_space_info::MESSAGE_LEN;
use free_lists::check_lists;
use free_space::list::FreeList;
use fsm_sections::run::Regions;

// Whether the message at `place` lies in the image.
fn message_in(place: u64, image: &[u8]) -> bool
    ensures { result ≡ message_in place image.now }
{
    let end = image.len() as u64;
    MESSAGE_LEN <= end && place <= end - MESSAGE_LEN
}

// Whether two ranges that are not empty share a byte.
fn meet(a: u64, a_len: u64, b: u64, b_len: u64) -> bool
    requires some { (0 < a_len) × (0 < b_len) }
    requires ends { (a + a_len ≤ top) × (b + b_len ≤ top) }
    ensures { result ≡ meets (region a a_len) (region b b_len) }
{
    a < b + b_len && b < a + a_len
}

// How many bytes of blocks stand within the image from `to.start` on without overlapping the message: more of them leave it or do.
pub(crate) fn block_room(to: Target, image: &[u8]) -> u64
    requires { message_in to.place image.now ≡ true }
    ensures { (L : ℕ) → blocks_out L to.start to.place image.now ≡ ltb result L }
{
    let room = (image.len() as u64).saturating_sub(to.start);
    if to.start < to.place + MESSAGE_LEN {
        return room.min(to.place.saturating_sub(to.start));
    }
    room
}

// Whether a region ends past `start` or meets the message.
fn is_in_the_way(addr: u64, len: u64, start: u64, place: u64) -> bool
    requires { (0 < len) × (addr + len ≤ top) × (place + 125 ≤ top) }
    ensures { result ≡ (ltb start (addr + len) || meets (region place 125) (region addr len)) }
{
    start < addr + len || meet(place, MESSAGE_LEN, addr, len)
}

// Whether some region of a list does.
fn in_the_way(run: &[u64], list: FreeList, start: u64, place: u64) -> bool
    requires { (is_list run.now list ≡ true) × (place + 125 ≤ top) }
    ensures { result ≡ in_the_way start place (regions run.now list) }
{
    for region in Regions::new(run, list.count) {
        if is_in_the_way(region.addr, region.size, start, place) {
            return true;
        }
    }
    false
}

// Whether some region of three lists does.
fn any_in_the_way(meta: &[u64], raw: &[u64], unclassified: &[u64], q: Request) -> bool
    requires lists { are_lists (lists_in meta.now raw.now unclassified.now q.lists) ≡ true }
    requires message { q.to.place + 125 ≤ top }
    ensures { result ≡ any_in_the_way q.to.start q.to.place
        (regions_in (lists_in meta.now raw.now unclassified.now q.lists)) }
{
    in_the_way(meta, q.lists.metadata, q.to.start, q.to.place)
        || in_the_way(raw, q.lists.raw, q.to.start, q.to.place)
        || in_the_way(unclassified, q.lists.unclassified, q.to.start, q.to.place)
}

// Refusals 5, 8, 9 and 13. A message that leaves the image is 13 and has no bytes for 8 and 9 to test.
pub(crate) fn test_early(
    meta: &[u64],
    raw: &[u64],
    unclassified: &[u64],
    q: Request,
    image: &[u8],
) -> Result<(), Refusal>
    requires lists { are_lists (lists_in meta.now raw.now unclassified.now q.lists) ≡ true }
    ensures { as_outcome result ≡ first_of
        (early_tests (regions_in (lists_in meta.now raw.now unclassified.now q.lists)) q.to.start q.to.place
        image.now) (answer tt) }
{
    check_lists(meta, raw, unclassified, q.lists)?;
    if !message_in(q.to.place, image) {
        return Err(Refusal::Place);
    }
    let at = q.to.place as usize;
    let version = image[at];
    if version != 1 {
        return Err(Refusal::MessageVersion(version));
    }
    let code = image[at + 1];
    if 3 < code {
        return Err(Refusal::Strategy(code));
    }
    if any_in_the_way(meta, raw, unclassified, q) {
        return Err(Refusal::Place);
    }
    Ok(())
}
