// List calls, the save of what they leave cut after some steps, and a fresh save of it over what the cut left.
ghost use Rattle.std.specs.Prelude.{◌≡◌};
ghost use Rattle.free_lists.specs.Lists.{lists_in};
ghost use Rattle.save.specs.Saving.{begun};
ghost use Rattle.end_to_end.specs.Encoding.{calls_of, runs_of, after_calls};
ghost use Rattle.end_to_end.specs.Anew.{stepped_after, stepped_by, anew_after, anew_by, EndsUncut};

use crate::calls::make_calls;
use error::Refusal;
use free_lists::FileLists;
use save::{Target, save_begin};
use save_step::{Save, save_steps};

// Begins a save and makes up to `k` steps of it. The record after them, or why it did not begin.
fn begin_and_step(
    meta: &[u64],
    raw: &[u64],
    unclassified: &[u64],
    lists: FileLists,
    to: Target,
    image: &mut [u8],
    scratch: &mut [u8],
    k: u64,
) -> Result<Save, Refusal>
    ensures { stepped_by result image.new scratch.new
        ≡ stepped_after k (begun (lists_in meta.now raw.now unclassified.now lists) to.page to.start to.place)
        image.old scratch.old }
{
    let s = save_begin(meta, raw, unclassified, lists, to, image, scratch)?;
    Ok(save_steps(s, image, scratch, k))
}

// The records of the lists after the calls, and what two saves of them came to: the record of the first, which was cut, after its
// steps, and that of the second, the fresh one, after all steps; or why it did not begin. Where the first did not begin, the second
// has its refusal.
// No Result of all: what is promised speaks of each, also where the first save did not begin.
#[derive(Clone, Copy, Debug, PartialEq, Eq)]
pub struct SavedAnew {
    pub lists: FileLists,
    pub first: Result<Save, Refusal>,
    pub second: Result<Save, Refusal>,
}

// Makes the calls that `calls` encodes on three lists that begin empty, begins a save of them, makes `k` steps of it, and
// begins it anew over what is there, with the scratch `other`. Of the fresh save all steps are made: those after the last
// store change nothing.
pub fn call_save_anew(
    calls: &[u64],
    metadata: &mut [u64],
    raw: &mut [u64],
    unclassified: &mut [u64],
    to: Target,
    image: &mut [u8],
    scratch: &mut [u8],
    other: &mut [u8],
    k: u64,
) -> SavedAnew
    ensures lists { lists_in metadata.new raw.new unclassified.new result.lists
        ≡ after_calls calls.now metadata.old raw.old unclassified.old }
    ensures anew { anew_by result image.new scratch.new other.new
        ≡ anew_after k (begun (after_calls calls.now metadata.old raw.old unclassified.old)
        to.page to.start to.place)
        image.old scratch.old other.old }
    ensures uncut { EndsUncut (runs_of metadata.old raw.old unclassified.old) (calls_of calls.now)
        to.page to.start to.place k image.old scratch.old other.old
        (anew_by result image.new scratch.new other.new) }
{
    let lists = make_calls(calls, metadata, raw, unclassified);
    let first = begin_and_step(metadata, raw, unclassified, lists, to, image, scratch, k);
    match first {
        Err(refusal) => SavedAnew {
            lists,
            first,
            second: Err(refusal),
        },
        Ok(_) => {
            let second = begin_and_step(
                metadata,
                raw,
                unclassified,
                lists,
                to,
                image,
                other,
                u64::MAX,
            );
            SavedAnew {
                lists,
                first,
                second,
            }
        }
    }
}
