// List calls, the save of what they leave cut after some steps, and the reading of what the cut leaves.
#![tactic(auto)]

pub mod anew;
pub mod calls;

ghost use Rattle.std.specs.Prelude.{◌≡◌};
ghost use Rattle.error.specs.Answers.{as_outcome};
ghost use Rattle.free_lists.specs.Lists.{lists_in};
ghost use Rattle.save.specs.Saving.{begun};
ghost use Rattle.image.specs.Answers.{image_outcome, counts_in};
ghost use Rattle.end_to_end.specs.Encoding.{calls_of, runs_of, after_calls};
ghost use Rattle.end_to_end.specs.Demanded.{Demanded};
ghost use Rattle.end_to_end.specs.Cuts.{cut_after, cut_by, begun_with, not_begun};

use crate::calls::make_calls;
use error::Refusal;
use file_space_info::NUM_FILE_FSM_MANAGERS;
use free_lists::FileLists;
use image::{ImageRead, read_image};
use save::{Target, save_begin};
use save_step::{Save, save_steps};

// The record after the steps, or why the save did not begin, and what the image then reads as. A save that did not begin
// is not read: the reading has its refusal.
// No Result of both: what is promised speaks of either, also where the save did not begin.
#[derive(Clone, Copy, Debug, PartialEq, Eq)]
pub struct Saved {
    pub begin: Result<Save, Refusal>,
    pub read: ImageRead,
}

fn not_begun(refusal: Refusal) -> Saved
    ensures { result ≡ not_begun refusal }
{
    Saved {
        begin: Err(refusal),
        read: ImageRead {
            answer: Err(refusal),
            counts: [0; NUM_FILE_FSM_MANAGERS],
        },
    }
}

// Makes `k` steps of a save that began, and reads the image at `place`.
fn step_and_read(
    begin: Result<Save, Refusal>,
    place: u64,
    image: &mut [u8],
    scratch: &[u8],
    k: u64,
    out: &mut [u64],
) -> Saved
    ensures cut { cut_by result image.new scratch.now out.new
        ≡ cut_after k place image.old scratch.now out.old (begun_with scratch.now (as_outcome begin)) }
    ensures counted { result.read.counts ≡ counts_in (image_outcome result.read) }
{
    match begin {
        Err(refusal) => not_begun(refusal),
        Ok(s) => {
            let begin = Ok(save_steps(s, image, scratch, k));
            let read = read_image(image, place, out);
            Saved { begin, read }
        }
    }
}

// The records of the lists after the calls, and what the save of them came to.
#[derive(Clone, Copy, Debug, PartialEq, Eq)]
pub struct AfterCalls {
    pub lists: FileLists,
    pub saved: Saved,
}

// Makes the calls that `calls` encodes on three lists that begin empty, begins a save of them, makes `k` steps of it, and
// reads the image.
pub fn call_save_read(
    calls: &[u64],
    metadata: &mut [u64],
    raw: &mut [u64],
    unclassified: &mut [u64],
    to: Target,
    image: &mut [u8],
    scratch: &mut [u8],
    k: u64,
    out: &mut [u64],
) -> AfterCalls
    ensures lists { lists_in metadata.new raw.new unclassified.new result.lists
        ≡ after_calls calls.now metadata.old raw.old unclassified.old }
    ensures cut { cut_by result.saved image.new scratch.new out.new
        ≡ cut_after k to.place image.old scratch.old out.old
        (begun (after_calls calls.now metadata.old raw.old unclassified.old)
        to.page to.start to.place image.old scratch.old) }
    ensures counted { result.saved.read.counts ≡ counts_in (image_outcome result.saved.read) }
    ensures demand { Demanded (runs_of metadata.old raw.old unclassified.old) (calls_of calls.now)
        to.page to.start to.place k image.old scratch.old out.old
        (cut_by result.saved image.new scratch.new out.new) }
{
    let lists = make_calls(calls, metadata, raw, unclassified);
    let begin = save_begin(metadata, raw, unclassified, lists, to, image, scratch);
    let saved = step_and_read(begin, to.place, image, scratch, k, out);
    AfterCalls { lists, saved }
}
