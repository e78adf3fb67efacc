// The reading of an image at a place: its message, then its slots. Offset and length size are 8, the base is 0.
#![tactic(auto)]

ghost use Rattle.std.specs.Prelude.{◌≡◌, map, ◌≤◌, min, length, replicate};
ghost use Rattle.error.specs.Answers.{as_outcome};
ghost use Rattle.error.specs.Lent.{left, leaving, over};
ghost use Rattle.fsm_blocks.specs.declared.checks.Reading.TheVariants.{Loose, Strict};
ghost use Rattle.fsm_blocks.specs.Reading.{read_slots, persisted};
ghost use Rattle.file_space_info.specs.Message.{parsed};
ghost use Rattle.image.specs.Answers.{image_outcome, counts_in, refused_read};
ghost use Rattle.image.specs.Reading.{message_at, sections_in, read_into, image_into};

use error::Refusal;
use fields::address::BaseAddress;
use file_space_info::{FileSpaceInfo, MESSAGE_LEN, NUM_FILE_FSM_MANAGERS, Parsed};
use fsm_blocks::checks::Reading;
use fsm_blocks::manager::manager_count;
use fsm_blocks::persisted::{read_persisted_sections, read_persisted_sections_strict};

// What reading an image gives, with the number of sections in each slot. The counts stand beside the answer and not in it, because
// it is promised that they are all 0 where it is refused.
#[derive(Clone, Copy, Debug, PartialEq, Eq)]
pub struct ImageRead {
    pub answer: Result<(), Refusal>,
    pub counts: [u64; NUM_FILE_FSM_MANAGERS],
}

// Reads the at most 125 bytes of message at a place; there are none at or after the image's end.
fn read_message(image: &[u8], place: u64, slots: &mut [u64]) -> Result<Parsed, Refusal>
    ensures { left (as_outcome result) slots.new
        ≡ leaving slots.old (parsed (message_at place image.now) 8 8 slots.old) }
{
    let len = image.len() as u64;
    let start = place.min(len);
    let end = start + MESSAGE_LEN.min(len - start);
    let first = start as usize;
    let last = end as usize;
    FileSpaceInfo::parse(&image[first..last], 8, 8, slots)
}

// How many sections the manager has that a slot names; 0 where it cannot be read. Loosely: what was read strictly has as many,
// and its checksums are not computed again.
fn sections_in(image: &[u8], slot: u64) -> u64
    ensures { result ≡ sections_in image.now slot }
{
    manager_count(image, slot, BaseAddress(0), 8, Reading::Loose).unwrap_or(0)
}

// How many sections each slot has.
fn slot_counts(image: &[u8], slots: &[u64]) -> [u64; NUM_FILE_FSM_MANAGERS]
    requires { length slots.now ≤ 12 }
    ensures { result ≡ over 0 (map (sections_in image.now) slots.now) (replicate 12 0) }
{
    let mut counts = [0; NUM_FILE_FSM_MANAGERS];
    for (i, slot) in slots.iter().enumerate() {
        counts[i] = sections_in(image, *slot);
    }
    counts
}

fn refused(refusal: Refusal) -> ImageRead
    ensures { result ≡ refused_read refusal }
{
    ImageRead {
        answer: Err(refusal),
        counts: [0; NUM_FILE_FSM_MANAGERS],
    }
}

// The sections of the slots in the run `out`, by one of the two readings. A match and no closure: the proof is of both at once.
fn sections_by(
    image: &[u8],
    slots: &[u64],
    reading: Reading,
    out: &mut [u64],
) -> Result<u64, Refusal>
    ensures { left (as_outcome result) out.new
        ≡ leaving out.old (persisted reading slots.now 0 8 image.now out.old) }
{
    match reading {
        Reading::Loose => read_persisted_sections(image, slots, BaseAddress(0), 8, out),
        Reading::Strict => read_persisted_sections_strict(image, slots, BaseAddress(0), 8, out),
    }
}

// Reads the sections of the slots into the run `out`, and counts each slot's.
fn read_slots(image: &[u8], slots: &[u64], reading: Reading, out: &mut [u64]) -> ImageRead
    requires { length slots.now ≤ 12 }
    ensures read { left (image_outcome result) out.new
        ≡ leaving out.old (read_into out.old (read_slots reading 8 0 slots.now image.now)) }
    ensures counted { result.counts ≡ counts_in (image_outcome result) }
{
    match sections_by(image, slots, reading, out) {
        Ok(_) => ImageRead {
            answer: Ok(()),
            counts: slot_counts(image, slots),
        },
        Err(r) => refused(r),
    }
}

// The sections that the message at `place` names, by one of the two readings.
fn read_by(image: &[u8], place: u64, reading: Reading, out: &mut [u64]) -> ImageRead
    ensures read { left (image_outcome result) out.new
        ≡ leaving out.old (image_into reading place image.now out.old) }
    ensures counted { result.counts ≡ counts_in (image_outcome result) }
{
    if out.len() % 2 != 0 {
        return refused(Refusal::NotAList);
    }
    let mut slots = [0; NUM_FILE_FSM_MANAGERS];
    match read_message(image, place, &mut slots) {
        Ok(Parsed { count, .. }) => read_slots(image, &slots[..count], reading, out),
        Err(r) => refused(r),
    }
}

// Reads the sections that the message at `place` names into the run `out`, slot by slot. Versions, client, checksums and back
// addresses of the blocks are not tested.
pub fn read_image(image: &[u8], place: u64, out: &mut [u64]) -> ImageRead
    ensures read { left (image_outcome result) out.new
        ≡ leaving out.old (image_into Loose place image.now out.old) }
    ensures counted { result.counts ≡ counts_in (image_outcome result) }
{
    read_by(image, place, Reading::Loose, out)
}

// The same, but these are tested, each before its block is parsed.
pub fn read_image_strict(image: &[u8], place: u64, out: &mut [u64]) -> ImageRead
    ensures read { left (image_outcome result) out.new
        ≡ leaving out.old (image_into Strict place image.now out.old) }
    ensures counted { result.counts ≡ counts_in (image_outcome result) }
{
    read_by(image, place, Reading::Strict, out)
}
