// The stores of a save, one a step. A save that is cut has made the first of them, in their order.
#![tactic(auto)]

ghost use Rattle.std.specs.Prelude.{◌≡◌, ◌+◌, ◌<◌, length, ltb};
ghost use Rattle.error.specs.Answers.{as_outcome};
ghost use Rattle.error.specs.Lent.{left, leaving};
ghost use Rattle.fields.specs.Ranges.{top};
ghost use Rattle.save_step.specs.Steps.{stores, all_made, leaves, Inside, next_store, stepped, saving, steps};

use error::Refusal;
use file_space_info::MESSAGE_LEN;

// Which byte of the message is persist.
const PERSIST: usize = 2;
// How many stores a save has beside those of its blocks.
const MESSAGE_STORES: u64 = MESSAGE_LEN + 1;

// The record of a save: its blocks go to `start` and its message to `place`; `len` is the length of the blocks, `done`
// the number of the stores that are made.
#[derive(Clone, Copy, Debug, PartialEq, Eq)]
pub struct Save {
    pub start: u64,
    pub place: u64,
    pub len: u64,
    pub done: u64,
}

// No Option<Save>: None would not say that all stores are made.
#[derive(Clone, Copy, Debug, PartialEq, Eq)]
pub enum Progress {
    // A store was made; the record after it.
    Stored(Save),
    // All stores were made before.
    Finished,
}

// A byte and the place in the image that it goes to.
#[derive(Clone, Copy, Debug, PartialEq, Eq)]
pub struct Store {
    pub place: usize,
    pub byte: u8,
}

// Whether `n` bytes from `from` on pass `end`.
fn passes(from: u64, n: u64, end: usize) -> bool
    ensures { result ≡ ltb end (from + n) }
{
    let end = end as u64;
    end < n || end - n < from
}

// Whether all stores are made.
fn is_finished(s: Save) -> bool
    ensures { result ≡ all_made s }
{
    MESSAGE_STORES <= s.done && s.len <= s.done - MESSAGE_STORES
}

// Whether message or blocks leave an image of a length, or a scratch of a length lacks bytes of them.
fn leaves_lent(s: Save, image: usize, scratch: usize) -> bool
    ensures { result ≡ leaves s image scratch }
{
    passes(s.place, MESSAGE_LEN, image)
        || passes(s.len, MESSAGE_LEN, scratch)
        || (0 < s.len && passes(s.start, s.len, image))
}

// Store number `done`. The scratch has the blocks and after them the message; persist is left out of the message's bytes,
// so those after it come one store earlier.
fn next_store(s: Save, scratch: &[u8]) -> Store
    requires inside { Inside s top (length scratch.now) }
    requires number { s.done < stores s.len }
    ensures { result ≡ next_store s scratch.now }
{
    let place = s.place as usize;
    let len = s.len as usize;
    let done = s.done as usize;
    if done == 0 {
        return Store {
            place: place + PERSIST,
            byte: 0,
        };
    }
    let i = done - 1;
    if i < len {
        return Store {
            place: s.start as usize + i,
            byte: scratch[i],
        };
    }
    let j = i - len;
    if j < PERSIST {
        return Store {
            place: place + j,
            byte: scratch[len + j],
        };
    }
    if j < 124 {
        return Store {
            place: place + 1 + j,
            byte: scratch[len + 1 + j],
        };
    }
    Store {
        place: place + PERSIST,
        byte: 1,
    }
}

// Makes the next store of a save.
pub fn save_step(s: Save, image: &mut [u8], scratch: &[u8]) -> Result<Progress, Refusal>
    ensures { left (as_outcome result) image.new ≡ leaving image.old (stepped s image.old scratch.now) }
{
    if is_finished(s) {
        return Ok(Progress::Finished);
    }
    if leaves_lent(s, image.len(), scratch.len()) {
        return Err(Refusal::Place);
    }
    let Store { place, byte } = next_store(s, scratch);
    image[place] = byte;
    Ok(Progress::Stored(Save {
        done: s.done + 1,
        ..s
    }))
}

// Makes `k` steps. The record after them. A step that makes no store would make none again, so the first such one ends them.
pub fn save_steps(s: Save, image: &mut [u8], scratch: &[u8], k: u64) -> Save
    ensures { saving result image.new ≡ steps k scratch.now (saving s image.old) }
{
    let mut c = s;
    for _made in 0..k {
        // Tried by `let Ok(Progress::Stored(next)) = .. else`, whose proof did not close: the else arm does not say what the answer was.
        match save_step(c, image, scratch) {
            Ok(Progress::Stored(next)) => c = next,
            Ok(Progress::Finished) => return c,
            Err(_) => return c,
        }
    }
    c
}
