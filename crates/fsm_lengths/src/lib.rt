// The length of a section list by the sizes of its sections alone.
#![tactic(auto)]

ghost use Rattle.std.specs.Prelude.{◌≡◌, ltb};
ghost use Rattle.error.specs.Answers.{as_outcome};
ghost use Rattle.fields.specs.Ranges.{top};
ghost use Rattle.fsm_sections.specs.Sections.{space, distinct};
ghost use Rattle.fsm_lengths.specs.Lengths.{unplaced, fsse_len};

use error::Refusal;
use fields::width::is_width;
use fsm_blocks::length::fsse_used;

// Whether the sizes add up above 2^64 - 1.
fn sum_overflows(sizes: &[u64]) -> bool
    ensures { result ≡ ltb top (space (unplaced sizes.now)) }
{
    let mut n: u64 = 0;
    for size in sizes {
        if u64::MAX - n < *size {
            return true;
        }
        n += *size;
    }
    false
}

// How many sizes there are, each counted where it stands last.
fn size_count(sizes: &[u64]) -> u64
    ensures { result ≡ distinct (unplaced sizes.now) }
{
    let mut n: u64 = 0;
    for (i, size) in sizes.iter().enumerate() {
        if !sizes[i + 1..].contains(size) {
            n += 1;
        }
    }
    n
}

// The length of the section list of sections of these sizes, which does not depend on where they stand.
pub fn fsse_len(sizes: &[u64], offset_size: u8) -> Result<u64, Refusal>
    ensures { as_outcome result ≡ fsse_len offset_size sizes.now }
{
    if !is_width(offset_size) {
        return Err(Refusal::Width);
    }
    if sum_overflows(sizes) {
        return Err(Refusal::Overflow);
    }
    fsse_used(sizes.len() as u64, size_count(sizes), offset_size)
}
