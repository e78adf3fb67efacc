// Ranges and addresses of 64-bit numbers.
ghost use Rattle.std.specs.Prelude.{◌≡◌};
ghost use Rattle.error.specs.Answers.{as_outcome};
ghost use Rattle.error.specs.Outcome.{sat};
ghost use Rattle.fields.specs.Ranges.{range, undefined_addr, undefined_at, aligned_up};

use error::Refusal;

// The undefined address of 8 bytes.
pub const UNDEF: u64 = u64::MAX;

// The places from `start` up to `end`. std's Range is no `Copy`.
#[derive(Clone, Copy, Debug, PartialEq, Eq)]
pub struct SliceRange {
    pub start: u64,
    pub end: u64,
}

// The range of `len` places from `offset` on.
#[tactic(auto, unfolding(crate::specs::Ranges::range, error::specs::Outcome::first_of))]
pub fn slice_range(offset: u64, len: u64) -> Result<SliceRange, Refusal>
    ensures { as_outcome result ≡ range offset len }
{
    let end = offset.checked_add(len).ok_or(Refusal::Overflow)?;
    Ok(SliceRange { start: offset, end })
}

// The undefined address of an offset size: all bits of so many bytes, at most of 8, are one.
pub fn undefined_addr(offset_size: u8) -> u64
    ensures { result ≡ sat (undefined_addr offset_size) }
{
    if 8 <= offset_size {
        return UNDEF;
    }
    (1u64 << (8 * offset_size)) - 1
}

// Whether `addr` is the undefined address at offset size 2, 4 or 8; at the other sizes the Rust knows none.
#[tactic(auto, unfolding(crate::specs::Ranges::undefined_at, error::specs::Outcome::first_of))]
pub fn is_undefined_addr(addr: u64, offset_size: u8) -> Result<bool, Refusal>
    ensures { as_outcome result ≡ undefined_at addr offset_size }
{
    match offset_size {
        0 | 9.. => Err(Refusal::Width),
        2 => Ok(addr == 0xFFFF),
        4 => Ok(addr == 0xFFFF_FFFF),
        8 => Ok(addr == UNDEF),
        _ => Ok(false),
    }
}

// The first multiple of `page` at or after `value`.
#[tactic(auto, unfolding(crate::specs::Ranges::aligned_up, error::specs::Outcome::first_of), using(crate::proofs::RangeLaws::next_first))]
pub fn align_up(value: u64, page: u64) -> Result<u64, Refusal>
    ensures { as_outcome result ≡ aligned_up value page }
{
    if page == 0 {
        return Err(Refusal::Page);
    }
    value
        .checked_next_multiple_of(page)
        .ok_or(Refusal::Overflow)
}
