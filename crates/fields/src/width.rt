// Widths and lengths that follow from a number alone.
ghost use Rattle.std.specs.Prelude.{◌≡◌};
ghost use Rattle.error.specs.Answers.{as_outcome};
ghost use Rattle.fields.specs.Width.{valid_width, enc_size, fshd_len};

use error::Refusal;

// The fewest bytes that hold `value`, at least 1.
pub fn enc_size(value: u64) -> usize
    ensures { result ≡ enc_size value }
{
    let bits = 64 - value.leading_zeros();
    (bits.div_ceil(8) as usize).max(1)
}

// Whether an offset size or length size is within 1 to 8.
pub fn is_width(size: u8) -> bool
    ensures { result ≡ valid_width «size» }
{
    matches!(size, 1..=8)
}

// The length of an FSHD block at an offset size.
#[tactic(auto, unfolding(crate::specs::Width::fshd_len, error::specs::Outcome::first_of))]
pub fn fshd_len(offset_size: u8) -> Result<u64, Refusal>
    ensures { as_outcome result ≡ fshd_len offset_size }
{
    if !is_width(offset_size) {
        return Err(Refusal::Width);
    }
    Ok(74 + u64::from(offset_size))
}
