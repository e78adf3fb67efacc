// The offset size of a file's blocks, as the functions within the reader take it.
ghost use Rattle.std.specs.Prelude.{◌≡◌, true, false, not, MatchResult};
ghost use Rattle.error.specs.declared.Refusal.TheVariants.{Width};
ghost use Rattle.fields.specs.Width.{valid_width};

use error::Refusal;
use fields::width::is_width;

// An offset size that was tested: 1 to 8 bytes.
#[derive(Clone, Copy)]
pub(crate) struct OffsetSize {
    pub(crate) bytes: u8,
    ghost width: { not (valid_width bytes) ≡ false },
}

impl OffsetSize {
    // The offset size that a caller gives.
    pub(crate) fn new(bytes: u8) -> Result<OffsetSize, Refusal>
        ensures { MatchResult result (λ size. size.bytes ≡ bytes) (λ r. (r ≡ Width) × (not (valid_width bytes) ≡ true)) }
    {
        if !is_width(bytes) {
            return Err(Refusal::Width);
        }
        Ok(OffsetSize { bytes })
    }
}
