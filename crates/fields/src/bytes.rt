// Numbers as bytes, least byte first, and the test that bytes are there.
ghost use Rattle.std.specs.Prelude.{◌≡◌, ◌-◌, min, length, take, drop};
ghost use Rattle.error.specs.Answers.{as_outcome};
ghost use Rattle.error.specs.Lent.{over};
ghost use Rattle.fields.specs.Le.{le_bytes, le_value};
ghost use Rattle.fields.specs.Ranges.{enough};

use error::Refusal;

// Whether `needed` bytes are readable at `offset`.
#[tactic(auto, unfolding(crate::specs::Ranges::enough, error::specs::Outcome::first_of, error::specs::Outcome::sat))]
pub fn ensure_len(data: &[u8], offset: usize, needed: usize) -> Result<(), Refusal>
    ensures { as_outcome result ≡ enough (length «data».now) offset needed }
{
    let available = data.len();
    let end = offset.saturating_add(needed);
    if available < end {
        return Err(Refusal::Short {
            expected: end as u64,
            available: available as u64,
        });
    }
    Ok(())
}

// How many of `width` places from `at` on a slice of `len` has.
fn places(len: usize, at: usize, width: usize) -> usize
    ensures { result ≡ min width (len - at) }
{
    width.min(len.saturating_sub(at))
}

// The number that the bytes at `at` spell, least byte first: `width` of them, at most eight. A place past the end has no byte.
// By the place: `at` may lie past the end, where no slice begins, and `width` need not be 8.
pub fn read_uint_le(bytes: &[u8], at: usize, width: usize) -> u64
    ensures { result ≡ le_value (take (min width 8) (drop at bytes.now)) }
{
    let n = places(bytes.len(), at, width.min(8));
    let mut v = 0;
    for i in (0..n).rev() {
        v = v * 256 + u64::from(bytes[at + i]);
    }
    v
}

// Writes the `width` low bytes of `value` at `at`, least byte first. What would pass the end is dropped.
// By the place, as in `read_uint_le`.
pub fn write_uint_le(out: &mut [u8], at: usize, value: u64, width: usize)
    ensures { out.new ≡ over at (le_bytes width value) out.old }
{
    let n = places(out.len(), at, width);
    let mut rest = value;
    for i in 0..n {
        out[at + i] = (rest % 256) as u8;
        rest /= 256;
    }
}
