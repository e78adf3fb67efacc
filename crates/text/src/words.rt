// Words at a place inside a text, for crates that write whole texts: total like `write_uint_le`, so that what would pass the end of
// the lent bytes is dropped. Whether a whole text fits is its writer's to test.
ghost use Rattle.std.specs.Prelude.{◌≡◌, [], ◌∷◌, ◌+◌, min};
ghost use Rattle.error.specs.Lent.{with};
ghost use Rattle.text.specs.Text.{written, word};

use crate::decimal::write_decimal;

// The place after `count` bytes at `at`, at most the end.
fn place_after(at: usize, count: usize, len: usize) -> usize
    ensures { result ≡ min (at + count) len }
{
    at.saturating_add(count).min(len)
}

// Writes bytes at `at`, and answers the place after them.
pub fn write_bytes(out: &mut [u8], at: usize, bytes: &[u8]) -> usize
    ensures { with result out.new ≡ written at bytes.now out.old }
{
    let end = place_after(at, bytes.len(), out.len());
    if at < end {
        out[at..end].copy_from_slice(&bytes[..end - at]);
    }
    end
}

// Writes one byte: a call for bytes would copy a slice of one.
fn write_byte(out: &mut [u8], at: usize, byte: u8) -> usize
    ensures { with result out.new ≡ written at (byte ∷ []) out.old }
{
    if at < out.len() {
        out[at] = byte;
        return at + 1;
    }
    out.len()
}

// Writes a number in decimal and the byte that stands after it.
pub fn write_word(out: &mut [u8], at: usize, n: u64, stop: u8) -> usize
    ensures { with result out.new ≡ written at (word n stop) out.old }
{
    let count = write_decimal(out, at, n);
    let second = place_after(at, count, out.len());
    write_byte(out, second, stop)
}
