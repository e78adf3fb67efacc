// Numbers in decimal.
ghost use Rattle.std.specs.Prelude.{◌≡◌, ◌+◌, length, set};
ghost use Rattle.error.specs.Lent.{over};
ghost use Rattle.text.specs.Decimal.{decimal};

// How many digits a number has.
// By hand: std prints to a writer or a String; here what passes the end of lent bytes is dropped.
pub(crate) fn digit_count(n: u64) -> usize
    ensures { result ≡ length (decimal n) }
{
    // This goes by what is left, as the definition of the digits does; a `for` would have no end to count to.
    let mut count = 1;
    let mut rest = n;
    while 9 < rest {
        rest /= 10;
        count += 1;
    }
    count
}

// Puts a byte at a place; past the end there is none to put it to.
fn put(out: &mut [u8], at: usize, i: usize, byte: u8)
    ensures { out.new ≡ set out.old (at + i) byte }
{
    if at < out.len() && i < out.len() - at {
        out[at + i] = byte;
    }
}

// Writes a number's digits at `at` and answers how many there are. What would pass the end is dropped.
pub(crate) fn write_decimal(out: &mut [u8], at: usize, n: u64) -> usize
    ensures { (result ≡ length (decimal n)) × (out.new ≡ over at (decimal n) out.old) }
{
    let count = digit_count(n);
    let mut rest = n;
    for i in (0..count).rev() {
        put(out, at, i, b'0' + (rest % 10) as u8);
        rest /= 10;
    }
    count
}
