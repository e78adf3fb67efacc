// The words of a long answer. Each is followed by a space, and the last space of a line becomes its end. What passes the end of the
// lent bytes is dropped.
ghost use Rattle.std.specs.Prelude.{◌≡◌, ◌<◌};
ghost use Rattle.error.specs.Lent.{with};
ghost use Rattle.text.specs.Text.{written};
ghost use Rattle.replay_lines.specs.Words.{half_digit, hex_byte};

use replay_lines::answer::put_number;
use text::words::write_bytes;

// Puts the numbers of a run.
pub(crate) fn put_numbers(out: &mut [u8], at: usize, run: &[u64]) -> usize {
    let mut to = at;
    for n in run {
        to = put_number(out, to, *n);
    }
    to
}

// The hexadecimal digit of a half byte.
#[tactic(auto, unfolding(replay_lines::specs::Words::half_digit))]
fn half_digit(n: u8) -> u8
    requires { n < 16 }
    ensures { result ≡ half_digit n }
{
    if n < 10 { b'0' + n } else { b'a' + (n - 10) }
}

// Puts a byte's two digits.
fn put_byte(out: &mut [u8], at: usize, byte: u8) -> usize
    ensures { with result out.new ≡ written at (hex_byte byte) out.old }
{
    write_bytes(out, at, &[half_digit(byte / 16), half_digit(byte % 16)])
}

// Puts bytes in hexadecimal; `-` stands for none.
pub(crate) fn put_bytes(out: &mut [u8], at: usize, bytes: &[u8]) -> usize {
    if bytes.is_empty() {
        return write_bytes(out, at, b"- ");
    }
    let mut to = at;
    for byte in bytes {
        to = put_byte(out, to, *byte);
    }
    write_bytes(out, to, b" ")
}

// Ends the line: the space after its last word becomes a newline.
pub(crate) fn end_line(out: &mut [u8], at: usize) -> usize {
    if 0 < at && at <= out.len() {
        out[at - 1] = b'\n';
    }
    at.min(out.len())
}

// Puts a count and as many numbers of a run, or all if it has fewer.
// Beside `put_pairs`: the count is of numbers here, of pairs there.
pub(crate) fn put_counted(out: &mut [u8], at: usize, run: &[u64], count: u64) -> usize {
    let n = run.len().min(count as usize);
    let to = put_number(out, at, count);
    put_numbers(out, to, &run[..n])
}

// Puts a count and as many pairs of a run, or all if it has fewer.
pub(crate) fn put_pairs(out: &mut [u8], at: usize, run: &[u64], count: u64) -> usize {
    let n = (run.len() / 2).min(count as usize);
    let to = put_number(out, at, count);
    put_numbers(out, to, &run[..2 * n])
}

// The line of a count and as many pairs of a run, after what stands before `at`.
pub(crate) fn pairs_line(out: &mut [u8], at: usize, run: &[u64], count: u64) -> usize {
    let to = put_pairs(out, at, run, count);
    end_line(out, to)
}

// Puts the first `count` bytes, or all if there are fewer.
pub(crate) fn put_first(out: &mut [u8], at: usize, bytes: &[u8], count: u64) -> usize {
    let n = bytes.len().min(count as usize);
    put_bytes(out, at, &bytes[..n])
}
