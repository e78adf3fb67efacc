// The words of a call: its name, then numbers in decimal, then perhaps bytes in hexadecimal. One space stands before each but the
// name.
ghost use Rattle.std.specs.Prelude.{◌≡◌, ◌-◌, ◌*◌, ◌≤◌, length, IfOk};
ghost use Rattle.replay_lines.specs.Words.{spelled_by};

use crate::reply::Failure;

// The digit that a byte is.
fn digit_of(byte: u8) -> Result<u64, Failure>
    ensures { IfOk result (λ n. (n ≤ 9) × (n ≡ byte - 48)) }
{
    match byte {
        b'0'..=b'9' => Ok(u64::from(byte - b'0')),
        _ => Err(Failure::Bad),
    }
}

// The number that digits spell. Without a digit, or above 2^64 - 1, they spell nothing.
// By hand: std's `parse` takes a sign too.
fn number_of(word: &[u8]) -> Result<u64, Failure>
    ensures { IfOk result (λ n. n ≡ spelled_by 0 word.now) }
{
    if word.is_empty() {
        return Err(Failure::Bad);
    }
    let mut value: u64 = 0;
    for byte in word {
        let digit = digit_of(*byte)?;
        let tens = value.checked_mul(10).ok_or(Failure::Bad)?;
        value = tens.checked_add(digit).ok_or(Failure::Bad)?;
    }
    Ok(value)
}

// Reads the numbers of a call, and answers how many there are.
// The count is the answer, so it is kept beside the words.
pub(crate) fn read_numbers(line: &[u8], out: &mut [u64]) -> Result<usize, Failure>
    ensures { IfOk result (λ n. n ≤ length out.old) }
{
    let mut n = 0;
    for word in line.split(|byte| *byte == b' ').skip(1) {
        if out.len() <= n {
            return Err(Failure::Bad);
        }
        out[n] = number_of(word)?;
        n += 1;
    }
    Ok(n)
}

// The half byte that a hexadecimal digit is.
// By hand: std's `to_digit` takes capitals too.
fn half_of(byte: u8) -> Result<u8, Failure>
    ensures { IfOk result (λ n. n ≤ 15) }
{
    match byte {
        b'0'..=b'9' => Ok(byte - b'0'),
        b'a'..=b'f' => Ok(byte - b'a' + 10),
        _ => Err(Failure::Bad),
    }
}

// Reads the bytes of a word in hexadecimal, and answers how many there are; `-` stands for none.
fn read_bytes(word: &[u8], out: &mut [u8]) -> Result<usize, Failure>
    ensures { IfOk result (λ n. n ≤ length out.old) }
{
    if matches!(word, b"-") {
        return Ok(0);
    }
    let n = word.len() / 2;
    if word.len() % 2 != 0 || out.len() < n {
        return Err(Failure::Bad);
    }
    for (byte, digits) in out.iter_mut().zip(word.chunks_exact(2)) {
        *byte = half_of(digits[0])? * 16 + half_of(digits[1])?;
    }
    Ok(n)
}

// How many numbers and bytes a call has.
#[derive(Clone, Copy)]
pub(crate) struct Words {
    pub(crate) numbers: usize,
    pub(crate) bytes: usize,
}

// Reads the numbers of a call, and the bytes of its last word.
pub(crate) fn read_words(
    line: &[u8],
    numbers: &mut [u64],
    bytes: &mut [u8],
) -> Result<Words, Failure>
    ensures { IfOk result (λ w. (w.numbers ≤ length numbers.old) × (w.bytes ≤ length bytes.old)) }
{
    let last = line
        .iter()
        .rposition(|byte| *byte == b' ')
        .ok_or(Failure::Bad)?;
    Ok(Words {
        numbers: read_numbers(&line[..last], numbers)?,
        bytes: read_bytes(&line[last + 1..], bytes)?,
    })
}

// How many pairs a run has, if it has as many as it should.
pub(crate) fn pairs_in(run: &[u64], count: u64) -> Result<usize, Failure> {
    let n = run.len() / 2;
    if run.len() % 2 != 0 || n as u64 != count {
        return Err(Failure::Bad);
    }
    Ok(n)
}
