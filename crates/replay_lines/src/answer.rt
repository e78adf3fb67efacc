// The lines of short answers. What passes the end of the lent bytes is dropped.
ghost use Rattle.std.specs.Prelude.{◌≡◌, [], ◌∷◌, ◌++◌};
ghost use Rattle.error.specs.Answers.{as_outcome};
ghost use Rattle.error.specs.Lent.{with};
ghost use Rattle.text.specs.Text.{written, word};
ghost use Rattle.replay_lines.specs.Words.{numbers_line, refusal_text, bad_line, ok_line, none_line, checked_text};

use error::Refusal;
use text::words::{write_bytes, write_word};

// Puts a number and a space.
pub fn put_number(out: &mut [u8], at: usize, n: u64) -> usize
    ensures { with result out.new ≡ written at (word n 32) out.old }
{
    write_word(out, at, n, b' ')
}

// Puts numbers that end a line.
fn put_line(out: &mut [u8], at: usize, first: u64, rest: &[u64]) -> usize
    ensures { with result out.new ≡ written at (numbers_line first rest.now) out.old }
{
    let mut to = at;
    let mut last = first;
    for n in rest {
        to = write_word(out, to, last, b' ');
        last = *n;
    }
    write_word(out, to, last, b'\n')
}

// The line of a word and numbers.
fn line_after(out: &mut [u8], word: &[u8], first: u64, rest: &[u64]) -> usize
    ensures { with result out.new ≡ written 0 (word.now ++ numbers_line first rest.now) out.old }
{
    let at = write_bytes(out, 0, word);
    put_line(out, at, first, rest)
}

// The line of a refusal: its number, and its values.
pub fn refused(out: &mut [u8], refusal: Refusal) -> usize
    ensures { with result out.new ≡ written 0 (refusal_text refusal) out.old }
{
    let number = u64::from(refusal.number());
    match refusal {
        Refusal::Short {
            expected,
            available,
        } => line_after(out, b"err ", number, &[expected, available]),
        Refusal::MessageVersion(byte) | Refusal::Strategy(byte) | Refusal::VersionOrClient(byte) =>
            line_after(out, b"err ", number, &[u64::from(byte)]),
        Refusal::Checksum { stored, computed } => line_after(
            out,
            b"err ",
            number,
            &[u64::from(stored), u64::from(computed)],
        ),
        Refusal::OverCapacity { needed, given } => {
            line_after(out, b"err ", number, &[needed, given])
        }
        _ => line_after(out, b"err ", number, &[]),
    }
}

// The line of a call that breaks the protocol.
pub fn bad(out: &mut [u8]) -> usize
    ensures { with result out.new ≡ written 0 bad_line out.old }
{
    write_bytes(out, 0, b"bad\n")
}

pub fn done(out: &mut [u8]) -> usize
    ensures { with result out.new ≡ written 0 ok_line out.old }
{
    write_bytes(out, 0, b"ok\n")
}

pub fn nothing(out: &mut [u8]) -> usize
    ensures { with result out.new ≡ written 0 none_line out.old }
{
    write_bytes(out, 0, b"none\n")
}

// The line of a number.
pub fn number_line(out: &mut [u8], n: u64) -> usize
    ensures { with result out.new ≡ written 0 (word n 10) out.old }
{
    write_word(out, 0, n, b'\n')
}

pub fn checked_answer(out: &mut [u8], checked: Result<(), Refusal>) -> usize
    ensures { with result out.new ≡ written 0 (checked_text (as_outcome checked)) out.old }
{
    match checked {
        Ok(()) => done(out),
        Err(r) => refused(out, r),
    }
}

// The line of a word and a number.
pub fn word_line(out: &mut [u8], word: &[u8], n: u64) -> usize
    ensures { with result out.new ≡ written 0 (word.now ++ numbers_line n []) out.old }
{
    line_after(out, word, n, &[])
}

// The line of a word and two numbers.
pub fn pair_line(out: &mut [u8], word: &[u8], first: u64, second: u64) -> usize
    ensures { with result out.new ≡ written 0 (word.now ++ numbers_line first (second ∷ [])) out.old }
{
    line_after(out, word, first, &[second])
}
