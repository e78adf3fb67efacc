// Standard input, as the programs read it: into memory of a given length.
#![tactic(auto)]

ghost use Rattle.std.specs.Prelude.{◌≡◌, ◌<◌, ◌≤◌, length, take, IfOk};
ghost use Rattle.std.specs.Io.KnownBytes.{Consumes, IsAtEnd};

use std::io;
use std::io::Read;

// Reads until the memory is full or the input ends, and answers how many bytes are there.
pub fn read_full<R: Read>(reader: &mut R, memory: &mut [u8]) -> io::Result<usize>
    ensures in_bounds { IfOk result (λ n. n ≤ length memory.new) }
    ensures bytes { IfOk result (λ n. Consumes (R.remaining reader.old) (R.remaining reader.new) (take n memory.new)) }
    ensures end { IfOk result (λ n. n < length memory.new → IsAtEnd (R.remaining reader.new)) }
{
    // A read gives any number of bytes, and std's `Read` has no call that fills memory or stops at the end, so a `while` is plainer.
    let mut done = 0;
    while done < memory.len() {
        let n = reader.read(&mut memory[done..])?;
        if n == 0 {
            break;
        }
        done += n;
    }
    Ok(done)
}
