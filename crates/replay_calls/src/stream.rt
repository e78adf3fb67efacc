// Standard input, line by line, and an answer to each on standard output.
use crate::dispatch::answer_line;
use crate::lists::Lists;
use crate::memory::{INPUT, bytes_memory, input_memory};
use crate::reply::{Answered, Failure, Reply, say};
use std::io::{self, Read};
use streams::read_full;

// The bytes of the longest line.
const LINE_LIMIT: usize = 65536;

// The most lines that are answered, and the most chunks that one has.
const LIMIT: u64 = 1 << 40;

// The line that is read. Its memory has one byte more than the limit, so that a longer line is noticed; what passes it is dropped.
// Fixed memory with how much of it counts: no heap.
#[derive(Drop)]
struct Line {
    bytes: [u8; LINE_LIMIT + 1],
    len: usize,
}

impl Line {
    fn new() -> Line {
        Line {
            bytes: [0; LINE_LIMIT + 1],
            len: 0,
        }
    }

    fn push(&mut self, byte: u8) {
        let n = self.len;
        if n < self.bytes.len() {
            self.bytes[n] = byte;
            self.len = n + 1;
        }
    }

    fn text(&self) -> &[u8] {
        let n = self.len.min(LINE_LIMIT + 1);
        &self.bytes[..n]
    }
}

// The bytes that were read last, of which those from `at` up to `end` are not taken yet, and whether more may follow: once the input
// has ended it is not read again.
// Fixed memory with how much of it counts: no heap.
#[derive(Drop)]
struct Chunk {
    bytes: [u8; INPUT],
    at: usize,
    end: usize,
    more: bool,
}

impl Chunk {
    fn new() -> Chunk {
        Chunk {
            bytes: input_memory(),
            at: 0,
            end: 0,
            more: true,
        }
    }

    // Reads the next bytes if all are taken, and answers whether there are any.
    fn fill<R: Read>(&mut self, reader: &mut R) -> io::Result<bool> {
        if self.end <= self.at && self.more {
            self.end = read_full(reader, &mut self.bytes)?;
            self.at = 0;
            self.more = 0 < self.end;
        }
        Ok(self.at < self.end)
    }

    // Takes bytes up to the end of the line, and answers whether it ends here.
    fn take_line(&mut self, line: &mut Line) -> bool {
        let end = self.end.min(INPUT);
        for i in self.at..end {
            let byte = self.bytes[i];
            if byte == b'\n' {
                self.at = i + 1;
                return true;
            }
            line.push(byte);
        }
        self.at = end;
        false
    }
}

// Reads the next line, and answers whether there is one. The last may end with the input.
fn read_line<R: Read>(reader: &mut R, chunk: &mut Chunk, line: &mut Line) -> io::Result<bool> {
    line.len = 0;
    for _ in 0..LIMIT {
        if !chunk.fill(reader)? {
            break;
        }
        if chunk.take_line(line) {
            return Ok(true);
        }
    }
    Ok(0 < line.len)
}

// The answer to a line. An empty line and one from `#` have none.
fn answer(line: &[u8], lists: &mut Lists, out: &mut [u8]) -> Answered {
    match line {
        [] | [b'#', ..] => Ok(Reply::Silent),
        _ if LINE_LIMIT < line.len() => Err(Failure::Bad),
        _ => answer_line(line, lists, out),
    }
}

// Answers standard input.
pub fn run(rt: &(impl io::Input + Print)) -> io::Result<()> {
    let mut reader = rt.reader();
    let mut chunk = Chunk::new();
    let mut line = Line::new();
    let mut lists = Lists::new();
    let mut out = bytes_memory();
    for _ in 0..LIMIT {
        if !read_line(&mut reader, &mut chunk, &mut line)? {
            break;
        }
        let answered = answer(line.text(), &mut lists, &mut out);
        say(rt, answered, &mut out)?;
    }
    Ok(())
}
