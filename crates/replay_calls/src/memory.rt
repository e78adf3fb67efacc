// Memory that a call works in, and its sizes.
ghost use Rattle.std.specs.Prelude.{◌≡◌, length};

// The numbers of the longest line, each after a space, or the sections that a call gives.
pub(crate) const NUMBERS: usize = 32768;

// The numbers of a call that has few of them, and of most others: a lent run, and three numbers before it.
pub(crate) const FEW: usize = 16;

pub(crate) const SOME: usize = 8195;

// The bytes of blocks, data or scratch, or the longest answer: 16,384 sections of two numbers with twenty digits and a space each take
// less, and so do the digits of the blocks of as many sections, more than a line names.
pub(crate) const BYTES: usize = 1048576;

// The bytes that are read at once, or those that a line's bytes or image are.
pub(crate) const INPUT: usize = 65536;

// Zeros, made in a function of their own: where so long a literal stands in a longer body, the checker runs out of stack.
pub(crate) fn bytes_memory() -> [u8; BYTES]
    ensures { 1048576 ≡ length result }
{
    [0; BYTES]
}

pub(crate) fn input_memory() -> [u8; INPUT]
    ensures { 65536 ≡ length result }
{
    [0; INPUT]
}

// Memory for N numbers.
pub(crate) fn numbers_memory<const N: usize>() -> [u64; N]
    ensures { N ≡ length result }
{
    [0; N]
}
