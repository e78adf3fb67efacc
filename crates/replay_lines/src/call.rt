// The name of a call: the first word of its line.
ghost use Rattle.std.specs.Prelude.{◌≡◌, ◌≢◌, EachIndex, slice_index, true};
ghost use Rattle.replay_lines.specs.Words.{is_call};

// Whether a call has this name.
pub fn is_call(line: &[u8], name: &[u8]) -> bool
    ensures { result ≡ is_call name.now line.now }
{
    match line.strip_prefix(name) {
        Some(rest) => rest.is_empty() || rest[0] == b' ',
        None => false,
    }
}

// The name of the call that a line is.
pub fn call_name(line: &[u8]) -> &[u8]
    ensures named { is_call result.now line.now ≡ true }
    ensures word { EachIndex result.now (λ k. slice_index result.now k ≢ 32) }
{
    for (i, byte) in line.iter().enumerate() {
        if *byte == b' ' {
            return &line[..i];
        }
    }
    line
}
