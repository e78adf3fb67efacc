// Numbers moved within a lent run.
ghost use Rattle.std.specs.Prelude.{◌≡◌};
ghost use Rattle.std.proofs.Math.Seq.{slice};
ghost use Rattle.error.specs.Lent.{over};

// Copies the numbers from `from` up to `end` to `to` and after, as the Rust's slices do. What the run does not have, and what would
// pass its end, is left out.
pub fn copy_within(run: &mut [u64], from: usize, end: usize, to: usize)
    ensures { run.new ≡ over to (slice from end run.old) run.old }
{
    let found = end.min(run.len()).saturating_sub(from);
    let n = found.min(run.len().saturating_sub(to));
    if n == 0 {
        return;
    }
    // Numbers that stay where they are, as where a region takes another's place, are not gone through.
    if to == from {
        return;
    }
    run.copy_within(from..from + n, to);
}
