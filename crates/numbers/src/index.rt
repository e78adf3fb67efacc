// Small arithmetic on places of a slice.
ghost use Rattle.std.specs.Prelude.{◌≡◌, ◌-◌, min};

pub fn min(a: usize, b: usize) -> usize
    ensures { result ≡ min a b }
{
    a.min(b)
}

// What is left of a place less another, 0 where that is more.
pub fn saturating_sub(a: usize, b: usize) -> usize
    ensures { result ≡ a - b }
{
    a.saturating_sub(b)
}
