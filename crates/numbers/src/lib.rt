// Small arithmetic on 64-bit numbers: the lesser and the greater of two, sums and differences that stop at the ends, and division with a shift.
#![tactic(auto)]

ghost use Rattle.std.specs.Prelude.{◌≡◌, ◌+◌, ◌-◌, ◌/◌, ◌%◌, ◌^◌, ◌<◌, IfSome, min, max};
ghost use Rattle.error.specs.Outcome.{sat};

pub mod index;

// The greatest 64-bit number.
pub const MAX: u64 = u64::MAX;

pub fn min(a: u64, b: u64) -> u64
    ensures { result ≡ min a b }
{
    a.min(b)
}

pub fn max(a: u64, b: u64) -> u64
    ensures { result ≡ max a b }
{
    a.max(b)
}

// The sum of two numbers, at most 2^64 - 1.
#[tactic(auto, unfolding(error::specs::Outcome::sat))]
pub fn saturating_add(a: u64, b: u64) -> u64
    ensures { result ≡ sat (a + b) }
{
    a.saturating_add(b)
}

// What is left of a number less another, 0 where that is more.
pub fn saturating_sub(a: u64, b: u64) -> u64
    ensures { result ≡ a - b }
{
    a.saturating_sub(b)
}

// By how many bits a power of two shifts.
// The test is what is promised, that `1 << bits` is `by`; is_power_of_two says it by a count of ones.
fn shift_of(by: u64) -> Option<u32>
    ensures { IfSome result (λ bits. (bits < 64) × (2 ^ bits ≡ by)) }
{
    let bits = by.trailing_zeros();
    if bits < 64 && by == 1u64 << bits {
        Some(bits)
    } else {
        None
    }
}

// How often a number holds another. A power of two divides by a shift, which costs far less. Divided by 0 it is 0.
pub fn quotient(n: u64, by: u64) -> u64
    ensures { result ≡ n / by }
{
    match shift_of(by) {
        Some(bits) => n >> bits,
        None if by == 0 => 0,
        None => n / by,
    }
}

// What is left of a number that is divided. Divided by 0 it is the number.
pub fn remainder(n: u64, by: u64) -> u64
    ensures { result ≡ n % by }
{
    match shift_of(by) {
        Some(bits) => n - ((n >> bits) << bits),
        None if by == 0 => n,
        None => n % by,
    }
}
