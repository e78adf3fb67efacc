// The length of a section list, by how many sections and how many sizes there are.
ghost use Rattle.std.specs.Prelude.{◌≡◌, ◌+◌, ◌*◌};
ghost use Rattle.error.specs.Answers.{as_outcome};
ghost use Rattle.fsm_sections.specs.Passes.{storable};
ghost use Rattle.fsm_blocks.specs.Settings.{starting_set, used_by};

use error::Refusal;
use fields::width::enc_size;

// n times w above `from`.
#[tactic(auto, unfolding(error::specs::Outcome::first_of, fsm_sections::specs::Passes::storable))]
fn add_times(from: u64, n: u64, w: u64) -> Result<u64, Refusal>
    ensures { as_outcome result ≡ storable (from + n * w) }
{
    let product = n.checked_mul(w).ok_or(Refusal::Overflow)?;
    from.checked_add(product).ok_or(Refusal::Overflow)
}

// The length of the section list of `count` sections of `sizes` sizes.
pub fn fsse_used(count: u64, sizes: u64, offset_size: u8) -> Result<u64, Refusal>
    ensures { as_outcome result ≡ storable (used_by offset_size (starting_set offset_size) count sizes) }
{
    let o = offset_size as u64;
    let cw = enc_size(count) as u64;
    let groups = add_times(9 + o, sizes, cw + 8)?;
    add_times(groups, count, o + 1)
}
