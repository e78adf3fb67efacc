// Addresses that do not fit an offset size.
ghost use Rattle.std.specs.Prelude.{◌≡◌};
ghost use Rattle.fsm_sections.specs.Sections.{decode};
ghost use Rattle.fsm_sections.specs.Runs.{wide, any_wide};

use crate::run::Regions;
use fields::width::enc_size;

// Whether an address does not fit o bytes.
pub fn is_wide(addr: u64, o: usize) -> bool
    ensures { result ≡ wide o addr }
{
    // A number takes one byte at least.
    if o == 0 {
        addr != 0
    } else {
        o < enc_size(addr)
    }
}

// Whether some section's address does not. Pairs that the run does not have are not there.
pub fn any_wide(sections: &[u64], count: usize, o: usize) -> bool
    ensures { result ≡ any_wide o (decode count sections.now) }
{
    Regions::new(sections, count).any(|region| is_wide(region.addr, o))
}
