// A part of a region as a chain of equal sections.
ghost use Rattle.std.specs.Prelude.{◌≡◌};
ghost use Rattle.fsm_sections.specs.Sections.{section};
ghost use Rattle.fsm_sections.specs.Sources.{one, PartIs};

use crate::{Chain, FreeSection, Part};
use numbers::{quotient, remainder};

// One section, or none where it would be empty.
fn one_chain(addr: u64, size: u64) -> Chain
    ensures { result ≡ one addr size }
{
    Chain {
        addr,
        size,
        count: u64::from(size != 0),
    }
}

// A part of a region. Of a region that ends above 2^64 - 1 only the sizes and their number are told.
pub fn part_chain(part: Part, page: u64, addr: u64, size: u64) -> Chain
    ensures { PartIs part page (section addr size) result }
{
    let region = FreeSection { addr, size };
    match part {
        Part::Head => one_chain(addr, region.head_size(page)),
        Part::Pages => {
            let head = region.head_size(page);
            Chain {
                addr: addr.wrapping_add(head),
                size: page,
                count: quotient(size - head, page),
            }
        }
        Part::Tail => {
            let left = remainder(size - region.head_size(page), page);
            one_chain(addr.wrapping_add(size - left), left)
        }
        Part::Whole => Chain {
            addr,
            size,
            count: 1,
        },
    }
}
