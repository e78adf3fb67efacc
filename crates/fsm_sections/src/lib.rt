// Free sections as a manager tracks them, and the chains of equal sections that region lists give.
#![tactic(auto)]

ghost use Rattle.std.specs.Prelude.{◌≡◌, ◌+◌, nat_le};
ghost use Rattle.error.specs.Answers.{as_outcome};
ghost use Rattle.fields.specs.Ranges.{sum};
ghost use Rattle.fsm_sections.specs.Sources.{head_size};

use error::Refusal;
use numbers::remainder;

pub mod next;
pub mod parts;
pub mod run;
pub mod wide;

// The address first, then the size: a host lends records of it.
#[repr(C)]
#[derive(Clone, Copy, Debug, PartialEq, Eq)]
pub struct FreeSection {
    pub addr: u64,
    pub size: u64,
}

impl FreeSection {
    // One past the last byte.
    #[tactic(auto, unfolding(fields::specs::Ranges::sum, error::specs::Outcome::first_of))]
    pub fn end(self) -> Result<u64, Refusal>
        ensures { as_outcome result ≡ sum self.addr self.size }
    {
        self.addr.checked_add(self.size).ok_or(Refusal::Overflow)
    }

    // How many of its bytes stand before the first page multiple: none where there is no page.
    pub fn head_size(self, page: u64) -> u64
        ensures { result ≡ head_size page self }
    {
        if page == 0 {
            return 0;
        }
        let over = remainder(self.addr, page);
        if over == 0 {
            return 0;
        }
        self.size.min(page - over)
    }
}

// `count` sections of one size, each where the one before ends.
#[derive(Clone, Copy, Debug, PartialEq, Eq)]
pub struct Chain {
    pub addr: u64,
    pub size: u64,
    pub count: u64,
}

// What of a region is meant: the piece before its first page multiple, its whole pages, the piece after its last page
// multiple, or all of it uncut.
#[derive(Clone, Copy, Debug, PartialEq, Eq)]
pub enum Part {
    Head,
    Pages,
    Tail,
    Whole,
}

// How many regions of each of three lent runs are meant, and which part of each region.
// Three counts and three parts by name: a public record, named in docs/STATEMENTS.md.
#[derive(Clone, Copy, Debug, PartialEq, Eq)]
pub struct Source {
    pub na: usize,
    pub pa: Part,
    pub nb: usize,
    pub pb: Part,
    pub nc: usize,
    pub pc: Part,
    pub page: u64,
}

impl Source {
    // Whether at most so many regions are meant.
    pub fn has_at_most(self, most: usize) -> bool
        ensures { result ≡ nat_le (self.na + self.nb + self.nc) most }
    {
        self.na <= most && self.nb <= most - self.na && self.nc <= most - self.na - self.nb
    }
}
