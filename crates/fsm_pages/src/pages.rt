// Sections cut at page boundaries.
ghost use Rattle.std.specs.Prelude.{◌≡◌, false, [], ◌∷◌, ◌+◌, ◌-◌, ◌*◌, ◌/◌, ◌%◌, ◌^◌, ◌≤◌, ◌<◌, length};
ghost use Rattle.error.specs.Answers.{as_outcome};
ghost use Rattle.error.specs.declared.Refusal.TheVariants.{Overflow};
ghost use Rattle.error.specs.Lent.{left, leaving, over};
ghost use Rattle.error.specs.Outcome.{answer, when, first_of, sat};
ghost use Rattle.fsm_sections.specs.Sections.{section, decode, flat};
ghost use Rattle.fsm_sections.specs.Pages.{pieces, split};
ghost use Rattle.fsm_sections.specs.Runs.{ends_above};
ghost use Rattle.fsm_pages.specs.Split.{split_count, split_into};

use error::Refusal;
use fsm_sections::run::Regions;
use numbers::{quotient, remainder};
use pairs::is_run;

// How many bytes there are from an address up to the next page multiple.
fn room_in(page: u64, addr: u64) -> u64
    requires { 0 < page }
    ensures { result ≡ page - addr % page }
{
    page - remainder(addr, page)
}

// How many pieces all sections have, at most 2^64 - 1: one of each that is not empty, and those after the first page multiple.
// A run and a count, as the public functions take them; `Regions::new` cuts the run.
fn pieces_in(sections: &[u64], count: usize, page: u64) -> Result<u64, Refusal>
    requires page { 0 < page }
    ensures { as_outcome result ≡ first_of (when (ends_above (decode count sections.now)) Overflow ∷ [])
        (answer (sat (length (split page (decode count sections.now))))) }
{
    let mut some: u64 = 0;
    let mut more: u64 = 0;
    for region in Regions::new(sections, count) {
        let addr = region.addr;
        let size = region.size;
        if u64::MAX - size < addr {
            return Err(Refusal::Overflow);
        }
        let room = room_in(page, addr);
        if room < size {
            more = more.saturating_add(1 + quotient(size - room - 1, page));
        }
        if size != 0 {
            some += 1;
        }
    }
    Ok(some.saturating_add(more))
}

// How many pieces sections have, at most 2^64 - 1: counted in closed form, section by section.
pub fn split_count(sections: &[u64], count: usize, page: u64) -> Result<u64, Refusal>
    ensures { as_outcome result ≡ split_count sections.now count page }
{
    if page == 0 {
        return Err(Refusal::Page);
    }
    if !is_run(sections, count) {
        return Err(Refusal::NotAList);
    }
    pieces_in(sections, count, page)
}

// Puts the pieces of a section into the run, and gives the place after them. A `while`, as the first and the last piece are shorter
// than a page; the places are written here, as `put_pair` would test its bounds for each piece.
fn put_pieces(page: u64, addr: u64, size: u64, out: &mut [u64], from: usize) -> usize
    requires fits { (0 < page) × (addr + size < 2 ^ 64) }
    requires room { from + 2 * length (pieces page (section addr size)) ≤ length out.old }
    ensures put { out.new ≡ over from (flat (pieces page (section addr size))) out.old }
    ensures next { result ≡ from + 2 * length (pieces page (section addr size)) }
{
    let mut a = addr;
    let mut left = size;
    let mut room = room_in(page, addr);
    let mut k = from;
    while room < left {
        out[k] = a;
        out[k + 1] = room;
        a += room;
        left -= room;
        k += 2;
        room = page;
    }
    if left == 0 {
        return k;
    }
    out[k] = a;
    out[k + 1] = left;
    k + 2
}

// Puts the pieces of all sections into the run.
fn put_split(sections: &[u64], count: usize, page: u64, out: &mut [u64])
    requires page { 0 < page }
    requires fits { ends_above (decode count sections.now) ≡ false }
    requires room { 2 * length (split page (decode count sections.now)) ≤ length out.old }
    ensures { out.new ≡ over 0 (flat (split page (decode count sections.now))) out.old }
{
    let mut k = 0;
    for region in Regions::new(sections, count) {
        k = put_pieces(page, region.addr, region.size, out, k);
    }
}

// Cuts each section at every page multiple and puts the pieces into the run `out`. An empty section has none.
pub fn split_at_pages(
    sections: &[u64],
    count: usize,
    page: u64,
    out: &mut [u64],
) -> Result<usize, Refusal>
    ensures { left (as_outcome result) out.new ≡ leaving out.old (split_into sections.now count page out.old) }
{
    if page == 0 {
        return Err(Refusal::Page);
    }
    if out.len() % 2 != 0 {
        return Err(Refusal::NotAList);
    }
    let needed = split_count(sections, count, page)?;
    let capacity = (out.len() / 2) as u64;
    if capacity < needed {
        return Err(Refusal::OverCapacity {
            needed,
            given: capacity,
        });
    }
    put_split(sections, count, page, out);
    Ok(needed as usize)
}
