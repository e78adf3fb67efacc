// The number of sizes that the sections of a source have, window by window.
ghost use Rattle.std.specs.Prelude.{◌≡◌, ◌≤◌, ◌<◌, length, take};
ghost use Rattle.error.specs.Outcome.{sat};
ghost use Rattle.fsm_sections.specs.Sections.{decode, of_size, distinct};
ghost use Rattle.fsm_sections.specs.Chains.{sections_of};
ghost use Rattle.fsm_sections.specs.Sources.{chains_in, sections_from};
ghost use Rattle.fsm_sizes.specs.Chained.{Cleared, Room, Stands, StandsBy};
ghost use Rattle.fsm_sizes.specs.Ordered.{Windowed};

use crate::{FEW, MANY, Span, nearer, note};
use fsm_sections::run::Rows;
use fsm_sections::{Part, Source};

// The sizes of a run's sections that lie in a window, put to the sizes that it has, if there is room for them.
fn gather_run(
    run: &[u64],
    count: usize,
    part: Part,
    page: u64,
    of: &mut [u64],
    link: &mut [u16],
    slot: &mut [u16],
    w: Span,
) -> Option<usize>
    requires room { Room of.old link.old slot.old × (w.from ≤ w.reach) × (w.found ≤ length of.old) }
    requires stands { Stands w.from w.reach (λ x. 0) (take w.found of.old) of.old link.old slot.old (length of.old) w.found }
    ensures { StandsBy w.from w.reach (λ x. of_size x (sections_of (chains_in part page (decode count run.now)))) (take w.found
        of.old) of.new link.new slot.new (length of.old) result }
{
    let mut found = w.found;
    for r in Rows::new(run, count, part, page) {
        found = note(of, link, slot, found, w.from, w.reach, r.size, r.count)?;
    }
    Some(found)
}

// The sizes of a source's sections that lie in a window, put to the sizes that it has, if there is room for them.
fn sweep(
    a: &[u64],
    b: &[u64],
    c: &[u64],
    s: Source,
    of: &mut [u64],
    link: &mut [u16],
    slot: &mut [u16],
    w: Span,
) -> Option<usize>
    requires room { Room of.old link.old slot.old × (w.from ≤ w.reach) × (w.found ≤ length of.old) }
    requires stands { Stands w.from w.reach (λ x. 0) (take w.found of.old) of.old link.old slot.old (length of.old) w.found }
    ensures { StandsBy w.from w.reach (λ x. of_size x (sections_from s a.now b.now c.now)) (take w.found
        of.old) of.new link.new slot.new (length of.old) result }
{
    let x = gather_run(a, s.na, s.pa, s.page, of, link, slot, w)?;
    let first = Span { found: x, ..w };
    let y = gather_run(b, s.nb, s.pb, s.page, of, link, slot, first)?;
    let second = Span { found: y, ..w };
    gather_run(c, s.nc, s.pc, s.page, of, link, slot, second)
}

// The sizes from `from` on up to as many as there is room for. No slot leads anywhere at first: arrays begin as zeros, and whoever goes on to
// the next window clears them.
pub(crate) fn window_of(
    a: &[u64],
    b: &[u64],
    c: &[u64],
    s: Source,
    of: &mut [u64],
    link: &mut [u16],
    slot: &mut [u16],
    from: u64,
) -> Span
    requires room { Room of.old link.old slot.old × Cleared slot.old }
    ensures { Windowed from (sections_from s a.now b.now c.now) of.new link.new
        slot.new (length of.old) result }
{
    let mut reach = u64::MAX;
    // No range counts the tries: each comes nearer until the window's sizes fit.
    loop {
        let none = Span {
            from,
            reach,
            found: 0,
        };
        if let Some(found) = sweep(a, b, c, s, of, link, slot, none) {
            return Span { found, ..none };
        }
        reach = nearer(of, from, reach);
        slot.fill(0);
    }
}

// How many sizes there are, window by window.
fn count_of(
    a: &[u64],
    b: &[u64],
    c: &[u64],
    s: Source,
    of: &mut [u64],
    link: &mut [u16],
    slot: &mut [u16],
) -> u64
    requires room { Room of.old link.old slot.old × Cleared slot.old }
    ensures { result ≡ sat (distinct (sections_from s a.now b.now c.now)) }
{
    let mut n: u64 = 0;
    let mut from: u64 = 0;
    // No range counts the windows: each says where the next one begins.
    loop {
        let w = window_of(a, b, c, s, of, link, slot, from);
        n = n.saturating_add(w.found as u64);
        if w.reach == u64::MAX {
            return n;
        }
        from = w.reach + 1;
        slot.fill(0);
    }
}

// The same by arrays for N sizes.
fn count_by<const N: usize>(a: &[u64], b: &[u64], c: &[u64], s: Source) -> u64
    requires { (0 < N) × (N < 65535) }
    ensures { result ≡ sat (distinct (sections_from s a.now b.now c.now)) }
{
    let mut of = [0_u64; N];
    let mut link = [0_u16; N];
    let mut slot = [0_u16; N];
    count_of(a, b, c, s, &mut of, &mut link, &mut slot)
}

// How many sizes the sections of a source have, at most 2^64 - 1. Pairs that a run does not have count nothing.
pub fn distinct_sizes(a: &[u64], b: &[u64], c: &[u64], s: Source) -> u64
    ensures { result ≡ sat (distinct (sections_from s a.now b.now c.now)) }
{
    // Arrays for few sizes take less time to make.
    if s.has_at_most(FEW) {
        count_by::<FEW>(a, b, c, s)
    } else {
        count_by::<MANY>(a, b, c, s)
    }
}
