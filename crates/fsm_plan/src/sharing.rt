// Whether two sections of slot 6 have one address. Whole pages are not gone through one by one.
ghost use Rattle.std.specs.Prelude.{◌≡◌, ◌<◌, true, false, ltb};
ghost use Rattle.fsm_sections.specs.Chains.{chain, sections_in, sections_of, ChainFits};
ghost use Rattle.fsm_sections.specs.Sources.{chains_of, Given};
ghost use Rattle.fsm_sections.specs.Steps.{rest, CanGo};
ghost use Rattle.fsm_plan.specs.Order.{at_addr, repeats, Meet, Paging, Alike, Raised};

use fsm_sections::next::Chains;
use fsm_sections::{Chain, Source};

// Whether a section of a chain has an address.
fn holds(first: u64, step: u64, count: u64, addr: u64) -> bool
    ensures { result ≡ ltb 0 (at_addr addr (chain first step count)) }
{
    if count == 0 {
        return false;
    }
    if addr < first {
        return false;
    }
    let d = addr - first;
    if d == 0 {
        return true;
    }
    if step == 0 {
        return false;
    }
    if d % step != 0 {
        return false;
    }
    d / step < count
}

// Whether two chains share an address. If they do, one of them has the first address of the other.
fn shares(t: Chain, u: Chain) -> bool
    requires { Alike t u }
    ensures { Meet result (sections_in t) (sections_in u) }
{
    if t.count == 0 || u.count == 0 {
        return false;
    }
    holds(t.addr, t.size, t.count, u.addr) || holds(u.addr, u.size, u.count, t.addr)
}

// Whether a chain shares an address with one of those that are left after it.
fn meets(t: Chain, left: Chains) -> bool
    requires go { CanGo left }
    requires pages { Paging left.source.page t }
    ensures { Meet result (sections_in t) (rest left.entry) }
{
    for u in left {
        if shares(t, u) {
            return true;
        }
    }
    false
}

// Whether two sections have one address: each chain against all that are left.
fn clashes(all: Chains) -> bool
    requires { CanGo all }
    ensures { result ≡ repeats (rest all.entry) }
{
    let mut left = all;
    while let Some(t) = left.next() {
        if meets(t, left) {
            return true;
        }
    }
    false
}

// The floor after a chain that does not begin below it.
fn raised(floor: u64, t: Chain) -> Option<u64>
    requires { ChainFits t }
    ensures { Raised floor t result }
{
    if t.count == 0 {
        return Some(floor);
    }
    if t.addr < floor {
        return None;
    }
    let last = t.addr + (t.count - 1) * t.size;
    last.checked_add(1)
}

// Whether the chains, as they come, begin each above the one before. Then no two sections have one address.
fn ascends(all: Chains) -> bool
    requires { CanGo all }
    ensures { result ≡ true → repeats (rest all.entry) ≡ false }
{
    let mut floor: u64 = 0;
    for t in all {
        let Some(f) = raised(floor, t) else {
            return false;
        };
        floor = f;
    }
    true
}

// Whether two sections of a source have one address.
pub(crate) fn is_shared(a: &[u64], b: &[u64], c: &[u64], s: Source) -> bool
    requires { Given s a.now b.now c.now }
    ensures { result ≡ repeats (sections_of (chains_of s a.now b.now c.now)) }
{
    let all = Chains::new(a, b, c, s);
    !ascends(all) && clashes(all)
}
