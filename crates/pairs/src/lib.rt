// Lent runs of pairs: an address and a length, an address and a length, and so on.
#![tactic(auto)]

ghost use Rattle.std.specs.Prelude.{◌≡◌, [], ◌∷◌, get_or};
ghost use Rattle.error.specs.Lent.{over};
ghost use Rattle.pairs.specs.Pairs.{is_run, pair_at, pair};

pub mod copy;

// FreeRegion and FreeSection have the same two numbers: public types, so that the one is not taken for the other.
#[derive(Clone, Copy, Debug, PartialEq, Eq)]
pub struct Pair {
    pub addr: u64,
    pub len: u64,
}

// Whether a run is of pairs and has room for `n` of them.
pub fn is_run(run: &[u64], n: usize) -> bool
    ensures { result ≡ is_run run.now n }
{
    run.len() % 2 == 0 && n <= run.len() / 2
}

// The number at a place of a run; 0 where it has none.
fn number_at(run: &[u64], at: usize) -> u64
    ensures { result ≡ get_or run.now at 0 }
{
    run.get(at).copied().unwrap_or(0)
}

// The i-th pair of a run. A number that the run does not have is 0.
pub fn pair_at(run: &[u64], i: usize) -> Pair
    ensures { result ≡ pair_at pair run.now i }
{
    let whole = run.len() / 2;
    if whole < i {
        return Pair { addr: 0, len: 0 };
    }
    let at = 2 * i;
    if i == whole {
        return Pair {
            addr: number_at(run, at),
            len: 0,
        };
    }
    Pair {
        addr: run[at],
        len: run[at + 1],
    }
}

// Writes a pair at a place of the run. What would pass the end is dropped.
pub fn put_pair(run: &mut [u64], at: usize, addr: u64, len: u64)
    ensures { run.new ≡ over at (addr ∷ len ∷ []) run.old }
{
    if at < run.len() {
        run[at] = addr;
        if at + 1 < run.len() {
            run[at + 1] = len;
        }
    }
}
