// Sections cut at page boundaries, into a lent run of records.
#![tactic(auto)]

ghost use Rattle.std.specs.Prelude.{◌≡◌, ◌∷◌, ◌-◌, ◌*◌, ◌^◌, ◌≤◌, ◌<◌, false, length};
ghost use Rattle.error.specs.Answers.{as_outcome};
ghost use Rattle.error.specs.Lent.{left, leaving};
ghost use Rattle.fsm_sections.specs.Sections.{decode};
ghost use Rattle.fsm_sections.specs.Runs.{ends_above};
ghost use Rattle.split_records.specs.Records.{split_answer, split_records, pieces_left};

use error::Refusal;
use fsm_pages::pages::split_count;
use fsm_sections::FreeSection;

// How far the cutting is: `done` bytes of section `section`.
#[derive(Clone, Copy)]
struct Position {
    section: usize,
    done: u64,
}

// How many records the pieces take, or the refusal.
fn planned(sections: &[u64], count: usize, page: u64, room: usize) -> Result<usize, Refusal>
    requires { room < 2 ^ 64 - 1 }
    ensures { as_outcome result ≡ split_answer sections.now count page room }
{
    let needed = split_count(sections, count, page)?;
    let capacity = room as u64;
    if capacity < needed {
        return Err(Refusal::OverCapacity {
            needed,
            given: capacity,
        });
    }
    Ok(needed as usize)
}

// The next piece, and how far the cutting is then. A `while`: it passes over the sections that are
// done, and where it stops is answered.
fn next_piece(sections: &[u64], count: usize, page: u64, at: Position) -> (FreeSection, Position)
    requires { (0 < page) × (2 * count ≤ length sections.now) × (ends_above (decode count sections.now) ≡ false)
        × (0 < length (pieces_left page count sections.now at.section at.done)) }
    ensures { pieces_left page count sections.now at.section at.done
        ≡ result.0 ∷ pieces_left page count sections.now result.1.section result.1.done }
{
    let mut i = at.section;
    let mut d = at.done;
    while sections[2 * i + 1] <= d {
        i += 1;
        d = 0;
    }
    let a = sections[2 * i] + d;
    let z = (sections[2 * i + 1] - d).min(page - a % page);
    let piece = FreeSection { addr: a, size: z };
    let next = Position {
        section: i,
        done: d + z,
    };
    (piece, next)
}

// Cuts each section at every page multiple and puts the pieces into the records `out`. An empty section has none.
pub fn split_at_pages(
    sections: &[u64],
    count: usize,
    page: u64,
    out: &mut [FreeSection],
) -> Result<usize, Refusal>
    ensures { left (as_outcome result) out.new
        ≡ leaving out.old (split_records sections.now count page out.old) }
{
    let n = planned(sections, count, page, out.len())?;
    let mut at = Position {
        section: 0,
        done: 0,
    };
    for record in &mut out[..n] {
        let (piece, next) = next_piece(sections, count, page, at);
        *record = piece;
        at = next;
    }
    Ok(n)
}
