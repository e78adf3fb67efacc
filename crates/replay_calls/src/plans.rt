// The call of the plan.
ghost use Rattle.std.specs.Prelude.{◌≤◌, length};

use crate::lines::{end_line, put_numbers, put_pairs};
use crate::memory::{NUMBERS, numbers_memory};
use crate::reply::{Answered, Failure, Reply};
use fsm_plan::Counts;
use fsm_plan::blocks::{PagedManagerBlock, PagedManagerPlan};
use fsm_plan::plan::plan_paged_managers;
use replay_lines::answer::put_number;
use text::words::write_bytes;

// A run of pairs at the front of numbers, after their count, and the numbers after the run.
fn split_run(args: &[u64]) -> Result<(&[u64], &[u64]), Failure> {
    let [count, rest @ ..] = args else {
        return Err(Failure::Bad);
    };
    let n = *count as usize;
    if rest.len() / 2 < n {
        return Err(Failure::Bad);
    }
    Ok(rest.split_at(2 * n))
}

// What stands after `n` pairs of a run: nothing where there are fewer.
fn after_pairs(run: &[u64], n: usize) -> &[u64] {
    if run.len() / 2 < n {
        return &[];
    }
    &run[2 * n..]
}

// Puts the block of a slot, whose sections begin the run; nothing for none.
fn put_block(block: PagedManagerBlock, sections: &[u64], out: &mut [u8], at: usize) -> usize {
    if block.count == 0 {
        return at;
    }
    let fields = [block.fshd_addr, block.fsse_addr, u64::from(block.class)];
    let to = put_numbers(out, at, &fields);
    put_pairs(out, to, sections, block.count as u64)
}

fn plan_line(plan: PagedManagerPlan, sections: &[u64], out: &mut [u8]) -> usize {
    let blocks = [plan.slot0, plan.slot2, plan.slot6];
    let mut at = write_bytes(out, 0, b"end ");
    at = put_number(out, at, plan.end_of_managers);
    at = write_bytes(out, at, b"slots ");
    at = put_numbers(out, at, &plan.slots());
    at = write_bytes(out, at, b"blocks ");
    let count = blocks.iter().filter(|block| block.count != 0).count();
    at = put_number(out, at, count as u64);
    let mut rest = sections;
    for block in blocks {
        at = put_block(block, rest, out, at);
        rest = after_pairs(rest, block.count);
    }
    end_line(out, at)
}

pub(crate) fn plan_call(args: &[u64], out: &mut [u8]) -> Answered {
    let [o, page, start, runs @ ..] = args else {
        return Err(Failure::Bad);
    };
    let o = u8::try_from(*o)?;
    let (meta, rest) = split_run(runs)?;
    let (raw, rest) = split_run(rest)?;
    let (unclassified, rest) = split_run(rest)?;
    if !rest.is_empty() {
        return Err(Failure::Bad);
    }
    let counts = Counts {
        meta: meta.len() / 2,
        raw: raw.len() / 2,
        unclassified: unclassified.len() / 2,
    };
    let mut sections = numbers_memory::<NUMBERS>();
    let plan = plan_paged_managers(
        meta,
        raw,
        unclassified,
        counts,
        *page,
        *start,
        o,
        &mut sections,
    )?;
    Ok(Reply::Text(plan_line(plan, &sections, out)))
}
