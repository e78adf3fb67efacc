// The groups of a section list: for each size a count, the size, and the entries.
ghost use Rattle.std.specs.Prelude.{◌≡◌, ◌+◌, ◌*◌, ◌≤◌, min, ltb, length, take, drop};
ghost use Rattle.error.specs.Answers.{as_outcome};
ghost use Rattle.error.specs.Lent.{over};
ghost use Rattle.fields.specs.Le.{le_value};
ghost use Rattle.fields.specs.Layout.{le_at};
ghost use Rattle.fsm_sections.specs.Sections.{flat, with_size};
ghost use Rattle.fsm_blocks.specs.Groups.{parse_groups};
ghost use Rattle.fsm_blocks.specs.Parts.{got, Accepted, counted, addresses, widths_in, Narrow, WidthsOf};

use crate::header::FsmHeader;
use error::Refusal;
use fields::bytes::read_uint_le;
use fields::width::enc_size;

// The number that eight bytes at `at` spell: one load.
fn eight_at(bytes: &[u8], at: usize) -> u64
    requires { at + 8 ≤ length bytes.now }
    ensures { result ≡ le_at at 8 bytes.now }
{
    let eight: [u8; 8] = bytes[at..at + 8].try_into().unwrap();
    u64::from_le_bytes(eight)
}

// The number that `width` bytes at `at` spell, as `read_uint_le` has it: eight bytes in one load.
pub fn number_at(bytes: &[u8], at: usize, width: usize) -> u64
    ensures { result ≡ le_value (take (min width 8) (drop at bytes.now)) }
{
    // One test after the other: with all in one condition, a loop over entries tests the width at each.
    if width != 8 {
        return read_uint_le(bytes, at, width);
    }
    if bytes.len() < 8 {
        return read_uint_le(bytes, at, width);
    }
    if bytes.len() - 8 < at {
        return read_uint_le(bytes, at, width);
    }
    eight_at(bytes, at)
}

// The number that `width` bytes at `at` spell. By a call: inlined, it would be too much for the compiler to take the test of the width
// out of the loop in `put_entries`.
#[inline(never)]
fn other_at(bytes: &[u8], at: usize, width: usize) -> u64
    requires { (width ≤ 8) × (at + width ≤ length bytes.now) }
    ensures { result ≡ le_at at width bytes.now }
{
    read_uint_le(bytes, at, width)
}

// The number that `width` bytes at `at` spell. Sizes and addresses mostly take eight bytes, and the counts of fewer than 65,536
// sections one or two.
fn field_at(bytes: &[u8], at: usize, width: usize) -> u64
    requires { (width ≤ 8) × (at + width ≤ length bytes.now) }
    ensures { result ≡ le_at at width bytes.now }
{
    match width {
        8 => eight_at(bytes, at),
        1 => u64::from(bytes[at]),
        2 => {
            let two: [u8; 2] = bytes[at..at + 2].try_into().unwrap();
            u64::from(u16::from_le_bytes(two))
        }
        _ => other_at(bytes, at, width),
    }
}

// The bytes that a group's count, its size and an address take.
#[derive(Clone, Copy)]
pub(crate) struct GroupWidths {
    counts: usize,
    sizes: usize,
    addresses: usize,
}

// The widths that a header gives.
pub(crate) fn widths_of(header: FsmHeader) -> GroupWidths
    requires { header.addr_space_bits ≤ 64 }
    ensures { WidthsOf header result }
{
    GroupWidths {
        counts: enc_size(header.total_sections),
        sizes: enc_size(header.max_section_size),
        addresses: ((header.addr_space_bits + 7) / 8) as usize,
    }
}

// Whether `count` entries take more than `room` bytes. Where the product may wrap, the quotient decides; std's checked_mul divides at
// each call, and this only there.
fn passes(room: u64, count: u64, entry: u64) -> bool
    requires { (1 ≤ entry) × (entry ≤ 9) }
    ensures { result ≡ ltb room (count * entry) }
{
    if count < 0x1_0000_0000 {
        return room < count * entry;
    }
    room / entry < count
}

// How many sections groups hold: `total`, or a refusal. The entries are passed over. A `while`, as each group says how far it reaches.
pub(crate) fn groups_count(groups: &[u8], w: GroupWidths, total: u64) -> Result<u64, Refusal>
    requires { Narrow w }
    ensures { as_outcome result ≡ counted (parse_groups (widths_in w) total groups.now) }
{
    let mut at = 0;
    let mut left = total;
    while 0 < left {
        let room = groups.len() - at;
        if room < w.counts + w.sizes {
            return Err(Refusal::InvalidManager);
        }
        let count = field_at(groups, at, w.counts);
        if left < count {
            return Err(Refusal::InvalidManager);
        }
        let rest = room - (w.counts + w.sizes);
        let entry = w.addresses + 1;
        if passes(rest as u64, count, entry as u64) {
            return Err(Refusal::InvalidManager);
        }
        at = at + (w.counts + w.sizes) + count as usize * entry;
        left -= count;
    }
    Ok(total)
}

// Puts `count` entries of one size into the run: by the place, as these are two runs with other steps, and without a test of it, as
// `put_pair` would make.
fn put_entries(
    groups: &[u8],
    at: usize,
    width: usize,
    count: usize,
    size: u64,
    out: &mut [u64],
    from: usize,
)
    requires { (width ≤ 8) × (at + count * (width + 1) ≤ length groups.now) × (from + 2 * count ≤ length out.old) }
    ensures { out.new ≡ over from (flat (with_size size (addresses width count (drop at groups.now)))) out.old }
{
    for i in 0..count {
        let addr = field_at(groups, at + i * (width + 1), width);
        out[from + 2 * i] = addr;
        out[from + 2 * i + 1] = size;
    }
}

// Puts the sections of accepted groups into the run. A `while`, as in `groups_count`.
pub(crate) fn put_groups(groups: &[u8], w: GroupWidths, total: u64, out: &mut [u64], from: usize)
    requires widths { Narrow w }
    requires accepted { Accepted (parse_groups (widths_in w) total groups.now) }
    requires room { from + 2 * total ≤ length out.old }
    ensures { out.new ≡ over from (flat (got (parse_groups (widths_in w) total groups.now))) out.old }
{
    let mut at = 0;
    let mut left = total;
    let mut k = from;
    while 0 < left {
        let count = field_at(groups, at, w.counts);
        let size = field_at(groups, at + w.counts, w.sizes);
        let first = at + (w.counts + w.sizes);
        let n = count as usize;
        put_entries(groups, first, w.addresses, n, size, out, k);
        at = first + n * (w.addresses + 1);
        k += 2 * n;
        left -= count;
    }
}
