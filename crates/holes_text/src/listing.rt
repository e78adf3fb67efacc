// The text of a listing of sections, and of a refusal.
ghost use Rattle.std.specs.Prelude.{◌≡◌, ◌+◌, ◌*◌, ◌≤◌, min, length};
ghost use Rattle.error.specs.Lent.{with};
ghost use Rattle.fsm_sections.specs.Sections.{section, decode};
ghost use Rattle.text.specs.Text.{written};
ghost use Rattle.holes_text.specs.Listing.{row_text, slot_text, slots_of, listing_text, refused_text};

use text::words::{write_bytes, write_word};

// Writes a section's line.
fn write_row(out: &mut [u8], at: usize, slot: u64, addr: u64, size: u64) -> usize
    ensures { with result out.new ≡ written at (row_text slot (section addr size)) out.old }
{
    let second = write_word(out, at, slot, b' ');
    let third = write_word(out, second, addr, b' ');
    write_word(out, third, size, b'\n')
}

// Writes the lines of a slot's sections: the first `count` pairs of the run, or all if it has fewer.
fn write_slot(out: &mut [u8], at: usize, slot: u64, run: &[u64], count: u64) -> usize
    requires { at ≤ length out.old }
    ensures { with result out.new ≡ written at (slot_text slot (decode count run.now)) out.old }
{
    let n = count.min((run.len() / 2) as u64) as usize;
    // By the pair's place, as the definition's lines go; with `chunks_exact(2)` the count would have to be cut as well.
    let mut to = at;
    for i in 0..n {
        to = write_row(out, to, slot, run[2 * i], run[2 * i + 1]);
    }
    to
}

// The place after `count` pairs of a run, at most its end.
fn after_pairs(from: usize, count: u64, len: usize) -> usize
    requires { from ≤ len }
    ensures { result ≡ min (from + 2 * count) len }
{
    let end = (from as u64).saturating_add(count.saturating_mul(2));
    end.min(len as u64) as usize
}

// Writes the line of names and a line for each section: slot i has the next `counts[i]` pairs of the run. Answers how many
// bytes of `out` it wrote; what would pass the end is dropped.
pub(crate) fn write_listing(counts: &[u64], run: &[u64], out: &mut [u8]) -> usize
    ensures { with result out.new ≡ written 0 (listing_text (slots_of counts.now run.now)) out.old }
{
    let mut to = write_bytes(out, 0, b"slot address size\n");
    let mut from = 0;
    for (slot, count) in counts.iter().enumerate() {
        to = write_slot(out, to, slot as u64, &run[from..], *count);
        from = after_pairs(from, *count, run.len());
    }
    to
}

// Writes the two lines of a refusal.
pub(crate) fn write_refusal(number: u8, out: &mut [u8]) -> usize
    ensures { with result out.new ≡ written 0 (refused_text number) out.old }
{
    let second = write_bytes(out, 0, b"refused\n");
    write_word(out, second, u64::from(number), b'\n')
}
