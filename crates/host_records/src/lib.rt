// `split_at_pages` over records through the C interface, for the host test that lends records (host/main.rs). The library exports
// it nowhere.
#![tactic(auto)]

ghost use Rattle.std.specs.Prelude.{◌≡◌};
ghost use Rattle.error.specs.Answers.{as_outcome};
ghost use Rattle.error.specs.Lent.{leaving, with};
ghost use Rattle.split_records.specs.Records.{split_records};
ghost use Rattle.host_records.specs.Shown.{shown, left_shown};

use error::Refusal;
use fsm_sections::FreeSection;
use split_records::split_at_pages;

// The number that C sees of an answer.
fn shown_number(s: Result<usize, Refusal>) -> usize
    ensures { result ≡ shown (as_outcome s) }
{
    match s {
        Ok(n) => n,
        Err(r) => usize::MAX - usize::from(r.number()),
    }
}

// Cuts sections at pages into records: answers how many pieces there are, or all ones less the refusal's number. A lent run of
// records holds fewer than 2^60, so no number of pieces is as high as that.
#[unsafe(no_mangle)]
pub extern "C" fn split_at_pages_records(
    sections: &[u64],
    count: usize,
    page: u64,
    out: &mut [FreeSection],
) -> usize
    ensures { with result out.new ≡ left_shown (leaving out.old (split_records sections.now count page out.old)) }
{
    shown_number(split_at_pages(sections, count, page, out))
}
