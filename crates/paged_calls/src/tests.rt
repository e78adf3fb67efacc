// The list of a kind, and what both calls ask of the lists before the marks are tested.
ghost use Rattle.std.specs.Prelude.{◌≡◌, ◌+◌, true, false, not, eqb, ltb};
ghost use Rattle.fields.specs.Ranges.{top};
ghost use Rattle.free_space.specs.Runs.{regions, is_list};
ghost use Rattle.free_lists.specs.Lists.{are_lists, regions_in, shared_byte};
ghost use Rattle.paged_lists.specs.Kinds.{list_of};
ghost use Rattle.paged_calls.specs.Decisions.{state_of, end_fits, Reaches, ReachesAll, number_at, Tells, is_shared, SoundTested, AllocTested, FreeTested};

use error::Refusal;
use fields::convert::align_up;
use free_lists::FileLists;
use free_lists::calls::Which;
use free_space::list::FreeList;
use numbers::quotient;
use paged_lists::PageType;
use paged_lists::marks::marks_fit;
use pairs::pair_at;

// The list of a kind.
// No `From`: both types are of other crates.
pub(crate) fn list_of(kind: PageType) -> Which
    ensures { result ≡ list_of kind }
{
    match kind {
        PageType::Meta => Which::Metadata,
        PageType::Raw => Which::Raw,
    }
}

// The end of a list's last region, which reaches highest; 0 where there is none.
fn end_of(run: &[u64], list: FreeList) -> u64
    requires { is_list run.now list ≡ true }
    ensures { Reaches result (regions run.now list) }
{
    if list.count == 0 {
        return 0;
    }
    let last = pair_at(run, list.count - 1);
    last.addr + last.len
}

// Whether a page that has a mark holds the byte before `end`; there is none before 0.
fn has_mark(end: u64, page: u64, marks: u64) -> bool
    ensures { result ≡ end_fits page marks end }
{
    end == 0 || quotient(end - 1, page) < marks
}

// The three lists and the marks, as they are lent.
#[derive(Clone, Copy)]
pub(crate) struct Lent<'a> {
    pub(crate) metadata: &'a [u64],
    pub(crate) raw: &'a [u64],
    pub(crate) unclassified: &'a [u64],
    pub(crate) marks: &'a [u8],
    pub(crate) lists: FileLists,
}

impl Lent<'_> {
    // The end of the highest region of the three lists; 0 where there is none.
    fn highest_end(&self) -> u64
        requires { are_lists (state_of self.now).lists ≡ true }
        ensures { ReachesAll result (state_of self.now).lists }
    {
        let m = end_of(self.metadata, self.lists.metadata);
        let r = end_of(self.raw, self.lists.raw);
        let u = end_of(self.unclassified, self.lists.unclassified);
        m.max(r.max(u))
    }

    // The tests that both calls begin with, in the order of the refusals' numbers: the page, and that all three are lists and the marks theirs.
    // `refused` is the refusal which the kind's list gives.
    fn test_sound(&self, page: u64, refused: Option<Refusal>) -> Result<(), Refusal>
        requires { eqb (number_at refused) 3 ≡ not (are_lists (state_of self.now).lists) }
        ensures { SoundTested page (state_of self.now) result }
    {
        if page == 0 {
            return Err(Refusal::Page);
        }
        if refused == Some(Refusal::NotAList) {
            return Err(Refusal::NotAList);
        }
        if !marks_fit(self.marks) {
            return Err(Refusal::NotAList);
        }
        let end = self.highest_end();
        if !has_mark(end, page, self.marks.len() as u64) {
            return Err(Refusal::NotAList);
        }
        Ok(())
    }

    // The tests, in the order of the refusals' numbers, and then the length in whole pages; `refused` is the refusal which the kind's list gives.
    // Refusal 14 comes after them.
    pub(crate) fn test_alloc(
        &self,
        page: u64,
        len: u64,
        refused: Option<Refusal>,
    ) -> Result<u64, Refusal>
        requires { Tells (number_at refused) (not (are_lists (state_of self.now).lists)) false
            (shared_byte (regions_in (state_of self.now).lists)) }
        ensures { AllocTested page len (state_of self.now) result }
    {
        self.test_sound(page, refused)?;
        let width = align_up(len, page)?;
        if refused == Some(Refusal::SharedAddress) {
            return Err(Refusal::SharedAddress);
        }
        Ok(width)
    }

    // The tests, in the order of the refusals' numbers; `refused` is the refusal which the kind's list gives. Refusals 15 and 14 come after them.
    pub(crate) fn test_free(
        &self,
        page: u64,
        addr: u64,
        len: u64,
        refused: Option<Refusal>,
    ) -> Result<(), Refusal>
        requires { Tells (number_at refused) (not (are_lists (state_of self.now).lists)) (ltb top (addr + len))
            (is_shared addr len (state_of self.now).lists) }
        ensures { FreeTested page addr len (state_of self.now) result }
    {
        self.test_sound(page, refused)?;
        if refused == Some(Refusal::Overflow) {
            return Err(Refusal::Overflow);
        }
        if refused == Some(Refusal::SharedAddress) {
            return Err(Refusal::SharedAddress);
        }
        Ok(())
    }
}
