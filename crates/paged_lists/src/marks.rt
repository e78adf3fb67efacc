// The marks of pages, one byte for each.
ghost use Rattle.std.specs.Prelude.{◌≡◌};
ghost use Rattle.paged_lists.specs.Kinds.{mark_of};
ghost use Rattle.paged_lists.specs.Pages.{marks_fit, all_marked, marked};

use crate::PageType;

// The mark of a page that has bytes of a kind; 0 marks one that no kind has.
// A byte and no Option<PageType>: marks are lent memory and may hold any byte.
pub fn mark_of(kind: PageType) -> u8
    ensures { result ≡ mark_of kind }
{
    match kind {
        PageType::Meta => 1,
        PageType::Raw => 2,
    }
}

// Whether no mark is above 2.
pub fn marks_fit(marks: &[u8]) -> bool
    ensures { result ≡ marks_fit marks.now }
{
    marks.iter().all(|mark| *mark <= 2)
}

// Whether all of `count` pages from `first` on are marked with a kind. A page without a mark is not.
pub fn all_marked(marks: &[u8], kind: PageType, first: u64, count: u64) -> bool
    ensures { result ≡ all_marked (mark_of kind) count first marks.now }
{
    if count == 0 {
        return true;
    }
    let len = marks.len() as u64;
    if len < count || len - count < first {
        return false;
    }
    let mark = mark_of(kind);
    marks[first as usize..(first + count) as usize]
        .iter()
        .all(|m| *m == mark)
}

// Sets the marks of `count` pages from `first` on; what is past the marks is left out.
pub fn set_marks(marks: &mut [u8], first: u64, count: u64, mark: u8)
    ensures { marks.new ≡ marked first count mark marks.old }
{
    let len = marks.len() as u64;
    if len <= first {
        return;
    }
    let end = first + count.min(len - first);
    marks[first as usize..end as usize].fill(mark);
}
