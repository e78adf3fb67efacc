// Bytes handed out in pages by kind: for each kind a list of free bytes, a list of free pages that no kind has (the unclassified one), and a
// mark for each page. This is document 02's front door (P4): here is what its two calls are and come to, and the marks; the calls
// themselves are made by `paged_calls`.
#![tactic(auto)]

pub mod marks;

// The kind of a page's bytes.
#[derive(Clone, Copy, Debug, PartialEq, Eq)]
pub enum PageType {
    // File metadata.
    Meta,
    // Raw data.
    Raw,
}

// One of the two calls with its arguments.
#[derive(Clone, Copy, Debug, PartialEq, Eq)]
pub enum PagedCall {
    Alloc { kind: PageType, len: u64 },
    Free { kind: PageType, addr: u64, len: u64 },
}
