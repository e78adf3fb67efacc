// The managers of a paged file: which sections each slot has, how long its blocks are, and where they stand.
#![tactic(auto)]

pub mod blocks;
mod chains;
pub mod measure;
mod pieces;
pub mod plan;
mod put;
mod runs;
mod sharing;

// How many metadata, raw and unclassified regions there are.
#[derive(Clone, Copy, Debug, PartialEq, Eq)]
pub struct Counts {
    pub meta: usize,
    pub raw: usize,
    pub unclassified: usize,
}
