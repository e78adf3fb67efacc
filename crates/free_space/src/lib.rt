// The free list of free_space.rs over lent memory: a run of pairs, address then length, and a record with their count.
#![tactic(auto)]

pub mod check;
pub mod decide;
mod fit;
mod join;
pub mod list;
mod meet;
pub mod questions;
pub mod run;
mod units;
mod valid;
