// The protocol: lines in, answers out.
#![tactic(auto)]

mod addresses;
mod blocks;
mod dispatch;
mod images;
mod lengths;
mod lines;
mod lists;
mod memory;
mod message;
mod pages;
mod plans;
mod reply;
mod saves;
pub mod stream;
mod sums;
mod words;
