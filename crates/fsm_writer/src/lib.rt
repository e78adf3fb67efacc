// The writer of a manager's blocks: the groups of a section list, the two serializers, and all blocks of a paged file straight from lists.
#![tactic(auto)]

mod entries;
mod groups;
pub mod managers;
pub mod writer;
