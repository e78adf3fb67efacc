// Fields of the format and the small arithmetic on addresses: bytes.rs, convert.rs and address.rs of the Rust, with the
// field widths of free_space_manager.rs.
#![tactic(auto)]

pub mod address;
pub mod bytes;
pub mod convert;
pub mod width;
