// Row elimination over code slices, written once for every lawful field.
#![tactic(auto)]

mod codes;
pub mod fault;
pub mod heard;
mod reduction;
pub mod rows;
pub mod table;
pub mod veto;
