// One slot of a sheet: sealing a caption into it, and opening it.
#![tactic(auto)]

pub mod seal;
pub mod unseal;
