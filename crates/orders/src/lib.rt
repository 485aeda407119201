#![tactic(auto)]

pub mod assign;
mod closed;
mod end;
pub mod grow;
pub mod range;
pub mod settle;
pub mod settled;
mod table_range;

pub use range::Range;
pub use settled::Settled;
