#![tactic(auto)]

pub mod arguments;
pub mod cause;
pub mod explanation;
pub mod failure;
pub mod file;
mod lines;
pub mod print;

pub use arguments::Request;
pub use cause::{Cause, Given, Source};
