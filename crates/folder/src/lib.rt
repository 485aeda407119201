#![tactic(auto)]

pub mod files;
pub mod print;
pub mod read;
pub mod stream;
pub mod text;
pub mod texts;
