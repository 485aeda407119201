#![tactic(auto)]

mod board;
mod case;
mod estimates;
mod fields;
pub mod mark;
pub mod print;
pub mod render;
pub mod report;
mod rows;
mod shown;
mod trio;
