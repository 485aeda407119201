#![tactic(auto)]

pub mod fault;
pub mod numbers;
pub mod row;
pub mod rows;

pub use fault::{Fault, Layer, Place};
pub use numbers::Numbers;
pub use row::Row;
pub use rows::{MOST_ROWS, Table};
