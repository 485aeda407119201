#![tactic(auto)]

mod field;
mod form;
mod heading;
mod line;
mod pairing;
mod reader;
mod sheet;

pub use field::Field;
pub use form::{Column, Form, MOST_LINES};
pub use pairing::pair;
pub use sheet::Sheet;
