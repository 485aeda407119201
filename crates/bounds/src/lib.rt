#![tactic(auto)]

pub mod analyse;
pub mod check;
mod climb;
pub mod da;
pub mod estimates;
pub mod lc;
pub mod miss;
pub mod named;
mod ordered;
pub mod overhead;
mod picks;
mod posed;
pub mod processors;
pub mod question;
pub mod rta;
mod tally;
pub mod test;
mod window;
mod work;

pub use da::Da;
pub use lc::Lc;
pub use miss::Miss;
pub use named::NamedTest;
pub use overhead::{MOST_ADDED, Overhead};
pub use processors::Processors;
pub use question::Question;
pub use rta::Rta;
pub use test::Test;
