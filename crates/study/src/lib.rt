#![tactic(auto)]

pub mod call;
pub mod deed;
pub mod edit;
pub mod finding;
mod lists;
mod pieces;
pub mod room;
pub mod state;
pub mod study;
mod whole;

pub use call::Call;
pub use edit::Edit;
pub use finding::Finding;
pub use room::Room;
pub use state::State;
pub use study::Study;
