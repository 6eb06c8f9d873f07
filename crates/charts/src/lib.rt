// Charts: directed graphs by their lines, the accounts that a search reaches, and what a line says.
#![tactic(auto)]

pub mod above;
pub mod accounts;
pub mod chart;
pub mod reach;
pub mod views;

pub use above::{Sources, all_above, direct_sources};
pub use accounts::Accounts;
pub use chart::{Chart, Line, Lines, Sign, SignedChart};
pub use reach::search;
pub use views::{Mark, Marks, Passing, Without};
