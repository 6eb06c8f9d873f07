// Settlement: which line of a signed chart decides for each account, under a ruling.
#![tactic(auto)]

mod cases;
mod overrides;
pub mod picks;
mod settling;

pub use picks::Settlement;
pub use settling::settle;
