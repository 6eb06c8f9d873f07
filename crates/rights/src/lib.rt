// The register of rights on timetable drafts: its calls, and what they refuse.
#![tactic(auto)]

mod answering;
pub mod calls;
pub mod faults;
mod marks;
mod page;
pub mod register;

pub use calls::{Call, Outcome};
pub use faults::{Layer, RegisterFault};
pub use model::{DraftRecord, GrantKey, GrantRecord, records};
pub use register::Register;
