// What a register holds and what its calls mean: the records of its tables, and in specs/ the calls, the refusal
// table, the meaning of each call, histories of calls, and the law that holds after every history.
#![tactic(auto)]

pub mod answers;
pub mod records;

pub use answers::Decision;
pub use records::{DraftRecord, GrantKey, GrantRecord};
