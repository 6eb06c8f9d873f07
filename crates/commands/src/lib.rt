// The command stream: bytes in, one line out for each command.
#![tactic(auto)]

mod command;
mod faults;
mod line;
mod obey;
mod runs;
mod steps;

pub use command::Unread;
pub use faults::StreamFault;
pub use line::LINE;
pub use runs::run;
pub use steps::{STREAM, Stepped, step};
