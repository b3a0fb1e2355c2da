// Event lines (01, What the machine says back): written, and read again.

#![tactic(auto)]

pub mod forms;
pub mod reader;
pub mod writer;
