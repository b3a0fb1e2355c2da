// Command lines (01, Command lines): read, written, and found in an input that comes in pieces.

#![tactic(auto)]

pub mod forms;
pub mod lines;
pub mod reader;
pub mod writer;
