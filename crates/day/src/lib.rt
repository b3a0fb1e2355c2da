// A day: the lines of an input, one after the other, on one book in place; and the turns between a read and a write.

#![tactic(auto)]

pub mod night;
pub mod replay;
