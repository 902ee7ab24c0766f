// Records: forty bytes that hold a letter, a mark and five numbers.

#![tactic(auto)]

pub mod line;
pub mod read;
pub mod write;
