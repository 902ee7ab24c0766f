// Program: what stands between the records of an input and the calls of a day, whichever calls a program makes.

#![tactic(auto)]

pub mod clerk;
pub mod fault;
pub mod lent;
pub mod lines;
pub mod opening;
pub mod page;
pub mod paper;
pub mod ranking;
pub mod response;
pub mod unused;
pub mod whole;
