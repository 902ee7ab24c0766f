// The book: orders in 128 places, the quote, rankings, and the cross between them.

#![tactic(auto)]

pub mod admit;
mod cross;
pub mod crossed;
mod decide;
pub mod fault;
mod first;
pub mod found;
pub mod frame;
pub mod laws;
mod make;
mod moves;
pub mod order;
mod pieces;
pub mod proposal;
mod put;
pub mod quote;
pub mod ranking;
mod searches;
pub mod side;
mod situation;
pub mod slip;
mod step_a;
mod step_b;
mod survey;
pub mod table;
mod tail;
