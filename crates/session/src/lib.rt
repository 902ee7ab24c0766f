// Session: one day of one book.

#![tactic(auto)]

pub mod act;
pub mod answer;
pub mod check;
pub mod edges;
pub mod entry;
pub mod fault;
pub mod laws;
pub mod open_book;
pub mod particulars;
pub mod phase;
pub mod quotation;
pub mod report;
pub mod state;
pub mod summons;
pub mod terms;
