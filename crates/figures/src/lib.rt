// Figures: what a number in an order, a quote or a notice may be.

#![tactic(auto)]

pub mod band;
pub mod check;
pub mod edges;
pub mod fault;
pub mod instrument;
pub mod limit;
pub mod offer;
pub mod pieces;
pub mod price;
pub mod refusal;
pub mod sender;
pub mod sheet;
