// Key: from the bytes of a candidate's input to the bytes of its key.

#![tactic(auto)]

pub mod desk;
pub mod lent;
pub mod open_day;
pub mod page;
pub mod request;
pub mod whole;
