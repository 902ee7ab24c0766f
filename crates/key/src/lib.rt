// Key: from the bytes of a candidate's input to the bytes of its key.

#![tactic(auto)]

pub mod desk;
pub mod request;
pub mod whole;
