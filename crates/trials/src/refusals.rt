// What a call says of a refusal.
use figures::refusal::{Layer, Refusal};

// What the call is refused for, if it is.
pub fn said<T: Drop, E: Into<Refusal>>(answer: Result<T, E>) -> Option<Refusal> {
    answer.err().map(E::into)
}

pub fn refused(number: u32, layer: Layer, field: u32) -> Option<Refusal> {
    Some(Refusal {
        number,
        layer,
        field,
    })
}
