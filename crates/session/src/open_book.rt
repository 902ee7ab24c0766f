// A book that is open for its day, over any sheet and any ranking.
ghost use Rattle.session.specs.Histories.{Past};

use crate::state::State;
use crate::terms::Terms;
use book::ranking::Ranking;
use figures::sheet::Sheet;

// Only close takes it away. Behind its state stand the calls that led to it. The calls of the state stand here once
// more: a state changes field by field, and no past fits it on the way.
pub struct Book<S: Sheet, R: Ranking> {
    terms: Terms<S, R>,
    state: State,
    ghost past: { ∥ Past terms.particulars.reference terms.particulars.reply state ∥₁ },
}

mod calls;
mod ends;
mod reply;
mod status;
