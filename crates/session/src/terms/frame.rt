// What the terms of a book say about a cross.
ghost use Rattle.std.specs.Prelude.{◌≡◌};
ghost use Rattle.session.specs.Deeds.{phase_from};
ghost use Rattle.session.specs.Runs.{frame_of};
ghost use Rattle.session.specs.Terms.{day_of};

use crate::phase::{Phase, Rfe};
use crate::state::State;
use crate::terms::Terms;
use book::crossed::Outcome;
use book::frame::Frame;
use book::quote::Quote;
use book::ranking::Ranking;
use figures::sheet::Sheet;

// Seconds.
const HALT: u64 = 120;

impl<S: Sheet, R: Ranking> Terms<S, R> {
    // What governs a cross. Waiting are the orders from the opening ticket of the RFE that it ends.
    pub(crate) fn frame(&self, state: &State, governing: Quote, entered: bool) -> Frame
        ensures { result ≡ frame_of (day_of S.Sheet.means R.Ranking.ranks self.now) state.now governing entered }
    {
        Frame {
            bid: governing.bid,
            ask: governing.ask,
            opener: state.phase.opening(),
            entered,
            dynamic: state.dynamic,
            limit: self.sheet.limit_two(self.particulars.reference()),
        }
    }

    // The phase after a cross.
    pub(crate) fn phase_after(&self, clock: u32, outcome: Outcome) -> Phase
        ensures { result ≡ phase_from (day_of S.Sheet.means R.Ranking.ranks self.now) clock outcome }
    {
        match outcome {
            Outcome::Dark => Phase::Dark,
            Outcome::Lit(quote) => Phase::Lit(quote),
            Outcome::Asked(quote, opener) => Phase::Asked(
                quote,
                Rfe {
                    opener,
                    due: clock as u64 + self.particulars.reply() as u64,
                },
            ),
            Outcome::Halted => Phase::Halted(clock as u64 + HALT),
        }
    }
}
