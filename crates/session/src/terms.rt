// What a book has all day.
ghost use Rattle.std.specs.Prelude.{◌≡◌};

use crate::particulars::Particulars;
use book::ranking::Ranking;
use figures::instrument::Instrument;
use figures::sheet::Sheet;

// Clauses say `day_of S.Sheet.means R.Ranking.ranks` for what the terms
// mean: an impl Model that showed that day would lose that sheet and ranking themselves stay as they are.
#[derive(Drop)]
pub struct Terms<S: Sheet, R: Ranking> {
    pub(crate) sheet: S,
    pub(crate) ranking: R,
    pub(crate) particulars: Particulars,
}

impl<S: Sheet, R: Ranking> Terms<S, R> {
    pub(crate) fn instrument(&self) -> Instrument<'_, S>
        ensures sheet { result.sheet.now ≡ self.now.sheet }
        ensures reference { result.reference ≡ self.now.particulars.reference }
    {
        Instrument {
            sheet: &self.sheet,
            reference: self.particulars.reference(),
        }
    }
}

mod frame;
