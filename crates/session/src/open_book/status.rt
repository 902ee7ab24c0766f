// What an open book is doing.
ghost use Rattle.std.specs.Prelude.{◌≡◌};
ghost use Rattle.session.specs.Calls.{answer_of};
ghost use Rattle.session.specs.Promises.{Promised};
ghost use Rattle.session.specs.Terms.{day_of};

use crate::answer::Answer;
use crate::open_book::Book;
use book::ranking::Ranking;
use figures::sheet::Sheet;

impl<S: Sheet, R: Ranking> Book<S, R> {
    // Tells as an answer does, with no slips and no number, and changes nothing.
    pub fn status(&self) -> Answer
        ensures value { result ≡ answer_of self.now.state 0 0 }
        ensures lawful { Promised (day_of S.Sheet.means R.Ranking.ranks self.now.terms) self.now.state }
    {
        self.state.status()
    }
}
