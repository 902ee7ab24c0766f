// A book is opened and closed.
ghost use Rattle.std.specs.Prelude.{◌≡◌};
ghost use Rattle.session.specs.Closing.{report_of};
ghost use Rattle.session.specs.Days.{fresh};
ghost use Rattle.session.specs.Promises.{Promised};
ghost use Rattle.session.specs.Terms.{day_of};

use crate::open_book::Book;
use crate::particulars::Particulars;
use crate::phase::Phase;
use crate::report::Report;
use crate::state::{State, Totals};
use crate::terms::Terms;
use book::ranking::Ranking;
use book::table::Table;
use figures::sheet::Sheet;

impl State {
    // Dark at clock 0, with nothing in it.
    fn fresh(reference: u32) -> State
        ensures { result ≡ fresh reference }
    {
        State {
            clock: 0,
            dynamic: reference,
            count: 0,
            collected: 0,
            totals: Totals::default(),
            phase: Phase::Dark,
            table: Table::new(),
        }
    }
}

impl<S: Sheet, R: Ranking> Book<S, R> {
    // Checked particulars make a book: it cannot be refused.
    pub fn open(particulars: Particulars, sheet: S, ranking: R) -> Book<S, R>
        ensures state { result.state ≡ fresh particulars.reference }
        ensures terms { (result.terms.sheet ≡ sheet) × (result.terms.ranking ≡ ranking) × (result.terms.particulars ≡ particulars) }
    {
        let state = State::fresh(particulars.reference());
        let terms = Terms {
            sheet,
            ranking,
            particulars,
        };
        Book { terms, state }
    }

    // Whatever was called before, every story that may have led here keeps the laws.
    pub fn close(self) -> Report
        ensures value { result ≡ report_of self.state }
        ensures lawful { Promised (day_of S.Sheet.means R.Ranking.ranks self.terms) self.state }
    {
        let Book { terms: _, state } = self;
        state.report()
    }
}
