// A cross in a book.
ghost use Rattle.std.specs.Prelude.{◌≡◌};
ghost use Rattle.session.specs.Deeds.{Deed};
ghost use Rattle.session.specs.Runs.{crossing};
ghost use Rattle.session.specs.Terms.{day_of};

use crate::state::State;
use crate::terms::Terms;
use book::quote::Quote;
use book::ranking::Ranking;
use book::slip::Slip;
use figures::sheet::Sheet;

impl State {
    // Runs a cross under a governing quote, with a quote standing or none, and gives the slip count. Stands and
    // entered are apart, as in a frame.
    pub(crate) fn cross<S: Sheet, R: Ranking>(
        &mut self,
        terms: &Terms<S, R>,
        governing: Quote,
        stands: Option<Quote>,
        entered: bool,
        out: &mut [Slip],
    ) -> usize
        ensures { Deed (crossing (day_of S.Sheet.means R.Ranking.ranks terms.now) self.old governing stands entered) self.new out.old out.new result }
    {
        let frame = terms.frame(self, governing, entered);
        let crossed = self.table.cross(&terms.ranking, frame, stands, out);
        self.phase = terms.phase_after(self.clock, crossed.outcome);
        crossed.count
    }
}
