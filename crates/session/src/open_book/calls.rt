// The calls on an open book. Each promises that the terms stay, since a book holds them and could lose them.
ghost use Rattle.std.specs.Prelude.{◌≡◌, length, Ok};
ghost use Rattle.session.specs.Calls.{cancelled, entered, quoted, renewed, ticked, withdrawn};
ghost use Rattle.session.specs.Tells.{Tells};
ghost use Rattle.session.specs.Terms.{day_of};

use crate::answer::Answer;
use crate::entry::Entry;
use crate::fault::SessionFault;
use crate::open_book::Book;
use crate::quotation::Quotation;
use book::ranking::Ranking;
use book::slip::Slip;
use figures::sheet::Sheet;

#[tactic(auto, using(crate::proofs::Pasts::bounded_by))]
impl<S: Sheet, R: Ranking> Book<S, R> {
    // An order takes the next number as its ticket. In a lit book it crosses; in RFE it waits.
    pub fn enter(&mut self, entry: Entry, out: &mut [Slip]) -> Result<Answer, SessionFault>
        ensures told { Tells (entered (day_of S.Sheet.means R.Ranking.ranks self.old.terms) self.old.state (length out.old) entry) result self.new.state out.old out.new }
        ensures terms { self.new.terms ≡ self.old.terms }
    {
        self.state.enter(&self.terms, entry, out)
    }

    // An order goes out. An RFE whose quote no order reaches any more ends, and a cross runs.
    pub fn cancel(
        &mut self,
        sender: u32,
        ticket: u32,
        out: &mut [Slip],
    ) -> Result<Answer, SessionFault>
        ensures told { Tells (cancelled (day_of S.Sheet.means R.Ranking.ranks self.old.terms) self.old.state (length out.old) sender ticket) result self.new.state out.old out.new }
        ensures terms { self.new.terms ≡ self.old.terms }
    {
        self.state.cancel(&self.terms, sender, ticket, out)
    }

    // A quote takes the next number, replaces the one that stands, and crosses.
    pub fn quote(&mut self, quotation: Quotation, out: &mut [Slip]) -> Result<Answer, SessionFault>
        ensures told { Tells (quoted (day_of S.Sheet.means R.Ranking.ranks self.old.terms) self.old.state (length out.old) quotation.offer quotation.flagged) result self.new.state out.old out.new }
        ensures terms { self.new.terms ≡ self.old.terms }
    {
        self.state.quote(&self.terms, quotation, out)
    }

    // The quote goes; in RFE the RFE ends with it.
    pub fn withdraw(&mut self, out: &mut [Slip]) -> Result<Answer, SessionFault>
        ensures told { Tells (withdrawn (day_of S.Sheet.means R.Ranking.ranks self.old.terms) self.old.state (length out.old)) result self.new.state out.old out.new }
        ensures terms { self.new.terms ≡ self.old.terms }
    {
        self.state.withdraw(&self.terms, out)
    }

    // The seconds are set; an RFE that is due ends, and a halt that is over.
    pub fn clock(&mut self, seconds: u32, out: &mut [Slip]) -> Result<Answer, SessionFault>
        ensures told { Tells (ticked (day_of S.Sheet.means R.Ranking.ranks self.old.terms) self.old.state (length out.old) seconds) result self.new.state out.old out.new }
        ensures terms { self.new.terms ≡ self.old.terms }
    {
        self.state.clock(&self.terms, seconds, out)
    }

    // The dynamic price is set to the middle of the quote that stands.
    pub fn renew(&mut self) -> Answer
        ensures value { Ok result ≡ (renewed self.old.state).result }
        ensures after { self.new.state ≡ (renewed self.old.state).state }
        ensures terms { self.new.terms ≡ self.old.terms }
    {
        self.state.renew()
    }
}
