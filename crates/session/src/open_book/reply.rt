// What the Specialist replies to an RFE.
ghost use Rattle.std.specs.Prelude.{◌≡◌, ◌≤◌, true, length, is_ok};
ghost use Rattle.session.specs.Calls.{collecting, declined, spent_by, summons_of, validated};
ghost use Rattle.session.specs.Tells.{Tells};
ghost use Rattle.session.specs.Terms.{day_of};

use crate::answer::Answer;
use crate::fault::SessionFault;
use crate::open_book::Book;
use crate::quotation::Quotation;
use crate::summons::Summons;
use book::ranking::Ranking;
use book::slip::Slip;
use figures::sheet::Sheet;

#[tactic(auto, using(crate::proofs::Pasts::bounded_by))]
impl<S: Sheet, R: Ranking> Book<S, R> {
    // The summons of the open RFE the first time, else a blank.
    pub fn collect(&mut self) -> Summons
        ensures value { result.number ≡ summons_of self.old.state }
        ensures after { self.new.state ≡ collecting self.old.state }
        ensures terms { self.new.terms ≡ self.old.terms }
    {
        self.state.collect()
    }

    // A new quote in reply: it keeps the number of the old, the RFE ends and a cross runs.
    pub fn validate(
        &mut self,
        summons: &mut Summons,
        quotation: Quotation,
        out: &mut [Slip],
    ) -> Result<Answer, SessionFault>
        ensures told { Tells (validated (day_of S.Sheet.means R.Ranking.ranks self.old.terms) self.old.state (length out.old) summons.old.number quotation.offer quotation.flagged) result self.new.state out.old out.new }
        ensures summons { summons.new.number ≡ spent_by result summons.old.number }
        ensures terms { self.new.terms ≡ self.old.terms }
    {
        let answer = self
            .state
            .validate(&self.terms, summons.number, quotation, out)?;
        summons.number = 0;
        Ok(answer)
    }

    // Spends any summons; where its RFE is open, the quote goes as by withdraw.
    pub fn decline(
        &mut self,
        summons: &mut Summons,
        out: &mut [Slip],
    ) -> Result<Answer, SessionFault>
        ensures told { Tells (declined (day_of S.Sheet.means R.Ranking.ranks self.old.terms) self.old.state (length out.old) summons.old.number) result self.new.state out.old out.new }
        ensures summons { summons.new.number ≡ spent_by result summons.old.number }
        ensures ok { 129 ≤ length out.old → is_ok result ≡ true }
        ensures terms { self.new.terms ≡ self.old.terms }
    {
        let answer = self.state.decline(&self.terms, summons.number, out)?;
        summons.number = 0;
        Ok(answer)
    }
}
