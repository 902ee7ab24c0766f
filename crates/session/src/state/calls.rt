// The calls: tests first, so that a refusal leaves all as it was, then the work. Terms and list are lent apart: a
// struct of both would be made at each call and taken apart at each step, since a cancel lends on a part of the list.
ghost use Rattle.std.specs.Prelude.{length};
ghost use Rattle.session.specs.Bounds.{Bounded, FewCancelled};
ghost use Rattle.session.specs.Calls.{cancelled, declined, entered, quoted, ticked, validated, withdrawn};
ghost use Rattle.session.specs.Tells.{Tells};
ghost use Rattle.session.specs.Terms.{day_of};

use crate::act::Act;
use crate::answer::Answer;
use crate::check::check_room;
use crate::entry::Entry;
use crate::fault::SessionFault;
use crate::quotation::Quotation;
use crate::state::State;
use crate::terms::Terms;
use book::ranking::Ranking;
use book::slip::Slip;
use figures::sheet::Sheet;

#[tactic(auto, using(crate::proofs::LowTotals::low_of, crate::proofs::Keeps::put_few, crate::proofs::Keeps::withdraw_few, crate::proofs::Keeps::clock_few, crate::proofs::Keeps::enter_few))]
impl State {
    pub(crate) fn enter<S: Sheet, R: Ranking>(
        &mut self,
        terms: &Terms<S, R>,
        entry: Entry,
        out: &mut [Slip],
    ) -> Result<Answer, SessionFault>
        requires { Bounded self.old }
        ensures { Tells (entered (day_of S.Sheet.means R.Ranking.ranks terms.now) self.old (length out.old) entry) result self.new out.old out.new }
    {
        let ticket = self.check_enter(terms, out.len(), entry)?;
        self.accept(ticket, entry.pieces);
        Ok(self.carry_out(terms, Act::Enter(entry.order(ticket)), ticket, out))
    }

    pub(crate) fn cancel<S: Sheet, R: Ranking>(
        &mut self,
        terms: &Terms<S, R>,
        sender: u32,
        ticket: u32,
        out: &mut [Slip],
    ) -> Result<Answer, SessionFault>
        requires bounded { Bounded self.old }
        requires few { FewCancelled (day_of S.Sheet.means R.Ranking.ranks terms.now) self.old }
        ensures { Tells (cancelled (day_of S.Sheet.means R.Ranking.ranks terms.now) self.old (length out.old) sender ticket) result self.new out.old out.new }
    {
        let found = self.check_cancel(out.len(), sender, ticket)?;
        Ok(self.carry_out(terms, Act::Cancel(found), 0, out))
    }

    pub(crate) fn quote<S: Sheet, R: Ranking>(
        &mut self,
        terms: &Terms<S, R>,
        quotation: Quotation,
        out: &mut [Slip],
    ) -> Result<Answer, SessionFault>
        requires { Bounded self.old }
        ensures { Tells (quoted (day_of S.Sheet.means R.Ranking.ranks terms.now) self.old (length out.old) quotation.offer quotation.flagged) result self.new out.old out.new }
    {
        let number = self.check_quote(terms, out.len(), quotation.offer)?;
        self.count = number;
        Ok(self.carry_out(terms, Act::Put(quotation.quote(number)), number, out))
    }

    pub(crate) fn withdraw<S: Sheet, R: Ranking>(
        &mut self,
        terms: &Terms<S, R>,
        out: &mut [Slip],
    ) -> Result<Answer, SessionFault>
        requires { Bounded self.old }
        ensures { Tells (withdrawn (day_of S.Sheet.means R.Ranking.ranks terms.now) self.old (length out.old)) result self.new out.old out.new }
    {
        self.check_withdraw(out.len())?;
        Ok(self.carry_out(terms, Act::Withdraw, 0, out))
    }

    pub(crate) fn validate<S: Sheet, R: Ranking>(
        &mut self,
        terms: &Terms<S, R>,
        summons: u32,
        quotation: Quotation,
        out: &mut [Slip],
    ) -> Result<Answer, SessionFault>
        requires { Bounded self.old }
        ensures { Tells (validated (day_of S.Sheet.means R.Ranking.ranks terms.now) self.old (length out.old) summons quotation.offer quotation.flagged) result self.new out.old out.new }
    {
        self.check_validate(terms, out.len(), summons, quotation.offer)?;
        let number = self.kept_number();
        Ok(self.carry_out(terms, Act::Put(quotation.quote(number)), number, out))
    }

    pub(crate) fn decline<S: Sheet, R: Ranking>(
        &mut self,
        terms: &Terms<S, R>,
        summons: u32,
        out: &mut [Slip],
    ) -> Result<Answer, SessionFault>
        requires { Bounded self.old }
        ensures { Tells (declined (day_of S.Sheet.means R.Ranking.ranks terms.now) self.old (length out.old) summons) result self.new out.old out.new }
    {
        check_room(out.len())?;
        if self.fits(summons) {
            Ok(self.carry_out(terms, Act::Withdraw, 0, out))
        } else {
            Ok(self.status())
        }
    }

    pub(crate) fn clock<S: Sheet, R: Ranking>(
        &mut self,
        terms: &Terms<S, R>,
        seconds: u32,
        out: &mut [Slip],
    ) -> Result<Answer, SessionFault>
        requires { Bounded self.old }
        ensures { Tells (ticked (day_of S.Sheet.means R.Ranking.ranks terms.now) self.old (length out.old) seconds) result self.new out.old out.new }
    {
        self.check_clock(out.len(), seconds)?;
        Ok(self.carry_out(terms, Act::Clock(seconds), 0, out))
    }
}
