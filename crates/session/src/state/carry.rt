// An accepted call is carried out: its slips are counted, and it is answered.
ghost use Rattle.std.specs.Prelude.{◌≡◌, ◌≤◌, length, Ok};
ghost use Rattle.session.specs.Bounds.{Few, Low};
ghost use Rattle.session.specs.Calls.{answer_of, done};
ghost use Rattle.session.specs.Tells.{Tells};
ghost use Rattle.session.specs.Terms.{day_of};

use crate::act::Act;
use crate::answer::Answer;
use crate::state::State;
use crate::terms::Terms;
use book::ranking::Ranking;
use book::slip::Slip;
use figures::sheet::Sheet;

impl State {
    pub(crate) fn answer(&self, slips: usize, number: u32) -> Answer
        ensures { result ≡ answer_of self.now slips number }
    {
        Answer {
            phase: self.phase.kind(),
            slips,
            number,
            dynamic: self.dynamic,
            opener: self.phase.opener(),
        }
    }

    // What a book is doing, told as an answer to no call in particular.
    pub(crate) fn status(&self) -> Answer
        ensures { result ≡ answer_of self.now 0 0 }
    {
        self.answer(0, 0)
    }

    pub(crate) fn carry_out<S: Sheet, R: Ranking>(
        &mut self,
        terms: &Terms<S, R>,
        act: Act,
        number: u32,
        out: &mut [Slip],
    ) -> Answer
        requires room { 129 ≤ length out.old }
        requires few { Few (day_of S.Sheet.means R.Ranking.ranks terms.now) self.old act }
        requires low { Low self.old.totals }
        ensures { Tells (done (day_of S.Sheet.means R.Ranking.ranks terms.now) self.old act number) (Ok result) self.new out.old out.new }
    {
        let count = self.act(terms, act, out);
        self.totals.tally(&out[..count]);
        self.answer(count, number)
    }
}
