// What an accepted call does, by the phase that it finds.
ghost use Rattle.std.specs.Prelude.{◌≡◌, ◌≤◌, false, length, if◌then◌else◌, Some};
ghost use Rattle.book.specs.Firsts.{is_reached};
ghost use Rattle.session.specs.Acts.{acted, at_clock, restarted, still, ticking};
ghost use Rattle.session.specs.Deeds.{Deed};
ghost use Rattle.session.specs.Phases.{Asked};
ghost use Rattle.session.specs.Runs.{crossing};
ghost use Rattle.session.specs.Terms.{day_of};

use crate::act::Act;
use crate::phase::{Phase, Rfe};
use crate::state::State;
use crate::terms::Terms;
use book::quote::Quote;
use book::ranking::Ranking;
use book::slip::Slip;
use figures::sheet::Sheet;

impl State {
    // The seconds are set: that alone gives no slip.
    fn set_clock(&mut self, seconds: u32) -> usize
        ensures count { result ≡ 0 }
        ensures after { self.new ≡ at_clock self.old seconds }
    {
        self.clock = seconds;
        0
    }

    // A quote stands, and a cross runs that asks nobody.
    fn put<S: Sheet, R: Ranking>(
        &mut self,
        terms: &Terms<S, R>,
        quote: Quote,
        out: &mut [Slip],
    ) -> usize
        ensures { Deed (crossing (day_of S.Sheet.means R.Ranking.ranks terms.now) self.old quote (Some quote) false) self.new out.old out.new result }
    {
        self.cross(terms, quote, Some(quote), false, out)
    }

    // An order goes out during an RFE. If no order reaches the quote any more, the RFE ends and a
    // cross runs.
    fn end_unreached<S: Sheet, R: Ranking>(
        &mut self,
        terms: &Terms<S, R>,
        quote: Quote,
        out: &mut [Slip],
    ) -> usize
        ensures { Deed (if is_reached quote self.old.table.rows then still self.old else crossing (day_of S.Sheet.means R.Ranking.ranks terms.now) self.old quote (Some quote) false) self.new out.old out.new result }
    {
        if self.table.is_reached(quote) {
            0
        } else {
            self.put(terms, quote, out)
        }
    }

    // The clock is set, and an RFE that is due ends as by withdraw: the quote goes, step B and the
    // tail run under it.
    fn end_due<S: Sheet, R: Ranking>(
        &mut self,
        terms: &Terms<S, R>,
        quote: Quote,
        rfe: Rfe,
        seconds: u32,
        out: &mut [Slip],
    ) -> usize
        ensures { Deed (ticking (day_of S.Sheet.means R.Ranking.ranks terms.now) (at_clock self.old seconds) (Asked quote rfe)) self.new out.old out.new result }
    {
        let due = rfe.due <= seconds as u64;
        self.clock = seconds;
        if due {
            self.cross(terms, quote, None, false, out)
        } else {
            0
        }
    }

    // The clock is set, and a halt that is over leaves a dark book.
    fn end_halt(&mut self, until: u64, seconds: u32) -> usize
        ensures count { result ≡ 0 }
        ensures after { self.new ≡ restarted (at_clock self.old seconds) until }
    {
        self.clock = seconds;
        if until <= seconds as u64 {
            self.phase = Phase::Dark;
        }
        0
    }

    // What an accepted call does, by the phase that it finds: it rewrites the phase where the phase
    // changes, writes the slips from the start of the list, and gives their count. Phases with one body have an
    // arm each: an or-pattern, inside the pair or of two pairs, gets no generated proof.
    #[tactic(auto, using(crate::proofs::Cancels::unreached_few))]
    pub(crate) fn act<S: Sheet, R: Ranking>(
        &mut self,
        terms: &Terms<S, R>,
        act: Act,
        out: &mut [Slip],
    ) -> usize
        requires { 1 ≤ length out.old }
        ensures { Deed (acted (day_of S.Sheet.means R.Ranking.ranks terms.now) self.old act) self.new out.old out.new result }
    {
        match (self.phase, act) {
            (Phase::Asked(quote, rfe), Act::Clock(seconds)) => {
                self.end_due(terms, quote, rfe, seconds, out)
            }
            (Phase::Halted(until), Act::Clock(seconds)) => self.end_halt(until, seconds),
            (Phase::Dark, Act::Clock(seconds)) => self.set_clock(seconds),
            (Phase::Lit(_), Act::Clock(seconds)) => self.set_clock(seconds),
            (Phase::Lit(quote), Act::Enter(order)) => {
                self.place(order);
                self.cross(terms, quote, Some(quote), true, out)
            }
            (Phase::Asked(_, _), Act::Enter(order)) => {
                self.place(order);
                0
            }
            (Phase::Asked(quote, _), Act::Cancel(found)) => {
                let first = self.take_out(found, out);
                first + self.end_unreached(terms, quote, &mut out[1..])
            }
            (Phase::Dark, Act::Cancel(found)) => self.take_out(found, out),
            (Phase::Lit(_), Act::Cancel(found)) => self.take_out(found, out),
            (Phase::Halted(_), Act::Cancel(found)) => self.take_out(found, out),
            (Phase::Dark, Act::Put(quote)) => self.put(terms, quote, out),
            (Phase::Lit(_), Act::Put(quote)) => self.put(terms, quote, out),
            (Phase::Asked(_, _), Act::Put(quote)) => self.put(terms, quote, out),
            (Phase::Lit(_), Act::Withdraw) => {
                self.phase = Phase::Dark;
                0
            }
            (Phase::Asked(quote, _), Act::Withdraw) => self.cross(terms, quote, None, false, out),
            _ => 0,
        }
    }
}
