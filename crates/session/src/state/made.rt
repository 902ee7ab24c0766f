// Numbers and pieces that a call takes in.
ghost use Rattle.std.specs.Prelude.{◌≡◌, ◌≤◌};
ghost use Rattle.session.specs.Calls.{accepting, number_of};
ghost use Rattle.session.specs.Phases.{quote_of};

use crate::state::State;

impl State {
    // A validated quote has the number of the one that stood; 0 where none does, as the rules tell no number.
    pub(crate) fn kept_number(&self) -> u32
        ensures { result ≡ number_of (quote_of self.now.phase) }
    {
        self.phase.quote().map_or(0, |quote| quote.number)
    }

    // An order has its ticket.
    pub(crate) fn accept(&mut self, ticket: u32, pieces: u32)
        requires { self.old.totals.accepted ≤ 10000000000000 }
        ensures { self.new ≡ accepting self.old ticket pieces }
    {
        self.totals.accepted += pieces as u64;
        self.count = ticket;
    }
}
