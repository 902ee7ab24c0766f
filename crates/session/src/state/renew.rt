// Calls that give no slips.
ghost use Rattle.std.specs.Prelude.{◌≡◌, Ok};
ghost use Rattle.session.specs.Calls.{collecting, middle, renewed, summons_of};

use crate::answer::Answer;
use crate::state::State;
use crate::summons::Summons;
use book::quote::Quote;

impl State {
    // Half of bid plus ask, rounded down, where a quote stands.
    fn middle(&self, quote: Option<Quote>) -> u32
        ensures { result ≡ middle self.now quote }
    {
        quote.map_or(self.dynamic, |quote| {
            ((quote.bid as u64 + quote.ask as u64) / 2) as u32
        })
    }

    pub(crate) fn renew(&mut self) -> Answer
        ensures value { Ok result ≡ (renewed self.old).result }
        ensures after { self.new ≡ (renewed self.old).state }
    {
        self.dynamic = self.middle(self.phase.quote());
        self.status()
    }

    // The summons of the open RFE the first time, else a blank.
    pub(crate) fn collect(&mut self) -> Summons
        ensures value { result.number ≡ summons_of self.old }
        ensures after { self.new ≡ collecting self.old }
    {
        match self.phase.opening() {
            Some(opener) if self.collected < opener => {
                self.collected = opener;
                Summons { number: opener }
            }
            _ => Summons::blank(),
        }
    }
}
