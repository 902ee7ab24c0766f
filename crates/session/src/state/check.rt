// The tests of each call, in their order: the first that fails is the refusal.
ghost use Rattle.std.specs.Prelude.{◌≡◌};
ghost use Rattle.session.specs.Checks.{cancel_check, clock_check, enter_check, fits, may_be, quote_test, validate_check, withdraw_check};
ghost use Rattle.session.specs.Terms.{day_of};

use crate::check::check_room;
use crate::entry::Entry;
use crate::fault::SessionFault;
use crate::state::State;
use crate::terms::Terms;
use book::admit::{admit_order, admit_quote};
use book::found::Found;
use book::ranking::Ranking;
use figures::check::check;
use figures::offer::Offer;
use figures::sender::check_sender;
use figures::sheet::Sheet;

// The last second of a day.
const LAST_SECOND: u32 = 86_400;

impl State {
    // The order's ticket.
    pub(crate) fn check_enter<S: Sheet, R: Ranking>(
        &self,
        terms: &Terms<S, R>,
        places: usize,
        entry: Entry,
    ) -> Result<u32, SessionFault>
        ensures { result ≡ enter_check (day_of S.Sheet.means R.Ranking.ranks terms.now) self.now places entry }
    {
        check_room(places)?;
        check_sender(entry.sender)?;
        check(!self.phase.is_halted(), SessionFault::Halted)?;
        check(!self.phase.is_dark(), SessionFault::Dark)?;
        Ok(admit_order(
            &terms.instrument(),
            entry.price,
            entry.pieces,
            &self.table,
            self.count,
        )?)
    }

    pub(crate) fn check_cancel(
        &self,
        places: usize,
        sender: u32,
        ticket: u32,
    ) -> Result<Found, SessionFault>
        ensures { result ≡ cancel_check self.now places sender ticket }
    {
        check_room(places)?;
        Ok(self.table.owned(sender, ticket)?)
    }

    // The quote's number.
    pub(crate) fn check_quote<S: Sheet, R: Ranking>(
        &self,
        terms: &Terms<S, R>,
        places: usize,
        offer: Offer,
    ) -> Result<u32, SessionFault>
        ensures { result ≡ quote_test (day_of S.Sheet.means R.Ranking.ranks terms.now) self.now places offer }
    {
        check_room(places)?;
        check(!self.phase.is_halted(), SessionFault::Halted)?;
        check(!self.phase.is_asked(), SessionFault::Asking)?;
        Ok(admit_quote(&terms.instrument(), offer, self.count)?)
    }

    pub(crate) fn check_withdraw(&self, places: usize) -> Result<(), SessionFault>
        ensures { result ≡ withdraw_check self.now places }
    {
        check_room(places)?;
        check(self.phase.quote().is_some(), SessionFault::NoQuote)
    }

    // Whether the summons is that of the open RFE.
    pub(crate) fn fits(&self, summons: u32) -> bool
        ensures { result ≡ fits self.now summons }
    {
        self.phase.opening() == Some(summons)
    }

    pub(crate) fn check_validate<S: Sheet, R: Ranking>(
        &self,
        terms: &Terms<S, R>,
        places: usize,
        summons: u32,
        offer: Offer,
    ) -> Result<(), SessionFault>
        ensures { result ≡ validate_check (day_of S.Sheet.means R.Ranking.ranks terms.now) self.now places summons offer }
    {
        check_room(places)?;
        check(self.fits(summons), SessionFault::Summons)?;
        Ok(terms.instrument().check_quote(offer)?)
    }

    // The clock never goes back, and the day has an end.
    fn may_be(&self, seconds: u32) -> bool
        ensures { result ≡ may_be self.now seconds }
    {
        (self.clock..=LAST_SECOND).contains(&seconds)
    }

    pub(crate) fn check_clock(&self, places: usize, seconds: u32) -> Result<(), SessionFault>
        ensures { result ≡ clock_check self.now places seconds }
    {
        check_room(places)?;
        check(self.may_be(seconds), SessionFault::Seconds)
    }
}
