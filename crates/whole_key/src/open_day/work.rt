// What is done on the open day.
ghost use Rattle.std.specs.Prelude.{◌≡◌, Some, None, Ok, MatchResult, ◌==◌};
ghost use Rattle.book.specs.Cross.{written};
ghost use Rattle.session.specs.Opening.{particulars_fault};
ghost use Rattle.session.specs.Phases.{opener_of};
ghost use Rattle.session.specs.Stories.{replied};
ghost use Rattle.whole_key.specs.Calls.{call_of};
ghost use Rattle.whole_key.specs.Seats.{after, fresh_seat, makes, seat_of, settled, tidied};
ghost use Rattle.program.specs.Tellings.{response_lines};
ghost use Rattle.whole_key.specs.Tellings.{end_lines, result_lines, yield_lines};

use crate::open_day::OpenDay;
use crate::request::Call;
use book::slip::Slip;
use program::opening::Opening;
use program::response::Response;
use session::answer::Answer;
use session::check::PLACES;
use session::fault::SessionFault;
use session::open_book::Book;
use session::particulars::Particulars;
use session::summons::Summons;

impl OpenDay {
    // The call itself: V and D carry the held summons.
    #[tactic(auto, unfolding(session::specs::Stories::yields))]
    fn place(&mut self, call: Call, paper: &mut [Slip; PLACES]) -> Result<Answer, SessionFault>
        ensures value { replied result ≡ (makes (seat_of self.old) (call_of call)).reply }
        ensures after { seat_of self.new ≡ after (seat_of self.old) (call_of call) }
        ensures slips { paper.new ≡ written (makes (seat_of self.old) (call_of call)).slips paper.old }
    {
        match call {
            Call::Enter(entry) => self.book.enter(entry, paper),
            Call::Cancel { sender, ticket } => self.book.cancel(sender, ticket, paper),
            Call::Quote(quotation) => self.book.quote(quotation, paper),
            Call::Validate(quotation) => { self.book.validate(&mut self.summons, quotation, paper) }
            Call::Clock(seconds) => self.book.clock(seconds, paper),
            Call::Withdraw => self.book.withdraw(paper),
            Call::Decline => self.book.decline(&mut self.summons, paper),
            Call::Renew => Ok(self.book.renew()),
        }
    }

    // Whether it is this summons that the desk holds; 0 is a blank.
    fn holds(&self, number: u32) -> bool
        ensures { result ≡ (self.now.summons.number == number) }
    {
        self.summons.number() == number
    }

    // The desk holds the summons of the open RFE, or a blank where none is open.
    fn tidy(&mut self, opener: u32, paper: &mut [Slip; PLACES])
        requires { opener ≡ opener_of self.old.book.state.phase }
        ensures after { seat_of self.new ≡ tidied (seat_of self.old) }
        ensures paper { paper.new ≡ paper.old }
    {
        if self.holds(opener) {
            return;
        }
        let _ = self.book.decline(&mut self.summons, paper);
        self.summons = self.book.collect();
    }

    // The call, and what the desk does by itself after it.
    pub(crate) fn make(
        &mut self,
        call: Call,
        paper: &mut [Slip; PLACES],
    ) -> Result<Answer, SessionFault>
        ensures lines { result_lines result paper.new ≡ yield_lines (makes (seat_of self.old) (call_of call)) }
        ensures after { seat_of self.new ≡ settled (makes (seat_of self.old) (call_of call)).reply (after (seat_of self.old) (call_of call)) }
    {
        let answer = self.place(call, paper)?;
        self.tidy(answer.opener, paper);
        Ok(answer)
    }

    pub(crate) fn open(opening: Opening) -> Result<OpenDay, SessionFault>
        ensures { MatchResult result (λ o. (particulars_fault opening.reference opening.reply ≡ None) × (seat_of o ≡ fresh_seat opening)) (λ e. particulars_fault opening.reference opening.reply ≡ Some e) }
    {
        let particulars = Particulars::new(opening.reference, opening.reply)?;
        Ok(OpenDay {
            book: Book::open(particulars, opening.sheet, opening.ranking),
            summons: Summons::blank(),
        })
    }

    // An RFE that is open is declined first.
    pub(crate) fn close(self, paper: &mut [Slip; PLACES]) -> Response
        ensures { response_lines (Ok result) paper.new ≡ end_lines (seat_of self) }
    {
        let is_blank = self.holds(0);
        let OpenDay {
            mut book,
            mut summons,
        } = self;
        if is_blank {
            return Response::Closed(book.close());
        }
        let answer = book.decline(&mut summons, paper).unwrap();
        Response::Declined(answer, book.close())
    }
}
