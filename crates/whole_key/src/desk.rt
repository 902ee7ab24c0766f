// The desk that takes one piece of input after another: at most one day is open on it.
ghost use Rattle.std.specs.Prelude.{◌≡◌, ℕ, List, [], ◌∷◌, ◌++◌, None};
ghost use Rattle.book.specs.declared.slip.Slip.{Slip as SlipTerm};
ghost use Rattle.program.specs.Tellings.{parting_lines, response_lines};
ghost use Rattle.whole_key.specs.Calls.{call_of};
ghost use Rattle.whole_key.specs.Desks.{called, closed, ended, opened, responded, standing_of};
ghost use Rattle.whole_key.specs.Keys.{answers};

use crate::open_day::OpenDay;
use crate::request::{Call, Request};
use book::slip::Slip;
use figures::check::check;
use program::clerk::Clerk;
use program::fault::ProgramFault;
use program::opening::Opening;
use program::response::Response;
use records::line::Line;
use session::check::PLACES;

// Clauses name the standing: a model that held it would hold functions, as that of an open day would.
#[derive(Drop)]
pub struct Desk {
    day: Option<OpenDay>,
}

impl Desk {
    pub(crate) fn new() -> Desk
        ensures { standing_of result.day ≡ None }
    {
        Desk { day: None }
    }

    fn open(&mut self, opening: Opening) -> Result<Response, ProgramFault>
        ensures lines { (paper : List SlipTerm) → response_lines result paper ≡ (opened (standing_of self.old.day) opening).lines }
        ensures after { standing_of self.new.day ≡ (opened (standing_of self.old.day) opening).standing }
    {
        check(self.day.is_none(), ProgramFault::DayOpen)?;
        self.day = Some(OpenDay::open(opening)?);
        Ok(Response::Told(opening.answer()))
    }

    fn call(&mut self, call: Call, paper: &mut [Slip; PLACES]) -> Result<Response, ProgramFault>
        ensures lines { response_lines result paper.new ≡ (called (standing_of self.old.day) (call_of call)).lines }
        ensures after { standing_of self.new.day ≡ (called (standing_of self.old.day) (call_of call)).standing }
    {
        let day = self.day.as_mut().ok_or(ProgramFault::NoDay)?;
        Ok(Response::Told(day.make(call, paper)?))
    }

    fn close(&mut self, paper: &mut [Slip; PLACES]) -> Result<Response, ProgramFault>
        ensures lines { response_lines result paper.new ≡ (closed (standing_of self.old.day)).lines }
        ensures after { standing_of self.new.day ≡ (closed (standing_of self.old.day)).standing }
    {
        let day = self.day.take().ok_or(ProgramFault::NoDay)?;
        Ok(day.close(paper))
    }
}

impl Clerk for Desk {
    ghost tells = { λ desk pieces. answers (standing_of desk.day) pieces };

    #[tactic(auto, unfolding(program::specs::Desks::answers_by, crate::specs::Desks::responded, crate::specs::Desks::asked_of))]
    fn respond(
        &mut self,
        piece: &[u8],
        paper: &mut [Slip; PLACES],
    ) -> Result<Response, ProgramFault>
        ensures lines { response_lines result paper.new ≡ (responded (standing_of self.old.day) piece.now).lines }
        ensures after { standing_of self.new.day ≡ (responded (standing_of self.old.day) piece.now).standing }
        ensures tells { (later : List (List ℕ)) → answers (standing_of self.old.day) (piece.now ∷ later) ≡ response_lines result paper.new ++ answers (standing_of self.new.day) later }
    {
        let line = Line::try_from(piece)?;
        match Request::try_from(line)? {
            Request::Open(opening) => self.open(opening),
            Request::Call(call) => self.call(call, paper),
            Request::Close => self.close(paper),
        }
    }

    // A day that is still open is closed.
    #[tactic(auto, unfolding(program::specs::Desks::answers_by))]
    fn end(&mut self, paper: &mut [Slip; PLACES]) -> Option<Response>
        ensures lines { parting_lines result paper.new ≡ ended (standing_of self.old.day) }
        ensures after { standing_of self.new.day ≡ None }
        ensures tells { answers (standing_of self.old.day) [] ≡ parting_lines result paper.new }
    {
        // a day is large, so nothing is moved where none is open
        self.day.as_ref()?;
        Some(self.day.take()?.close(paper))
    }
}
