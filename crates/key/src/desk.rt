// The desk that takes one piece of input after another: at most one day is open on it. It is alike to that of the
// whole key in shape alone: a day here is its particulars, and its calls are none.
ghost use Rattle.std.specs.Prelude.{◌≡◌, ℕ, List, [], ◌∷◌, ◌++◌, None};
ghost use Rattle.program.specs.Tellings.{parting_lines, response_lines};
ghost use Rattle.key.specs.Desks.{closed, end_lines, opened, reference_of, responded, told};
ghost use Rattle.key.specs.Keys.{answers};

use crate::request::Request;
use book::slip::Slip;
use figures::check::check;
use program::clerk::Clerk;
use program::fault::ProgramFault;
use program::opening::Opening;
use program::response::Response;
use records::line::Line;
use session::check::PLACES;
use session::particulars::Particulars;
use session::report::Report;

#[derive(Drop)]
pub struct Desk {
    open: Option<Particulars>,
}

impl Desk {
    pub(crate) fn new() -> Desk
        ensures { reference_of result.open ≡ None }
    {
        Desk { open: None }
    }

    fn open(&mut self, opening: Opening) -> Result<Response, ProgramFault>
        ensures value { result ≡ (opened (reference_of self.old.open) opening).result }
        ensures after { reference_of self.new.open ≡ (opened (reference_of self.old.open) opening).standing }
    {
        check(self.open.is_none(), ProgramFault::DayOpen)?;
        self.open = Some(Particulars::new(opening.reference, opening.reply)?);
        Ok(Response::Told(opening.answer()))
    }

    fn close(&mut self) -> Result<Response, ProgramFault>
        ensures value { result ≡ (closed (reference_of self.old.open)).result }
        ensures after { reference_of self.new.open ≡ (closed (reference_of self.old.open)).standing }
    {
        self.open.take().ok_or(ProgramFault::NoDay)?;
        Ok(Response::Closed(Report::of_empty_day()))
    }
}

impl Clerk for Desk {
    ghost tells = { λ desk pieces. answers (reference_of desk.open) pieces };

    // An unreadable piece, or the call that a record asks for.
    #[tactic(auto, unfolding(program::specs::Desks::answers_by, crate::specs::Desks::responded))]
    fn respond(
        &mut self,
        piece: &[u8],
        paper: &mut [Slip; PLACES],
    ) -> Result<Response, ProgramFault>
        ensures value { result ≡ (responded (reference_of self.old.open) piece.now).result }
        ensures lines { response_lines result paper.new ≡ (told (responded (reference_of self.old.open) piece.now)).lines }
        ensures after { reference_of self.new.open ≡ (responded (reference_of self.old.open) piece.now).standing }
        ensures tells { (later : List (List ℕ)) → answers (reference_of self.old.open) (piece.now ∷ later) ≡ response_lines result paper.new ++ answers (reference_of self.new.open) later }
    {
        let line = Line::try_from(piece)?;
        match Request::try_from(line)? {
            Request::Open(opening) => self.open(opening),
            Request::Close => self.close(),
        }
    }

    // A day that is still open is closed.
    #[tactic(auto, unfolding(program::specs::Desks::answers_by))]
    fn end(&mut self, paper: &mut [Slip; PLACES]) -> Option<Response>
        ensures lines { parting_lines result paper.new ≡ end_lines (reference_of self.old.open) }
        ensures after { reference_of self.new.open ≡ None }
        ensures tells { answers (reference_of self.old.open) [] ≡ parting_lines result paper.new }
    {
        self.open.take()?;
        Some(Response::Closed(Report::of_empty_day()))
    }
}
