// What a program does with the pieces of an input.
ghost use Rattle.std.specs.Prelude.{◌≡◌, ℕ, List, [], ◌∷◌, ◌++◌};
ghost use Rattle.records.specs.declared.line.Line.{Line};
ghost use Rattle.program.specs.Tellings.{parting_lines, response_lines};

use crate::fault::ProgramFault;
use crate::response::Response;
use book::slip::Slip;
use session::check::PLACES;

pub trait Clerk: Drop {
    // The lines for the pieces that are still to come, to the end of the input.
    ghost tells: { Self → List (List ℕ) → List Line };

    // Answers one piece. The slips of the answer are put in the list that is lent.
    fn respond(
        &mut self,
        piece: &[u8],
        paper: &mut [Slip; PLACES],
    ) -> Result<Response, ProgramFault>
        ensures { (later : List (List ℕ)) → tells self.old (piece.now ∷ later) ≡ response_lines result paper.new ++ tells self.new later };

    // What is left to tell at the end of the input, if anything.
    fn end(&mut self, paper: &mut [Slip; PLACES]) -> Option<Response>
        ensures { tells self.old [] ≡ parting_lines result paper.new };
}
