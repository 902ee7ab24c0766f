// The faults of the program, which carry those of the session.
ghost use Rattle.std.specs.Prelude.{◌≡◌};
ghost use Rattle.program.specs.Refusals.{program_refusal};
ghost use Rattle.program.specs.declared.fault.ProgramFault.TheVariants.{Session, Unreadable};

use figures::refusal::{Layer, Refusal};
use records::line;
use session::fault::SessionFault;

#[derive(Clone, Copy, PartialEq, Eq, Debug)]
pub enum ProgramFault {
    Unreadable,
    // a call while no day is open
    NoDay,
    // an opening while a day is open
    DayOpen,
    Session(SessionFault),
}

// By hand, here and below: a derive would state no `from_gives`.
impl From<line::Unreadable> for ProgramFault {
    ghost from_gives = { λ _ r. r ≡ Unreadable };

    fn from(_: line::Unreadable) -> ProgramFault {
        ProgramFault::Unreadable
    }
}

impl From<SessionFault> for ProgramFault {
    ghost from_gives = { λ e r. r ≡ Session e };

    fn from(e: SessionFault) -> ProgramFault {
        ProgramFault::Session(e)
    }
}

impl From<ProgramFault> for Refusal {
    ghost from_gives = { λ fault r. r ≡ program_refusal fault };

    fn from(fault: ProgramFault) -> Refusal {
        let number = match fault {
            ProgramFault::Unreadable => 18,
            ProgramFault::NoDay | ProgramFault::DayOpen => 19,
            ProgramFault::Session(fault) => return Refusal::from(fault),
        };
        Refusal {
            number,
            layer: Layer::Program,
            field: 0,
        }
    }
}
