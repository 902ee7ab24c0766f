// The faults of this layer, which carry those of the book.
ghost use Rattle.std.specs.Prelude.{◌≡◌};
ghost use Rattle.book.specs.declared.fault.BookFault.TheVariants.{Figures};
ghost use Rattle.session.specs.Refusals.{session_refusal};
ghost use Rattle.session.specs.declared.fault.SessionFault.TheVariants.{Book};

use book::fault::BookFault;
use figures::fault::FiguresFault;
use figures::refusal::{Layer, Refusal};

#[derive(Clone, Copy, PartialEq, Eq, Debug)]
pub enum SessionFault {
    // the slip list has fewer than 129 places
    ShortList,
    // the book is halted
    Halted,
    // the book is dark
    Dark,
    // an RFE is open
    Asking,
    // no quote stands
    NoQuote,
    // the summons is not that of the open RFE
    Summons,
    // the reference is no price, on tick or not
    Reference,
    // the reply time is out of range
    ReplyTime,
    // the seconds go back, or beyond the day
    Seconds,
    Book(BookFault),
}

// By hand, here and below: a derive would state no `from_gives`.
impl From<BookFault> for SessionFault {
    ghost from_gives = { λ e r. r ≡ Book e };

    fn from(e: BookFault) -> SessionFault {
        SessionFault::Book(e)
    }
}

impl From<FiguresFault> for SessionFault {
    ghost from_gives = { λ e r. r ≡ Book (Figures e) };

    fn from(e: FiguresFault) -> SessionFault {
        SessionFault::Book(BookFault::Figures(e))
    }
}

impl From<SessionFault> for Refusal {
    ghost from_gives = { λ fault refusal. refusal ≡ session_refusal fault };

    fn from(fault: SessionFault) -> Refusal {
        let (number, field) = match fault {
            SessionFault::ShortList => (1, 0),
            SessionFault::Halted => (3, 0),
            SessionFault::Dark => (4, 0),
            SessionFault::Asking => (12, 0),
            SessionFault::NoQuote => (13, 0),
            SessionFault::Summons => (14, 0),
            SessionFault::Reference => (15, 1),
            SessionFault::ReplyTime => (15, 5),
            SessionFault::Seconds => (16, 5),
            SessionFault::Book(fault) => return Refusal::from(fault),
        };
        Refusal {
            number,
            layer: Layer::Session,
            field,
        }
    }
}
