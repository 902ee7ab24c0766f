// The faults of this layer, and those of the figures that pass through it whole.
ghost use Rattle.std.specs.Prelude.{◌≡◌};
ghost use Rattle.book.specs.declared.fault.BookFault.TheVariants.{Figures};
ghost use Rattle.book.specs.Refusals.{book_refusal};

use figures::fault::FiguresFault;
use figures::refusal::{Layer, Refusal};

#[derive(Clone, Copy, PartialEq, Eq, Debug)]
pub enum BookFault {
    // an order stands in every place
    Full,
    // the count of orders and quotes is at its end
    NumbersUsed,
    // no order of this ticket and sender stands
    NoTicket,
    Figures(FiguresFault),
}

// By hand: a derive would state no `from_gives`.
impl From<FiguresFault> for BookFault {
    ghost from_gives = { λ e r. r ≡ Figures e };

    fn from(e: FiguresFault) -> BookFault {
        BookFault::Figures(e)
    }
}

impl From<BookFault> for Refusal {
    ghost from_gives = { λ fault refusal. refusal ≡ book_refusal fault };

    fn from(fault: BookFault) -> Refusal {
        let number = match fault {
            BookFault::Full => 8,
            BookFault::NumbersUsed => 9,
            BookFault::NoTicket => 10,
            BookFault::Figures(fault) => return Refusal::from(fault),
        };
        Refusal {
            number,
            layer: Layer::Book,
            field: 0,
        }
    }
}
