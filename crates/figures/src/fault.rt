// The faults of this layer, each with the field that it speaks of.
ghost use Rattle.std.specs.Prelude.{◌≡◌};
ghost use Rattle.figures.specs.Refusals.{figures_refusal};

use crate::refusal::{Layer, Refusal};

// Which value of a call a fault speaks of: `Price` is an order's price or a quote's bid.
#[derive(Clone, Copy, PartialEq, Eq, Debug)]
pub enum Field {
    Price = 1,
    Pieces = 2,
    Ask = 3,
    AskPieces = 4,
}

// Which number of a notice a fault speaks of.
#[derive(Clone, Copy, PartialEq, Eq, Debug)]
pub enum Term {
    LimitOne = 1,
    LimitTwo = 2,
    Turnover = 3,
}

#[derive(Clone, Copy, PartialEq, Eq, Debug)]
pub enum FiguresFault {
    // the sender is not a provider's number
    Sender,
    // the price is out of range or off its tick
    Price(Field),
    // the price is beyond Limit 1
    Beyond(Field),
    // the pieces are not allowed
    Pieces(Field),
    // the bid is not below the ask
    Crossed,
    // the notice is against the law of a sheet
    Notice(Term),
}

impl From<FiguresFault> for Refusal {
    ghost from_gives = { λ fault refusal. refusal ≡ figures_refusal fault };

    fn from(fault: FiguresFault) -> Refusal {
        let (number, field) = match fault {
            FiguresFault::Sender => (2, 5),
            FiguresFault::Price(field) => (5, field as u32),
            FiguresFault::Beyond(field) => (6, field as u32),
            FiguresFault::Pieces(field) => (7, field as u32),
            FiguresFault::Crossed => (11, 3),
            FiguresFault::Notice(term) => (17, term as u32),
        };
        Refusal {
            number,
            layer: Layer::Figures,
            field,
        }
    }
}
