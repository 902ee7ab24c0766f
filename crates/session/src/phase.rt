// What a book is doing.
ghost use Rattle.std.specs.Prelude.{◌≡◌};
ghost use Rattle.session.specs.Phases.{is_asked, is_dark, is_halted, kind_of, opener_of, opening_of, phase_letter, quote_of};

use book::quote::Quote;

// A request for execution: the ticket of the order that opened it, and the second at which it is due.
#[derive(Clone, Copy)]
pub struct Rfe {
    pub opener: u32,
    pub due: u64,
}

// Data, and no switch: each phase has its own, and the laws speak of it.
#[derive(Clone, Copy)]
pub enum Phase {
    // no quote
    Dark,
    // a quote stands
    Lit(Quote),
    // a quote stands and is being asked
    Asked(Quote, Rfe),
    // no quote, until that second
    Halted(u64),
}

// The phase as an answer tells it.
#[derive(Clone, Copy, PartialEq, Eq, Debug)]
pub enum PhaseKind {
    Dark,
    Lit,
    Asked,
    Halted,
}

// The letter that stands for the phase in a record.
impl From<PhaseKind> for u8 {
    ghost from_gives = { λ phase letter. letter ≡ phase_letter phase };

    fn from(phase: PhaseKind) -> u8 {
        match phase {
            PhaseKind::Dark => b'D',
            PhaseKind::Lit => b'L',
            PhaseKind::Asked => b'R',
            PhaseKind::Halted => b'H',
        }
    }
}

impl Phase {
    pub(crate) fn kind(self) -> PhaseKind
        ensures { result ≡ kind_of self }
    {
        match self {
            Phase::Dark => PhaseKind::Dark,
            Phase::Lit(_) => PhaseKind::Lit,
            Phase::Asked(_, _) => PhaseKind::Asked,
            Phase::Halted(_) => PhaseKind::Halted,
        }
    }

    // The quote that stands.
    pub(crate) fn quote(self) -> Option<Quote>
        ensures { result ≡ quote_of self }
    {
        match self {
            Phase::Lit(quote) | Phase::Asked(quote, _) => Some(quote),
            Phase::Dark | Phase::Halted(_) => None,
        }
    }

    // The opening ticket of the open RFE.
    pub(crate) fn opening(self) -> Option<u32>
        ensures { result ≡ opening_of self }
    {
        match self {
            Phase::Asked(_, rfe) => Some(rfe.opener),
            _ => None,
        }
    }

    // The same, or 0: the rules tell that no RFE is open by this number.
    pub(crate) fn opener(self) -> u32
        ensures { result ≡ opener_of self }
    {
        self.opening().unwrap_or(0)
    }

    pub(crate) fn is_dark(self) -> bool
        ensures { result ≡ is_dark self }
    {
        matches!(self, Phase::Dark)
    }

    pub(crate) fn is_asked(self) -> bool
        ensures { result ≡ is_asked self }
    {
        matches!(self, Phase::Asked(..))
    }

    pub(crate) fn is_halted(self) -> bool
        ensures { result ≡ is_halted self }
    {
        matches!(self, Phase::Halted(_))
    }
}
