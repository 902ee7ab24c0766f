// How many pieces an order, or one side of a quote, may have.
ghost use Rattle.std.specs.Prelude.{◌≡◌};
ghost use Rattle.figures.specs.Pieces.{are_allowed};

pub const MOST_PIECES: u32 = 10_000_000;

// A point is a ten-thousandth of the currency, and turnover is told in whole currency.
const POINTS: u64 = 10_000;

// Whether the pieces are in range, and worth at most the turnover at the price and at the reference.
pub fn are_allowed(pieces: u32, price: u32, reference: u32, turnover: u32) -> bool
    ensures { result ≡ are_allowed pieces price reference turnover }
{
    let most = turnover as u64 * POINTS;
    (1..=MOST_PIECES).contains(&pieces)
        && pieces as u64 * reference as u64 <= most
        && pieces as u64 * price as u64 <= most
}
