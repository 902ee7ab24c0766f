// The list that every call is lent.
ghost use Rattle.std.specs.Prelude.{◌≡◌};
ghost use Rattle.program.specs.Papers.{blank_paper};

use book::slip::Slip;
use session::check::PLACES;

// A place for each slip of one call.
pub fn blank_paper() -> [Slip; PLACES]
    ensures { result ≡ blank_paper }
{
    [Slip::Trade {
        price: 0,
        pieces: 0,
        buyer: 0,
        seller: 0,
    }; PLACES]
}
