// Pieces are summed over tickets; the quote has none.
ghost use Rattle.std.specs.Prelude.{◌≡◌, ◌*◌, ◌≤◌, length, if◌then◌else◌, nat_eq};
ghost use Rattle.session.specs.Bounds.{Low};
ghost use Rattle.session.specs.Calls.{done_on, out_on, tallied};

use crate::state::Totals;
use book::slip::Slip;

// The pieces of a trade, for the order of that ticket; 0 is the quote, as on its slip.
fn count_for(ticket: u32, pieces: u32) -> u64
    ensures is { result ≡ (if nat_eq ticket 0 then 0 else pieces) }
    ensures low { result ≤ 4294967295 }
{
    if ticket == 0 { 0 } else { pieces as u64 }
}

fn done_on(slip: Slip) -> u64
    ensures is { result ≡ done_on slip }
    ensures low { result ≤ 2 * 4294967295 }
{
    match slip {
        Slip::Trade {
            pieces,
            buyer,
            seller,
            ..
        } => count_for(buyer, pieces) + count_for(seller, pieces),
        Slip::Out { .. } => 0,
    }
}

fn out_on(slip: Slip) -> u64
    ensures is { result ≡ out_on slip }
    ensures low { result ≤ 4294967295 }
{
    match slip {
        Slip::Trade { .. } => 0,
        Slip::Out { pieces, .. } => pieces as u64,
    }
}

impl Totals {
    pub(crate) fn tally(&mut self, slips: &[Slip])
        requires few { length slips.now ≤ 129 }
        requires low { Low self.old }
        ensures { self.new ≡ tallied self.old slips.now }
    {
        for slip in slips {
            self.done += done_on(*slip);
            self.out += out_on(*slip);
        }
    }
}
