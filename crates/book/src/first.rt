// The first, by rank or by ticket, of the orders that a search looks at.
ghost use Rattle.std.specs.Prelude.{◌≡◌, Bool};
ghost use Rattle.book.specs.Firsts.{best, chosen, looked};
ghost use Rattle.book.specs.Picks.{earlier};
ghost use Rattle.book.specs.Proposals.{Order};
ghost use Rattle.book.specs.Searches.{Compares, Tests};

use crate::found::Found;
use crate::order::Order;
use crate::table::Table;

// One more order becomes the best where it goes before the best so far. Nothing else is written.
pub(crate) fn choose<B: Fn(&Order, &Order) -> bool>(
    best: &mut Option<Found>,
    place: usize,
    order: &Order,
    before: &B,
)
    requires before { B.IsAlwaysCallable before.now }
    ensures { (ahead : Order → Order → Bool) → Compares B.Fn before.now ahead → best.new ≡ chosen ahead best.old place order.now }
{
    if best.is_none_or(|other| before(order, &other.order)) {
        *best = Some(Found {
            place,
            order: *order,
        });
    }
}

// One more row.
fn look<P: Fn(&Order) -> bool, B: Fn(&Order, &Order) -> bool>(
    best: &mut Option<Found>,
    place: usize,
    row: &Option<Order>,
    passes: &P,
    before: &B,
)
    requires passes { P.IsAlwaysCallable passes.now }
    requires before { B.IsAlwaysCallable before.now }
    ensures { (ok : Order → Bool) (ahead : Order → Order → Bool) → Tests P.Fn passes.now ok → Compares B.Fn before.now ahead → best.new ≡ looked ahead ok best.old place row.now }
{
    match row {
        Some(order) if passes(order) => choose(best, place, order, before),
        _ => {}
    }
}

// Each row is read once, in place.
pub(crate) fn best<P: Fn(&Order) -> bool, B: Fn(&Order, &Order) -> bool>(
    rows: &[Option<Order>; 128],
    passes: P,
    before: B,
) -> Option<Found>
    requires passes { P.IsAlwaysCallable passes }
    requires before { B.IsAlwaysCallable before }
    ensures { (ok : Order → Bool) (ahead : Order → Order → Bool) → Tests P.Fn passes ok → Compares B.Fn before ahead → result ≡ best ahead ok rows.now }
{
    let mut best: Option<Found> = None;
    for (place, row) in rows.iter().enumerate() {
        look(&mut best, place, row, &passes, &before);
    }
    best
}

impl Table {
    // Of the orders that pass, the one with the lowest ticket.
    pub(crate) fn earliest<P: Fn(&Order) -> bool>(&self, passes: P) -> Option<Found>
        requires passes { P.IsAlwaysCallable passes }
        ensures { (ok : Order → Bool) → Tests P.Fn passes ok → result ≡ best earlier ok self.now.rows }
    {
        best(&self.rows, passes, |a, b| a.ticket < b.ticket)
    }
}
