// All that the next move of a cross is read from, in one pass over the rows. It is proved, and nothing calls it
// yet: `Situation` asks search by search.
ghost use Rattle.std.specs.Prelude.{◌≡◌, Some};
ghost use Rattle.book.specs.Firsts.{looked};
ghost use Rattle.book.specs.Picks.{Any, Brief, Taking, earlier, picked};
ghost use Rattle.book.specs.Surveys.{Looks, Read, Surveyed};

use crate::first::choose;
use crate::found::Found;
use crate::order::Order;
use crate::quote::Quote;
use crate::ranking::Ranking;
use crate::side::Side;
use crate::table::Table;

// The first-ranked buy and sell, those of them that reach the quote, and the execute-and-cancel order
// with the lowest ticket.
#[derive(Clone, Copy, Default)]
pub struct Survey {
    pub buy: Option<Found>,
    pub sell: Option<Found>,
    pub taking_buy: Option<Found>,
    pub taking_sell: Option<Found>,
    pub brief: Option<Found>,
}

// One more order, as one of the side and as a taker.
fn read_side<R: Ranking>(
    best: &mut Option<Found>,
    taker: &mut Option<Found>,
    ranking: &R,
    side: Side,
    quote: &Quote,
    place: usize,
    order: &Order,
)
    ensures best { Looks (R.Ranking.ranks ranking.now) (Any side) place (Some order.now) best.old best.new }
    ensures taker { Looks (R.Ranking.ranks ranking.now) (Taking side quote.now) place (Some order.now) taker.old taker.new }
{
    let ahead = |a: &Order, b: &Order| ranking.ahead(side, a.proposal(), b.proposal());
    if order.side == side {
        choose(best, place, order, &ahead);
        if quote.is_reached(order, side) {
            choose(taker, place, order, &ahead);
        }
    }
}

// One more order, as one that the tail takes out.
fn read_brief(best: &mut Option<Found>, place: usize, order: &Order)
    ensures { best.new ≡ looked earlier (picked Brief) best.old place (Some order.now) }
{
    let earlier = |a: &Order, b: &Order| a.ticket < b.ticket;
    if order.brief {
        choose(best, place, order, &earlier);
    }
}

// One more row.
fn read<R: Ranking>(
    found: &mut Survey,
    ranking: &R,
    quote: &Quote,
    place: usize,
    row: &Option<Order>,
)
    ensures { Read (R.Ranking.ranks ranking.now) quote.now place row.now found.old found.new }
{
    if let Some(order) = row {
        read_side(
            &mut found.buy,
            &mut found.taking_buy,
            ranking,
            Side::Buy,
            quote,
            place,
            order,
        );
        read_side(
            &mut found.sell,
            &mut found.taking_sell,
            ranking,
            Side::Sell,
            quote,
            place,
            order,
        );
        read_brief(&mut found.brief, place, order);
    }
}

fn survey_of<R: Ranking>(ranking: &R, quote: Quote, rows: &[Option<Order>; 128]) -> Survey
    ensures { Surveyed (R.Ranking.ranks ranking.now) quote rows.now result }
{
    let mut found = Survey::default();
    for (place, row) in rows.iter().enumerate() {
        read(&mut found, ranking, &quote, place, row);
    }
    found
}

impl Table {
    // Each row is read once, in place.
    pub(crate) fn survey<R: Ranking>(&self, ranking: &R, quote: Quote) -> Survey
        ensures { Surveyed (R.Ranking.ranks ranking.now) quote self.now.rows result }
    {
        survey_of(ranking, quote, &self.rows)
    }
}
