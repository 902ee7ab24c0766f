// Prices in points, and their ticks.
ghost use Rattle.std.specs.Prelude.{◌≡◌};
ghost use Rattle.figures.specs.Prices.{in_range, is_price, on_tick, tick_of};

use crate::band::{Band, find_band};

pub const LAST_PRICE: u32 = 99_999_999;

const TICKS: [Band<u32>; 4] = [
    Band {
        up_to: 50,
        value: 1,
    },
    Band {
        up_to: 1_000,
        value: 5,
    },
    Band {
        up_to: 10_000,
        value: 10,
    },
    Band {
        up_to: 30_000,
        value: 50,
    },
];

const TICK_ABOVE: u32 = 100;

// The tick of the band that the price itself lies in.
pub fn tick(price: u32) -> u32
    ensures { result ≡ tick_of price }
{
    find_band(&TICKS, TICK_ABOVE, price)
}

#[tactic(auto, using(crate::specs::TableRules::tick_some))]
pub fn is_on_tick(price: u32) -> bool
    ensures { result ≡ on_tick price }
{
    price % tick(price) == 0
}

// Whether the number is one of the points that a price may have, on tick or not.
pub fn is_in_range(price: u32) -> bool
    ensures { result ≡ in_range price }
{
    (1..=LAST_PRICE).contains(&price)
}

pub fn is_price(price: u32) -> bool
    ensures { result ≡ is_price price }
{
    is_in_range(price) && is_on_tick(price)
}
