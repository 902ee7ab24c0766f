// The sheets of the two kinds of products: they differ in Limit 2 and in turnover.
ghost use Rattle.std.specs.Prelude.{◌≡◌};
ghost use Rattle.figures.specs.Sheets.{limits_at, product};
ghost use Rattle.figures.specs.TableRules.{product_lawful};

use crate::band::{Band, find_band};
use crate::sheet::Sheet;

#[derive(Clone, Copy, PartialEq, Eq, Debug)]
pub enum Product {
    Leveraged,
    Investment,
}

// The limits of one band, in percent: Limit 1, and Limit 2 of each product.
#[derive(Clone, Copy)]
pub struct Limits {
    pub one: u32,
    pub leveraged: u32,
    pub investment: u32,
}

const LIMITS: [Band<Limits>; 8] = [
    Band {
        up_to: 50,
        value: Limits {
            one: 2_000,
            leveraged: 800,
            investment: 400,
        },
    },
    Band {
        up_to: 1_000,
        value: Limits {
            one: 600,
            leveraged: 300,
            investment: 150,
        },
    },
    Band {
        up_to: 10_000,
        value: Limits {
            one: 300,
            leveraged: 150,
            investment: 75,
        },
    },
    Band {
        up_to: 30_000,
        value: Limits {
            one: 200,
            leveraged: 100,
            investment: 50,
        },
    },
    Band {
        up_to: 300_000,
        value: Limits {
            one: 100,
            leveraged: 50,
            investment: 25,
        },
    },
    Band {
        up_to: 700_000,
        value: Limits {
            one: 60,
            leveraged: 20,
            investment: 10,
        },
    },
    Band {
        up_to: 900_000,
        value: Limits {
            one: 30,
            leveraged: 12,
            investment: 6,
        },
    },
    Band {
        up_to: 3_000_000,
        value: Limits {
            one: 20,
            leveraged: 10,
            investment: 5,
        },
    },
];

const LIMITS_ABOVE: Limits = Limits {
    one: 15,
    leveraged: 6,
    investment: 3,
};

impl Limits {
    // Those of the band that the reference lies in.
    fn at(reference: u32) -> Limits
        ensures { result ≡ limits_at reference }
    {
        find_band(&LIMITS, LIMITS_ABOVE, reference)
    }
}

impl Sheet for Product {
    ghost means = { product };

    ghost lawful = { product_lawful };

    fn limit_one(&self, reference: u32) -> u32 {
        Limits::at(reference).one
    }

    fn limit_two(&self, reference: u32) -> u32 {
        match self {
            Product::Leveraged => Limits::at(reference).leveraged,
            Product::Investment => Limits::at(reference).investment,
        }
    }

    fn turnover(&self, _reference: u32) -> u32 {
        match self {
            Product::Leveraged => 5_000_000,
            Product::Investment => 10_000_000,
        }
    }
}
