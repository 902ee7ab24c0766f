// Ticks at each edge of their bands, and which prices are on them.
use figures::price::{is_price, tick};

#[test]
fn each_band_has_its_tick(rt: HostRuntime) {
    let edges = [
        (1, 1),
        (50, 1),
        (51, 5),
        (1_000, 5),
        (1_001, 10),
        (10_000, 10),
        (10_001, 50),
        (30_000, 50),
        (30_001, 100),
        (99_999_999, 100),
    ];
    for (price, expected) in edges {
        assert_eq!(rt; tick(price), expected);
    }
}

#[test]
fn prices_are_multiples_of_their_own_tick(rt: HostRuntime) {
    for price in [
        1, 49, 50, 55, 1_000, 1_010, 10_000, 10_050, 30_000, 30_100, 99_999_900,
    ] {
        assert!(rt; is_price(price), "a price");
    }
    for price in [
        0,
        51,
        54,
        1_005,
        1_001,
        10_010,
        30_050,
        99_999_950,
        99_999_999,
        100_000_000,
    ] {
        assert!(rt; !is_price(price), "no price");
    }
}
