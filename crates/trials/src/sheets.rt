// Both tables of limits at each edge of their bands.
use figures::sheet::Sheet;
use figures::sheet::product::Product;

// Reference, Limit 1, Limit 2 leveraged, Limit 2 investment.
const EDGES: [(u32, u32, u32, u32); 18] = [
    (1, 2_000, 800, 400),
    (50, 2_000, 800, 400),
    (51, 600, 300, 150),
    (1_000, 600, 300, 150),
    (1_001, 300, 150, 75),
    (10_000, 300, 150, 75),
    (10_001, 200, 100, 50),
    (30_000, 200, 100, 50),
    (30_001, 100, 50, 25),
    (300_000, 100, 50, 25),
    (300_001, 60, 20, 10),
    (700_000, 60, 20, 10),
    (700_001, 30, 12, 6),
    (900_000, 30, 12, 6),
    (900_001, 20, 10, 5),
    (3_000_000, 20, 10, 5),
    (3_000_001, 15, 6, 3),
    (99_999_999, 15, 6, 3),
];

#[test]
fn each_band_has_its_limits(rt: HostRuntime) {
    for (reference, one, leveraged, investment) in EDGES {
        assert_eq!(rt; Product::Leveraged.limit_one(reference), one);
        assert_eq!(rt; Product::Leveraged.limit_two(reference), leveraged);
        assert_eq!(rt; Product::Investment.limit_one(reference), one);
        assert_eq!(rt; Product::Investment.limit_two(reference), investment);
    }
}

#[test]
fn turnover_is_the_same_for_every_reference(rt: HostRuntime) {
    for reference in [1, 50, 100_000, 99_999_999] {
        assert_eq!(rt; Product::Leveraged.turnover(reference), 5_000_000);
        assert_eq!(rt; Product::Investment.turnover(reference), 10_000_000);
    }
}
