// How far a price may lie from its base.
ghost use Rattle.std.specs.Prelude.{◌≡◌};
ghost use Rattle.figures.specs.Limits.{is_within};

// Whether `price` differs from `base` by at most `limit` percent of `base`.
pub fn is_within(price: u32, base: u32, limit: u32) -> bool
    ensures { result ≡ is_within price base limit }
{
    price.abs_diff(base) as u64 * 100 <= limit as u64 * base as u64
}
