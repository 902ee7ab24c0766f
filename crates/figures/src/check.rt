// A test that has to hold.
ghost use Rattle.std.specs.Prelude.{◌≡◌};
ghost use Rattle.figures.specs.Checks.{holds};

// The fault where the test does not hold.
pub fn check<E: Drop>(passed: bool, fault: E) -> Result<(), E>
    ensures { result ≡ holds passed fault }
{
    if passed { Ok(()) } else { Err(fault) }
}
