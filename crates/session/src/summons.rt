// The right of the Specialist to reply to one RFE.
ghost use Rattle.std.specs.Prelude.{◌≡◌};

// A plain number by the rules: the opening ticket of its RFE. A blank has 0, and so has one that is spent: no
// other may be let go.
pub struct Summons {
    pub(crate) number: u32,
}

impl Drop for Summons {
    fn drop(self)
        requires { self.number ≡ 0 }
    {
        let Summons { number: _ } = self;
    }
}

impl Summons {
    pub fn blank() -> Summons
        ensures { result.number ≡ 0 }
    {
        Summons { number: 0 }
    }

    // The opening ticket of the RFE, or 0.
    pub fn number(&self) -> u32
        ensures { result ≡ self.now.number }
    {
        self.number
    }
}
