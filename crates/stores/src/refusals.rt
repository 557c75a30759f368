// Why a store may refuse an insertion.
ghost use Rattle.std.specs.Prelude.{◌≡◌};
ghost use Rattle.stores.specs.Refusals.{number_and_place};

// Why a configuration was not put into a store.
#[derive(Clone, Copy, PartialEq, Eq, Debug)]
pub enum Refused {
    // A held configuration covers it already.
    Covered,
    // Nothing covers it, but as many are held as the store can hold.
    Full,
}

impl Refused {
    // The number of the question that was answered no.
    pub fn number(&self) -> u8
        ensures { result ≡ (number_and_place self.now).0 }
    {
        match *self {
            Refused::Covered => 16,
            Refused::Full => 17,
        }
    }

    // The place that the question was about: neither has one, so 0.
    pub fn place(&self) -> usize
        ensures { result ≡ (number_and_place self.now).1 }
    {
        match *self {
            Refused::Covered | Refused::Full => 0,
        }
    }
}
