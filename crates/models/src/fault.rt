// What is wrong with a model.
ghost use Rattle.std.specs.Prelude.{◌≡◌};
ghost use Rattle.models.specs.Refusals.{number, place};

#[derive(Clone, Copy, PartialEq, Eq, Debug)]
pub enum ModelFault {
    // There are not 1 to 64 states and at most 256 arrows, or the start or an end state is none of the states.
    Sizes,
    // This arrow has an end that is none of the states, a mask over signals that there are not, or a value outside its mask.
    Arrow(usize),
}

impl ModelFault {
    // The number under which the fault is refused.
    pub fn number(self) -> u8
        ensures { result ≡ number self }
    {
        match self {
            ModelFault::Sizes => 7,
            ModelFault::Arrow(_) => 8,
        }
    }

    // Where the fault lies: the number of the arrow, otherwise 0.
    pub fn place(self) -> usize
        ensures { result ≡ place self }
    {
        match self {
            ModelFault::Sizes => 0,
            ModelFault::Arrow(arrow) => arrow,
        }
    }
}
