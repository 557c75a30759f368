// What is wrong with the parts of a pattern.
ghost use Rattle.std.specs.Prelude.{◌≡◌};
ghost use Rattle.patterns.specs.Refusals.{number, place};

#[derive(Clone, Copy, PartialEq, Eq, Debug)]
pub enum Fault {
    // There are not 1 to 64 states, at most 16 signals and 1 to 1,024 rows.
    Sizes,
    // The start state or a final state is none of the states.
    Ends,
    // The root of this state is none of the rows.
    Root(usize),
    // This row's operation is none of 0 to 6, or an operand that the operation does not use is not 0.
    Operation(usize),
    // This row names a state, a signal or an earlier row that there is not.
    Operand(usize),
    // This row negates a row that depends on a state.
    Negation(usize),
}

impl Fault {
    // The number under which the fault is refused.
    pub fn number(self) -> u8
        ensures { result ≡ number self }
    {
        match self {
            Fault::Sizes => 1,
            Fault::Ends => 2,
            Fault::Root(_) => 3,
            Fault::Operation(_) => 4,
            Fault::Operand(_) => 5,
            Fault::Negation(_) => 6,
        }
    }

    // Where the fault lies: the state of a root, the number of a row, otherwise 0.
    pub fn place(self) -> usize
        ensures { result ≡ place self }
    {
        match self {
            Fault::Sizes | Fault::Ends => 0,
            Fault::Root(state) => state,
            Fault::Operation(row) | Fault::Operand(row) | Fault::Negation(row) => row,
        }
    }
}
