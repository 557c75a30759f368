// A row of a pattern's table: an operation and two operands.
ghost use Rattle.std.specs.Prelude.{◌≡◌};
ghost use Rattle.patterns.specs.Operations.{code, Decodes};

// What a row does with its operands, under the number that stands for it in a table.
#[derive(Clone, Copy, PartialEq, Eq, Debug)]
pub enum Operation {
    // The constants, which use no operand.
    False = 0,
    True = 1,
    // The state numbered left: 1 where it is in the set.
    State = 2,
    // The signal numbered left: 1 where the event has it on.
    Signal = 3,
    // The rows left and right, which come earlier in the table.
    And = 4,
    Or = 5,
    // The row left, negated. No state stands below it.
    Not = 6,
}

// A number that stands for no operation.
#[derive(Clone, Copy, PartialEq, Eq, Debug)]
pub struct UnknownOperation(pub u8);

impl TryFrom<u8> for Operation {
    type Error = UnknownOperation;

    ghost try_from_gives = { Decodes };

    fn try_from(number: u8) -> Result<Self, UnknownOperation> {
        match number {
            0 => Ok(Operation::False),
            1 => Ok(Operation::True),
            2 => Ok(Operation::State),
            3 => Ok(Operation::Signal),
            4 => Ok(Operation::And),
            5 => Ok(Operation::Or),
            6 => Ok(Operation::Not),
            _ => Err(UnknownOperation(number)),
        }
    }
}

impl From<Operation> for u8 {
    ghost from_gives = { λ operation number. number ≡ code operation };

    fn from(operation: Operation) -> u8 {
        operation as u8
    }
}

// Stays: a table is the caller's and may hold any number, which is refused under 4, so the operation is a `u8`.
#[derive(Clone, Copy, PartialEq, Eq, Debug, Default)]
pub struct Row {
    pub operation: u8,
    pub left: u16,
    pub right: u16,
}
