// What can be wrong with a pattern file, layer by layer: each layer's fault carries the one from below whole.
ghost use Rattle.std.specs.Prelude.{◌≡◌};
ghost use Rattle.files.specs.declared.fault.RecordFault.TheVariants as record-fault;
ghost use Rattle.files.specs.declared.fault.TableFault.TheVariants as table-fault;
ghost use Rattle.files.specs.declared.fault.TableCause.TheVariants as table-cause;
ghost use Rattle.files.specs.Refusals.{refusal};

use blocks::fault::BlockFault;
use patterns::fault::Fault;

// The layers of a file, from below.
#[derive(Clone, Copy, PartialEq, Eq, Debug)]
pub enum Layer {
    Block,
    Record,
    Table,
}

// Which question about the record was answered no.
#[derive(Clone, Copy, PartialEq, Eq, Debug)]
pub enum RecordCause {
    // The payload is shorter than its heading, or is of another edition, or a zero byte of the heading is not zero.
    Heading,
    // The payload is not as long as its heading says.
    Length,
    // The buffer to write to is shorter than the file.
    Buffer,
}

// Which question about the tables was answered no.
#[derive(Clone, Copy, PartialEq, Eq, Debug)]
pub enum TableCause {
    // The tables are no pattern.
    Pattern(Fault),
    // The caller's tables are too short for the pattern.
    Room,
}

// A fault of the record layer, or of the block layer below it.
#[derive(Clone, Copy, PartialEq, Eq, Debug)]
pub enum RecordFault {
    Block(BlockFault),
    Record(RecordCause),
}

// A fault of the table layer, or of the record layer below it.
#[derive(Clone, Copy, PartialEq, Eq, Debug)]
pub enum TableFault {
    Record(RecordFault),
    Table(TableCause),
}

impl From<BlockFault> for RecordFault {
    ghost from_gives = { λ e r. r ≡ record-fault.Block e };

    fn from(fault: BlockFault) -> RecordFault {
        RecordFault::Block(fault)
    }
}

impl From<RecordFault> for TableFault {
    ghost from_gives = { λ e r. r ≡ table-fault.Record e };

    fn from(fault: RecordFault) -> TableFault {
        TableFault::Record(fault)
    }
}

impl From<Fault> for TableFault {
    ghost from_gives = { λ e r. r ≡ table-fault.Table (table-cause.Pattern e) };

    fn from(fault: Fault) -> TableFault {
        TableFault::Table(TableCause::Pattern(fault))
    }
}

impl TableFault {
    // The number under which the fault is refused.
    pub fn number(self) -> u8
        ensures { result ≡ (refusal self).number }
    {
        // Stays: the numbers of three layers stand in one list, and a method for each layer would part them.
        match self {
            TableFault::Record(RecordFault::Block(fault)) => fault.number(),
            TableFault::Record(RecordFault::Record(RecordCause::Heading)) => 25,
            TableFault::Record(RecordFault::Record(RecordCause::Length)) => 26,
            TableFault::Record(RecordFault::Record(RecordCause::Buffer)) => 28,
            TableFault::Table(TableCause::Pattern(fault)) => fault.number(),
            TableFault::Table(TableCause::Room) => 27,
        }
    }

    // The layer whose question was answered no.
    pub fn layer(self) -> Layer
        ensures { result ≡ (refusal self).layer }
    {
        match self {
            TableFault::Record(RecordFault::Block(_)) => Layer::Block,
            TableFault::Record(RecordFault::Record(_)) => Layer::Record,
            TableFault::Table(_) => Layer::Table,
        }
    }

    // Where the fault lies: a block, the file's length, a state, a row, otherwise 0.
    pub fn place(self) -> usize
        ensures { result ≡ (refusal self).place }
    {
        match self {
            TableFault::Record(RecordFault::Block(fault)) => fault.place(),
            TableFault::Record(RecordFault::Record(_)) => 0,
            TableFault::Table(TableCause::Pattern(fault)) => fault.place(),
            TableFault::Table(TableCause::Room) => 0,
        }
    }
}
