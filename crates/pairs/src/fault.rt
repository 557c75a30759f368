// Why "B without A" was not made.
ghost use Rattle.std.specs.Prelude.{◌≡◌};
ghost use Rattle.pairs.specs.declared.fault.FilesFault.TheVariants as files;
ghost use Rattle.pairs.specs.Refusals.{pair_layer, pair_number, pair_place, files_number, files_place};

use files::fault::TableFault;

// The layer of every refusal here: it lies above those of a file.
const PAIR_LAYER: &str = "pair";

// What refuses two patterns.
#[derive(Clone, Copy, PartialEq, Eq, Debug)]
pub enum PairFault {
    // There would be more than 64 states.
    States,
    // There would be more than 1,024 rows.
    Rows,
    // The caller's tables are too short.
    Room,
}

// What refuses two files. A file's own fault is carried whole.
#[derive(Clone, Copy, PartialEq, Eq, Debug)]
pub enum FilesFault {
    // The earlier entry's file is not accepted.
    Earlier(TableFault),
    // The later entry's file is not accepted.
    Later(TableFault),
    // Both are, and the two patterns are refused.
    Pair(PairFault),
}

impl From<PairFault> for FilesFault {
    ghost from_gives = { λ e r. r ≡ files.Pair e };

    fn from(e: PairFault) -> FilesFault {
        FilesFault::Pair(e)
    }
}

impl PairFault {
    // The number under which the two patterns are refused.
    pub fn number(self) -> u8
        ensures { result ≡ pair_number self }
    {
        match self {
            PairFault::States => 31,
            PairFault::Rows => 32,
            PairFault::Room => 33,
        }
    }

    // The layer that the refusal names.
    pub fn layer(self) -> &'static str
        ensures { result.now ≡ pair_layer }
    {
        PAIR_LAYER
    }

    // No question about two patterns has a place of its own.
    pub fn place(self) -> usize
        ensures { result ≡ pair_place self }
    {
        match self {
            PairFault::States | PairFault::Rows | PairFault::Room => 0,
        }
    }
}

impl FilesFault {
    // The number under which the two files are refused.
    pub fn number(self) -> u8
        ensures { result ≡ files_number self }
    {
        match self {
            FilesFault::Earlier(_) => 29,
            FilesFault::Later(_) => 30,
            FilesFault::Pair(fault) => fault.number(),
        }
    }

    // The layer that the refusal names, whichever layer of a file is at fault.
    pub fn layer(self) -> &'static str
        ensures { result.now ≡ pair_layer }
    {
        PAIR_LAYER
    }

    // Where the refusal lies: 0. Where a file's own fault lies, that fault says.
    pub fn place(self) -> usize
        ensures { result ≡ files_place self }
    {
        match self {
            FilesFault::Earlier(_) | FilesFault::Later(_) => 0,
            FilesFault::Pair(fault) => fault.place(),
        }
    }
}
