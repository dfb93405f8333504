//! How a command ends.
use cdle_model::{Count, Text};
use core_tree::{Path, Why};
use elab_model::Code;

/// What a command came to.
#[derive(Drop)]
pub enum Outcome {
    /// Every input was read to its end, and so many items were accepted; `core` has no modules. `build` has written them too.
    Ok {
        modules: u32,
        items: u32,
    },
    /// The file does not meet its grammar or its scope at this byte.
    Malformed {
        file: Text,
        at: u32,
        what: Badness,
    },
    /// The words are no command.
    Usage,
    /// What stands there breaks a rule.
    Refused {
        place: Spot,
        why: Reason,
    },
    /// A comparison or a head form spent the budget there, and what asked for it was neither accepted nor refused.
    Undecided {
        place: Spot,
        budget: u64,
    },
    /// The file could not be read.
    ReadFault {
        file: Text,
    },
    /// The file could not be written, or with none the report.
    WriteFault {
        file: Option<Text>,
    },
    /// Memory was wanted and not there.
    NoMemory,
    /// What was read back of the file is not what was written, first at this byte; with none the bytes had ended there.
    ReadBack {
        file: Text,
        at: u32,
        wrote: Option<u8>,
        read: Option<u8>,
    },
    /// More of this than the program takes: in the file of that name, or for the depth in the item.
    Limit {
        name: Text,
        what: Count,
    },
    /// The file is not there.
    Missing {
        file: Text,
    },
}

/// What is wrong with a text.
#[derive(Debug, Drop)]
pub enum Badness {
    /// The bytes before the place are the longest beginning that is UTF-8.
    NotUtf8,
    /// The grammar wants this there.
    Wanted(Text),
    /// This name stands for nothing.
    Unbound(Text),
    /// This name stands for a type where a term is wanted, or the other way round.
    WrongClass(Text),
    /// An item before this one has this name.
    Twice(Text),
    /// No token begins with the character.
    BadCharacter,
    /// The comment that begins there does not end.
    OpenComment,
}

/// Where something is refused.
#[derive(Debug, Drop)]
pub enum Spot {
    /// The item of that name, and the place inside it; for a repeated name the path is empty.
    CoreSpot { item: Text, path: Path },
    /// This byte of the file.
    FileSpot { file: Text, at: u32 },
}

/// Why something is refused.
#[derive(Drop)]
pub enum Reason {
    /// By a rule of Core.
    Core(Why),
    /// An earlier item, of this number over all files, has its name.
    Duplicate { earlier: u32 },
    /// By a surface rule.
    Surface(Code),
    /// The form, import or datatype is not built yet.
    NotBuilt,
}

impl Outcome {
    ghost use Rattle.std.specs.Prelude.{◌≡◌};
    ghost use Rattle.build_outcome.specs.Reports.{status_of};

    /// The status with which the program ends.
    pub fn status(&self) -> u8
        ensures { result ≡ status_of self.now }
    {
        match self {
            Outcome::Ok { .. } => 0,
            Outcome::Malformed { .. } => 1,
            Outcome::Usage => 2,
            Outcome::Refused { .. } => 3,
            Outcome::Undecided { .. } => 4,
            Outcome::ReadFault { .. } => 5,
            Outcome::WriteFault { .. } => 6,
            Outcome::NoMemory => 7,
            Outcome::ReadBack { .. } => 8,
            Outcome::Limit { .. } => 9,
            Outcome::Missing { .. } => 10,
        }
    }
}
