//! The faults of a file.
use cdle_model::Count;
use source_model::Wanted;
use surf_lex::LexFault;
use surf_parse::ParseFault;
use thiserror::Error;

/// Why the bytes of a file are no module. Places count the bytes before them.
#[derive(Clone, Copy, Debug, PartialEq, Eq, Error)]
pub enum SourceFault {
    /// The bytes before this place are UTF-8, and with no more of them they are.
    #[error("not UTF-8 at {at}")]
    NotUtf8 { at: u32 },
    /// No token begins with the character at this place.
    #[error("bad character at {at}")]
    BadCharacter { at: u32 },
    /// The comment that begins at this place does not end.
    #[error("open comment at {at}")]
    OpenComment { at: u32 },
    /// The token at this place, or the end, cannot stand there, and this is wanted.
    #[error("unexpected at {at}")]
    Unexpected { at: u32, wanted: Wanted },
    /// With the token at this place nesting would pass 256, or a part is higher than 1,024.
    #[error("too deep at {at}")]
    TooDeep { at: u32 },
    /// There are more constructors, arguments or parameters than may be.
    #[error("too many at {at}")]
    TooMany { at: u32, what: Count },
    /// Memory was wanted and not there.
    #[error("out of memory")]
    NoMemory,
}

impl From<LexFault> for SourceFault {
    ghost use Rattle.std.specs.Prelude.{◌≡◌};
    ghost use Rattle.surf_source.specs.Answers.{of_lexer};

    ghost from_gives = { λ fault result. result ≡ of_lexer fault };

    fn from(fault: LexFault) -> SourceFault {
        match fault {
            LexFault::BadCharacter { at } => SourceFault::BadCharacter { at },
            LexFault::OpenComment { at } => SourceFault::OpenComment { at },
            LexFault::NoMemory => SourceFault::NoMemory,
        }
    }
}

impl From<ParseFault> for SourceFault {
    ghost use Rattle.std.specs.Prelude.{◌≡◌};
    ghost use Rattle.surf_source.specs.Answers.{of_parser};

    ghost from_gives = { λ fault result. result ≡ of_parser fault };

    fn from(fault: ParseFault) -> SourceFault {
        match fault {
            ParseFault::Unexpected { at, wanted } => SourceFault::Unexpected { at, wanted },
            ParseFault::TooDeep { at } => SourceFault::TooDeep { at },
            ParseFault::TooMany { at, what } => SourceFault::TooMany { at, what },
            ParseFault::NoMemory => SourceFault::NoMemory,
        }
    }
}
