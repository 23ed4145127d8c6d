//! Why a text is no program.

use src_lexer::LexFault;
use src_names::NameFault;
use src_parser::ParseFault;
use thiserror::Error;

/// The first fault of a text: of its bytes, else of its tokens, else of its names.
#[derive(Clone, Copy, Debug, PartialEq, Eq, Error)]
pub enum SourceFault {
    /// A fault of the bytes.
    #[error("{0}")]
    Lex(LexFault),
    /// A fault of the tokens.
    #[error("{0}")]
    Parse(ParseFault),
    /// A fault of the declarations or of the uses of names.
    #[error("{0}")]
    Names(NameFault),
    /// No memory for the program.
    #[error("no memory")]
    Memory,
}

impl From<LexFault> for SourceFault {
    ghost use Rattle.std.specs.Prelude.{◌≡◌};
    ghost use Rattle.src_front.specs.Lifted.{of_lexer};

    ghost from_gives = { λ fault e. e ≡ of_lexer fault };

    fn from(fault: LexFault) -> Self {
        match fault {
            LexFault::Memory => SourceFault::Memory,
            _ => SourceFault::Lex(fault),
        }
    }
}

impl From<ParseFault> for SourceFault {
    ghost use Rattle.std.specs.Prelude.{◌≡◌};
    ghost use Rattle.src_front.specs.Lifted.{of_parser};

    ghost from_gives = { λ fault e. e ≡ of_parser fault };

    fn from(fault: ParseFault) -> Self {
        match fault {
            ParseFault::Memory => SourceFault::Memory,
            _ => SourceFault::Parse(fault),
        }
    }
}

impl From<NameFault> for SourceFault {
    ghost use Rattle.std.specs.Prelude.{◌≡◌};
    ghost use Rattle.src_front.specs.Lifted.{of_names};

    ghost from_gives = { λ fault e. e ≡ of_names fault };

    fn from(fault: NameFault) -> Self {
        match fault {
            NameFault::Memory => SourceFault::Memory,
            _ => SourceFault::Names(fault),
        }
    }
}
