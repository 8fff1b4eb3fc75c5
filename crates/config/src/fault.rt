//! Why a command line asks for nothing.

ghost use Rattle.std.specs.Prelude.{◌≡◌};
ghost use Rattle.config.specs.Asked.{HasStatus};

use clap::Error as WordsError;
use clap::error::ErrorKind;
use std::alloc::AllocError;
use thiserror::Error;

/// Why a command line asks for nothing. Its `Display` is the text for the user.
#[derive(Debug, Drop, Error)]
pub enum ConfigFault {
    /// A growth was refused.
    #[error("1 Starved")]
    Starved,
    /// The words are refused, and the text says which of them is wrong and what would be right; or they ask for help or the
    /// version, and the text is that.
    #[error("{0}")]
    Refused(WordsError),
}

impl ConfigFault {
    /// The exit status: 2 for words that are refused, 0 for help and the version, and 1 for a fault.
    pub fn status(&self) -> u8
        ensures { HasStatus self.now result }
    {
        match self {
            ConfigFault::Starved => 1,
            ConfigFault::Refused(error) => { if error.use_stderr() { 2 } else { 0 } }
        }
    }
}

impl From<AllocError> for ConfigFault {
    ghost use Rattle.std.specs.Prelude.{◌≡◌};
    ghost use Rattle.config.specs.declared.fault.ConfigFault.TheVariants.{Starved};

    ghost from_gives = { λ _ f. f ≡ Starved };

    fn from(_refused: AllocError) -> ConfigFault {
        ConfigFault::Starved
    }
}

impl From<WordsError> for ConfigFault {
    ghost use Rattle.config.specs.Asked.{IsFaultOf};

    ghost from_gives = { IsFaultOf };

    fn from(error: WordsError) -> ConfigFault {
        if error.kind() == ErrorKind::OutOfMemory {
            ConfigFault::Starved
        } else {
            ConfigFault::Refused(error)
        }
    }
}
