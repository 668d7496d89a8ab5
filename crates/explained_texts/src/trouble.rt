//! Why a text was not had.

ghost use Rattle.std.specs.Prelude.{◌≡◌};
ghost use Rattle.explained_texts.specs.Troubles.{IsNoRefusal, IsToldAs, trouble_line};
ghost use Rattle.explained_texts.specs.declared.trouble.Trouble.TheVariants.{NoMemory as memory};

use rail_text::{Cause, NoMemory};
use std::alloc::{AllocError, AllocFailed, Global};

/// Why a text was not had.
#[derive(Debug, Drop)]
pub enum Trouble {
    /// It can't be fetched, or is none that a command takes: what is told of it, a line.
    Untaken(String),
    /// Text `text` is refused, a plan being text 1 and the script of the first box text 2, for what is wrong with that
    /// line, from 1; line 0 is the whole text, or the number of scripts. The explanation stands behind it.
    Refused {
        text: u32,
        line: u32,
        cause: Cause,
        told: String,
    },
    /// Memory ran out.
    NoMemory,
}

impl From<NoMemory> for Trouble {
    ghost from_gives = { λ _ e. e ≡ memory };

    fn from(_: NoMemory) -> Trouble {
        Trouble::NoMemory
    }
}

impl From<AllocError> for Trouble {
    ghost from_gives = { λ _ e. e ≡ memory };

    fn from(_: AllocError) -> Trouble {
        Trouble::NoMemory
    }
}

impl<T: Drop> From<AllocFailed<T>> for Trouble {
    ghost from_gives = { λ _ e. e ≡ memory };

    fn from(_: AllocFailed<T>) -> Trouble {
        Trouble::NoMemory
    }
}

/// What is told of a file, behind its name, in a line.
pub fn trouble_with(alloc: Global, file: &str, what: &str) -> Trouble
    ensures refusal { IsNoRefusal result }
    ensures line { IsToldAs (trouble_line file.now what.now) result }
{
    match format!(in alloc; "signalbox: {file}: {what}\n") {
        Ok(line) => Trouble::Untaken(line),
        Err(AllocError) => Trouble::NoMemory,
    }
}
