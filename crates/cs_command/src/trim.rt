// The arguments of `trim`, which are none.
ghost use Rattle.std.specs.Prelude.{◌≡◌, Some, None, IfOk, IsErrOf};
ghost use Rattle.cs_command.specs.Words.{trim_asked, texts_of, IsInRange};

use crate::{Command, WordsFault};
use std::alloc::Global;

/// Reads the arguments behind the word `trim`, the first of the words.
#[tactic(auto, unfolding(crate::specs::Words::trim_asked))]
pub(crate) fn read_trim(alloc: Global, words: &[String]) -> Result<Command, WordsFault>
    ensures ok { IfOk result (λ command. trim_asked (texts_of words.now) ≡ Some command) }
    ensures usage { IsErrOf result WordsFault.Usage → trim_asked (texts_of words.now) ≡ None }
    ensures range { IfOk result IsInRange }
{
    let _matches = clap::Command::new(alloc, "trim").try_get_matches_from(words)?;
    Ok(Command::Trim)
}
