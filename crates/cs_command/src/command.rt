// What the words of the command line ask for.
ghost use Rattle.std.specs.Prelude.{◌≡◌, Some, None, IfOk, IsErrOf};
ghost use Rattle.cs_command.specs.Words.{asked, texts_of, IsInRange};

use crate::fault::WordsFault;
use crate::run::read_run;
use crate::trim::read_trim;
use std::alloc::Global;

/// What the words ask for.
#[derive(Clone, Copy, PartialEq, Eq, Debug)]
pub enum Command {
    /// To run a script, with up to `pages` pages cached, 1 to 1,024.
    Run { pages: u32 },
    /// To run a script of a store that gives up clones.
    Trim,
}

/// Reads the words behind the program's name: the command's word, and behind it the arguments, which
/// `clap` reads. `Usage` comes exactly where there is no word, where the first is no command's, and
/// where `clap` refuses the arguments, a call for help or for the version among them.
#[tactic(auto, unfolding(crate::specs::Words::asked))]
pub fn read_command(alloc: Global, words: &[String]) -> Result<Command, WordsFault>
    ensures ok { IfOk result (λ command. asked (texts_of words.now) ≡ Some command) }
    ensures usage { IsErrOf result WordsFault.Usage → asked (texts_of words.now) ≡ None }
    ensures range { IfOk result IsInRange }
{
    let Some(word) = words.first() else {
        return Err(WordsFault::Usage);
    };
    match word.as_str() {
        "run" => read_run(alloc, words),
        "trim" => read_trim(alloc, words),
        _ => Err(WordsFault::Usage),
    }
}
