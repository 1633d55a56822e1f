// The arguments of `run`.
ghost use Rattle.std.specs.Prelude.{◌≡◌, Some, None, IfOk, IsErrOf};
ghost use Rattle.clap.specs.Words.{app_of};
ghost use Rattle.cs_command.specs.Words.{run_asked, run_line, texts_of, IsInRange};

use crate::{Command, WordsFault};
use clap::{Arg, ArgAction, value_parser};
use std::alloc::{AllocError, Global};

/// Reads the arguments behind the word `run`, the first of the words.
#[tactic(auto, unfolding(crate::specs::Words::run_asked))]
pub(crate) fn read_run(alloc: Global, words: &[String]) -> Result<Command, WordsFault>
    ensures ok { IfOk result (λ command. run_asked (texts_of words.now) ≡ Some command) }
    ensures usage { IsErrOf result WordsFault.Usage → run_asked (texts_of words.now) ≡ None }
    ensures range { IfOk result IsInRange }
{
    let line = run_line(alloc)?;
    let matches = line.try_get_matches_from(words)?;
    let pages = matches.get_one::<u32>("pages").unwrap();
    Ok(Command::Run { pages })
}

// `run`, with its one argument.
fn run_line<'a>(alloc: Global) -> Result<clap::Command<'a>, AllocError>
    ensures { IfOk result (λ line. app_of line ≡ run_line) }
{
    let pages = Arg::new(alloc, "pages")
        .long("pages")
        .action(ArgAction::Set)
        .value_parser(value_parser!(u32).range(1..=1024))
        .default_value("256");
    clap::Command::new(alloc, "run").arg(pages)
}
