// The command line, for `clap`.
ghost use Rattle.std.specs.Prelude.{◌≡◌, IfOk, false};
ghost use Rattle.clap.specs.Words.{app_of, new_rule, rule_of};
ghost use Rattle.nvm_words.specs.Grammar.{bare as bare_told, line as line_told, needed as needed_rule};

use clap::{Arg, Command};
use std::alloc::{AllocError, Global};

// A positional that has to be given.
fn needed<'a>(alloc: Global, name: &'a str) -> Arg<'a>
    ensures rule { rule_of result ≡ needed_rule (new_rule name.entry.now) }
    ensures own { result.global ≡ false }
{
    Arg::new(alloc, name).required(true)
}

// The command line before its positionals, without help and without options.
fn bare<'a>(alloc: Global) -> Command<'a>
    ensures { app_of result ≡ bare_told }
{
    Command::new(alloc, "nvm")
        .no_binary_name(true)
        .disable_help_flag(true)
}

/// Four positionals, the last two optional, without help and without options.
pub(crate) fn line<'a>(alloc: Global) -> Result<Command<'a>, AllocError>
    ensures { IfOk result (λ c. app_of c ≡ line_told) }
{
    bare(alloc)
        .arg(needed(alloc, "IMAGE"))?
        .arg(needed(alloc, "COMMAND"))?
        .arg(Arg::new(alloc, "THIRD"))?
        .arg(Arg::new(alloc, "FOURTH"))
}
