// All that commands take, as a command of `clap`.
ghost use Rattle.std.specs.Prelude.{◌≡◌, IfOk, false};
ghost use Rattle.clap.specs.Words.{app_of, rule_of};
ghost use Rattle.command_line.specs.Syntax.{option, syntax};

use clap::{Arg, Command};
use std::alloc::{AllocError, Global};

// An option with a value.
fn option<'a>(alloc: Global, name: &'a str) -> Arg<'a>
    ensures rule { rule_of result ≡ option name.entry.now }
    ensures local { result.global ≡ false }
{
    Arg::new(alloc, name).long(name)
}

/// Up to three positional words, and each option of any command. Which of them a command takes is decided
/// where they are known.
pub(crate) fn syntax<'a>(alloc: Global) -> Result<Command<'a>, AllocError>
    ensures { IfOk result (λ command. app_of command ≡ syntax) }
{
    Command::new(alloc, "flux")
        .no_binary_name(true)
        .disable_help_flag(true)
        .arg(Arg::new(alloc, "first"))?
        .arg(Arg::new(alloc, "second"))?
        .arg(Arg::new(alloc, "third"))?
        .arg(option(alloc, "cash"))?
        .arg(option(alloc, "script"))?
        .arg(option(alloc, "threads"))?
        .arg(option(alloc, "turns"))?
        .arg(option(alloc, "journal"))
}
