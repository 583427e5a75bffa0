//! The command that the words are read by: a function for each argument, with the rule that it makes.
ghost use Rattle.std.specs.Prelude.{◌≡◌, IfOk, List, false, map};
ghost use Rattle.std.specs.Borrow.{Bor};
ghost use Rattle.clap.specs.Words.{Text, app_of, rule_of};
ghost use Rattle.lab_words.specs.Command.{IsCommand, bare_command, mode_rule, modes, size_rule, trace_rule, workers_rule};

use crate::words::{LEAST_SIZE, MOST_SIZE, MOST_WORKERS};
use clap::{Arg, ArgAction, Command, value_parser};
use std::alloc::{AllocError, Global};

/// The names of the modes.
static MODES: [&str; 4] = ["replay", "live", "gen", "check"];

fn workers_argument<'a>(alloc: Global) -> Arg<'a>
    ensures rule { rule_of result ≡ workers_rule }
    ensures local { result.global ≡ false }
{
    Arg::new(alloc, "workers")
        .long("workers")
        .value_parser(value_parser!(u32).range(1..=MOST_WORKERS))
        .default_value("2")
}

fn size_argument<'a>(alloc: Global) -> Arg<'a>
    ensures rule { rule_of result ≡ size_rule }
    ensures local { result.global ≡ false }
{
    Arg::new(alloc, "size")
        .long("size")
        .value_parser(value_parser!(u32).range(LEAST_SIZE..=MOST_SIZE))
        .default_value("3")
}

fn trace_argument<'a>(alloc: Global) -> Arg<'a>
    ensures rule { rule_of result ≡ trace_rule }
    ensures local { result.global ≡ false }
{
    Arg::new(alloc, "trace")
        .long("trace")
        .action(ArgAction::SetTrue)
}

fn mode_argument<'a>(alloc: Global) -> Arg<'a>
    ensures rule { (names : Bor (List (Bor Text))) × (map (λ s. s.now) names.now ≡ modes) × (rule_of result ≡ mode_rule names) }
    ensures local { result.global ≡ false }
{
    Arg::new(alloc, "mode")
        .required(true)
        .value_parser(MODES.as_slice())
}

/// A command without arguments, whose words have no program's name before them.
fn bare_command<'a>(alloc: Global) -> Command<'a>
    ensures { app_of result ≡ bare_command }
{
    Command::new(alloc, "openr_lab")
        .no_binary_name(true)
        .disable_help_flag(true)
        .disable_version_flag(true)
}

/// The command line. Help and version are no words of it.
pub(crate) fn command_line<'a>(alloc: Global) -> Result<Command<'a>, AllocError>
    ensures { IfOk result (λ c. IsCommand (app_of c)) }
{
    bare_command(alloc)
        .arg(workers_argument(alloc))?
        .arg(size_argument(alloc))?
        .arg(trace_argument(alloc))?
        .arg(mode_argument(alloc))
}
