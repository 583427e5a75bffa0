ghost use Rattle.std.specs.Prelude.{◌≡◌, ◌≢◌, Err, IfOk, List, None, Some, codes, false, map, option_map, string_bytes, ℕ};
ghost use Rattle.std.specs.Option.{option_map_or};
ghost use Rattle.std.specs.Borrow.{Bor};
ghost use Rattle.std.specs.Str.{bytes_eq};
ghost use Rattle.clap.specs.Words.{found_of, one_of, rows_of};
ghost use Rattle.lab_words.specs.Examples.{HasExamples};
ghost use Rattle.lab_words.specs.Words.{IsInRange, asked_in, mode_named, number_in, words_of};

use crate::command::command_line;
use crate::words::{Mode, Words, WordsFault};
use clap::ArgMatches;
use clap::error::ErrorKind;
use std::alloc::Global;

/// The mode with this name. `clap` lets no other name through, and none missing.
fn mode_of(name: Option<&str>) -> Mode
    ensures { result ≡ option_map_or mode_named (option_map (λ (s : Bor (List ℕ)). s.now) name.entry) Mode.Check }
{
    match name {
        Some("replay") => Mode::Replay,
        Some("live") => Mode::Live,
        Some("gen") => Mode::Gen,
        _ => Mode::Check,
    }
}

/// The number of the option `id`, which has a default. So the 0 never comes.
fn number_of(matches: &ArgMatches<'_>, id: &str) -> u32
    ensures { result ≡ option_map_or number_in (one_of id.now (rows_of (found_of matches.now))) 0 }
{
    matches.get_one::<u32>(id).unwrap_or(0)
}

/// Whether a flag was given: `clap` writes `true` for one that was.
fn is_given(flag: Option<&str>) -> bool
    ensures { result ≡ option_map_or (λ text. bytes_eq text (codes "true")) (option_map (λ (s : Bor (List ℕ)). s.now) flag.entry) false }
{
    match flag {
        Some(text) => text == "true",
        None => false,
    }
}

/// What the matches ask for.
#[tactic(auto, using(crate::proofs::Numbers::first_rows))]
fn asked_in(matches: &ArgMatches<'_>) -> Words
    ensures { result ≡ asked_in (rows_of (found_of matches.now)) }
{
    Words {
        mode: mode_of(matches.get_str("mode")),
        workers: number_of(matches, "workers"),
        size: number_of(matches, "size"),
        trace: is_given(matches.get_str("trace")),
    }
}

/// The fault that an error of `clap` of this kind is: out of memory exactly where `clap` ran out of it.
fn fault_of_kind(kind: ErrorKind) -> WordsFault
    ensures memory { result ≡ WordsFault.NoMemory → kind ≡ ErrorKind.OutOfMemory }
    ensures usage { result ≡ WordsFault.Usage → kind ≢ ErrorKind.OutOfMemory }
{
    match kind {
        ErrorKind::OutOfMemory => WordsFault::NoMemory,
        _ => WordsFault::Usage,
    }
}

/// What the words ask for; the program's name is none of them.
pub fn read_words(alloc: Global, words: &[String]) -> Result<Words, WordsFault>
    ensures asked { IfOk result (λ asked. words_of (map string_bytes words.now) ≡ Some asked) }
    ensures usage { result ≡ Err WordsFault.Usage → words_of (map string_bytes words.now) ≡ None }
    ensures range { IfOk result IsInRange }
{
    let Ok(command) = command_line(alloc) else {
        return Err(WordsFault::NoMemory);
    };
    match command.try_get_matches_from(words) {
        Ok(matches) => Ok(asked_in(&matches)),
        Err(error) => Err(fault_of_kind(error.kind())),
    }
}

/// What some command lines ask for, and some that are refused.
pub fn command_line_examples()
    ensures { HasExamples }
{}
