//! The words of a command line, read as a command.
ghost use Rattle.std.specs.Prelude.{◌≡◌, ◌↔◌, ◌≤◌, ℕ, None, Some, IfOk, IsErrOf, IsSomeAnd, map, option_and_then};
ghost use Rattle.clap.specs.Words.{found_of, rows_of, subcommand_rows_of};
ghost use Rattle.command_line.specs.Matches.{HasRun, IsComplete};
ghost use Rattle.command_line.specs.Words.{command_in, command_of, run_in};
ghost use Rattle.command_line.specs.declared.words.Command.TheVariants.{Make};

use crate::numbers::{flag_at, long_number_at, number_at, numbers_at};
use crate::syntax::poolhost_command;
use clap::ArgMatches;
use clap::error::ErrorKind;
use pool_limits::PoolConfig;
use std::alloc::{AllocError, Global};
use thiserror::Error;

/// What the words of a command line ask for.
#[derive(Clone, Copy, Debug, PartialEq, Eq)]
pub enum Command {
    /// `run`: answer a request file under a configuration, by a report or by its summary. Several workers make calls in slices of so
    /// many instructions, or whole where that is 0.
    Run {
        config: PoolConfig,
        summary: bool,
        slice: u32,
    },
    /// `make`: write a request file of so many calls, from 1 to 100,000, that are drawn from a seed.
    Make {
        seed: u64,
        count: u32,
    },
}

/// Why words give no command.
#[derive(Clone, Copy, Debug, PartialEq, Eq, Error)]
pub enum WordsFault {
    /// They are no words of the command, or leave several workers no slot to share.
    #[error("refused words")]
    Refused,
    /// Memory ran out.
    #[error("out of memory")]
    NoMemory,
}

impl From<AllocError> for WordsFault {
    ghost use Rattle.command_line.specs.declared.words.WordsFault.TheVariants.{NoMemory};

    ghost from_gives = { λ _ e. e ≡ NoMemory };

    fn from(_: AllocError) -> Self {
        WordsFault::NoMemory
    }
}

/// The command that the words of a command line give; the first word is the program's name. Source:
/// `specs/Words.antt`, `command_of`.
///
/// # Errors
///
/// `Refused` comes only for words that give no command, and `NoMemory` for want of memory alone.
pub fn read_command(alloc: Global, words: &[&str]) -> Result<Command, WordsFault>
    ensures command { IfOk result (λ c. command_of (map (λ w. w.now) words.now) ≡ Some c) }
    ensures count { IfOk result (λ c. (seed count : ℕ) → c ≡ Make seed count → (1 ≤ count) × (count ≤ 100000)) }
    ensures refused { IsErrOf result WordsFault.Refused → command_of (map (λ w. w.now) words.now) ≡ None }
{
    let syntax = poolhost_command(alloc)?;
    match syntax.try_get_matches_from(words) {
        Ok(matches) => command_at(&matches).ok_or(WordsFault::Refused),
        Err(error) => Err(fault_of_kind(error.kind())),
    }
}

// What the matches of a command line ask for, or none where no configuration has the numbers of a run.
fn command_at(matches: &ArgMatches<'_>) -> Option<Command>
    requires { IsSomeAnd (subcommand_rows_of matches.now) IsComplete }
    ensures command { result ≡ option_and_then command_in (subcommand_rows_of matches.now) }
    ensures count { (seed count : ℕ) → result ≡ Some (Make seed count) → (1 ≤ count) × (count ≤ 100000) }
{
    if let Some(make) = matches.subcommand_matches("make") {
        let seed = long_number_at(make, "seed");
        let count = number_at(make, "count");
        return Some(Command::Make { seed, count });
    }
    run_at(matches.subcommand_matches("run").unwrap())
}

// The run that these matches ask for, or none where no configuration has its numbers.
fn run_at(run: &ArgMatches<'_>) -> Option<Command>
    requires { HasRun (rows_of (found_of run.now)) }
    ensures { result ≡ run_in (rows_of (found_of run.now)) }
{
    match PoolConfig::new(numbers_at(run)) {
        Ok(config) => Some(Command::Run {
            config,
            summary: flag_at(run, "summary"),
            slice: number_at(run, "slice"),
        }),
        Err(_) => None,
    }
}

// Whether a parse failed for want of memory, or by its words.
fn fault_of_kind(kind: ErrorKind) -> WordsFault
    ensures { (result ≡ WordsFault.NoMemory) ↔ (kind ≡ ErrorKind.OutOfMemory) }
{
    match kind {
        ErrorKind::OutOfMemory => WordsFault::NoMemory,
        _ => WordsFault::Refused,
    }
}
