//! The numbers and the flag that a command is given.
ghost use Rattle.std.specs.Prelude.{◌≡◌};
ghost use Rattle.clap.specs.Words.{found_of, one_of, rows_of};
ghost use Rattle.command_line.specs.Matches.{HasNumbers, IsFlag, IsNumberIn, is_set, number_in, numbers_in};

use clap::ArgMatches;
use pool_limits::Numbers;

// The number under an id, which the parse has found to be one.
pub(crate) fn number_at(matches: &ArgMatches<'_>, id: &str) -> u32
    requires { IsNumberIn 0 u32.MAX (one_of id.now (rows_of (found_of matches.now))) }
    ensures { result ≡ number_in id.now (rows_of (found_of matches.now)) }
{
    matches.get_one::<u32>(id).unwrap()
}

// The number of 64 bits under an id, which the parse has found to be one.
pub(crate) fn long_number_at(matches: &ArgMatches<'_>, id: &str) -> u64
    requires { IsNumberIn 0 u64.MAX (one_of id.now (rows_of (found_of matches.now))) }
    ensures { result ≡ number_in id.now (rows_of (found_of matches.now)) }
{
    matches.get_one::<u64>(id).unwrap()
}

// Whether a flag is set.
pub(crate) fn flag_at(matches: &ArgMatches<'_>, id: &str) -> bool
    requires { IsFlag (one_of id.now (rows_of (found_of matches.now))) }
    ensures { result ≡ is_set id.now (rows_of (found_of matches.now)) }
{
    matches.get_flag(id)
}

// The numbers of a configuration, from the matches of `run`.
pub(crate) fn numbers_at(run: &ArgMatches<'_>) -> Numbers
    requires { HasNumbers (rows_of (found_of run.now)) }
    ensures { result ≡ numbers_in (rows_of (found_of run.now)) }
{
    Numbers {
        workers: number_at(run, "workers"),
        instances: number_at(run, "instances"),
        memories: number_at(run, "memories"),
        tables: number_at(run, "tables"),
        warm: number_at(run, "warm"),
        batch: number_at(run, "batch"),
        pages: number_at(run, "pages"),
        elements: number_at(run, "elements"),
        depth: number_at(run, "depth"),
        frame: number_at(run, "frame"),
    }
}
