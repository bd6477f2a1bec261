//! The command as `clap` builds it.
ghost use Rattle.std.specs.Prelude.{◌≡◌, [], IfOk, false, map, pos};
ghost use Rattle.clap.specs.Words.{app_of, with_rule};
ghost use Rattle.clap.specs.declared.builder.command.Command.TheViews.{out-Command as fields_of};
ghost use Rattle.clap.specs.declared.builder.value_parser.ValueParser.TheVariants as vp;
ghost use Rattle.command_line.specs.Command.{command_named, flag, make_command, number_argument, number_option, number_row, poolhost_command, run_command, with_rules};

use clap::builder::ValueParser;
use clap::{Arg, ArgAction, Command};
use std::alloc::{AllocError, Global};

// The parser of the numbers from `least` to `most`.
fn number_from_to<'a>(least: u32, most: u32) -> ValueParser<'a>
    ensures { result ≡ vp.Signed (pos least) (pos most) }
{
    clap::value_parser!(u32).range(least as i64..=most as i64)
}

// The command with one more option, whose number lies in a range.
fn with_number<'a>(
    alloc: Global,
    command: Command<'a>,
    name: &'a str,
    least: u32,
    most: u32,
    default: &'a str,
) -> Result<Command<'a>, AllocError>
    requires { (fields_of command).has_globals ≡ false }
    ensures app { IfOk result (λ r. app_of r
        ≡ with_rule (app_of command.entry)
        (number_option name.entry.now least most default.entry.now)) }
    ensures local { IfOk result (λ r. (fields_of r).has_globals ≡ false) }
{
    let option = Arg::new(alloc, name)
        .long(name)
        .action(ArgAction::Set)
        .value_parser(number_from_to(least, most))
        .default_value(default);
    command.arg(option)
}

// The command with an option for each row, which has its name, the least and the most of its numbers, and its default.
fn with_numbers<'a>(
    alloc: Global,
    command: Command<'a>,
    rows: &[(&'a str, u32, u32, &'a str)],
) -> Result<Command<'a>, AllocError>
    requires { (fields_of command).has_globals ≡ false }
    ensures app { IfOk result (λ r. app_of r ≡ with_rules (app_of command.entry) (map number_row rows.now)) }
    ensures local { IfOk result (λ r. (fields_of r).has_globals ≡ false) }
{
    let mut with_rows = command;
    for row in rows {
        let (name, least, most, default) = *row;
        with_rows = with_number(alloc, with_rows, name, least, most, default)?;
    }
    Ok(with_rows)
}

// The command with a flag.
fn with_flag<'a>(
    alloc: Global,
    command: Command<'a>,
    name: &'a str,
) -> Result<Command<'a>, AllocError>
    requires { (fields_of command).has_globals ≡ false }
    ensures app { IfOk result (λ r. app_of r ≡ with_rule (app_of command.entry) (flag name.entry.now)) }
    ensures local { IfOk result (λ r. (fields_of r).has_globals ≡ false) }
{
    let option = Arg::new(alloc, name).long(name).action(ArgAction::SetTrue);
    command.arg(option)
}

// The command with one more number, which must be given in its place among the words.
fn with_argument<'a>(
    alloc: Global,
    command: Command<'a>,
    name: &'a str,
    parser: ValueParser<'a>,
) -> Result<Command<'a>, AllocError>
    requires { (fields_of command).has_globals ≡ false }
    ensures app { IfOk result (λ r. app_of r
        ≡ with_rule (app_of command.entry) (number_argument name.entry.now parser.entry)) }
    ensures local { IfOk result (λ r. (fields_of r).has_globals ≡ false) }
{
    let argument = Arg::new(alloc, name)
        .required(true)
        .action(ArgAction::Set)
        .value_parser(parser);
    command.arg(argument)
}

// The command of this name, with no help and no rule yet.
fn command_named<'a>(alloc: Global, name: &'a str) -> Command<'a>
    ensures app { app_of result ≡ command_named name.entry.now [] }
    ensures local { (fields_of result).has_globals ≡ false }
{
    Command::new(alloc, name).disable_help_flag(true)
}

// `run`, with its options and its flag.
fn run_command<'a>(alloc: Global) -> Result<Command<'a>, AllocError>
    ensures app { IfOk result (λ r. app_of r ≡ run_command) }
    ensures local { IfOk result (λ r. (fields_of r).has_globals ≡ false) }
{
    let options = [
        ("workers", 1, 16, "1"),
        ("instances", 1, 1_024, "4"),
        ("memories", 1, 1_024, "4"),
        ("tables", 1, 1_024, "4"),
        ("warm", 0, 1_024, "2"),
        ("batch", 1, 1_024, "4"),
        ("pages", 1, 256, "32"),
        ("elements", 0, 65536, "1024"),
        ("depth", 1, 1000, "128"),
        ("frame", 1, 4096, "1024"),
        ("slice", 0, u32::MAX, "0"),
    ];
    let run = with_numbers(alloc, command_named(alloc, "run"), &options)?;
    with_flag(alloc, run, "summary")
}

// `make`, with its arguments.
fn make_command<'a>(alloc: Global) -> Result<Command<'a>, AllocError>
    ensures app { IfOk result (λ r. app_of r ≡ make_command) }
    ensures local { IfOk result (λ r. (fields_of r).has_globals ≡ false) }
{
    let empty = command_named(alloc, "make");
    let seed = with_argument(alloc, empty, "seed", ValueParser::unsigned(0, u64::MAX))?;
    with_argument(alloc, seed, "count", number_from_to(1, 100_000))
}

// `poolhost`, with its subcommands.
pub(crate) fn poolhost_command<'a>(alloc: Global) -> Result<Command<'a>, AllocError>
    ensures app { IfOk result (λ r. app_of r ≡ poolhost_command) }
    ensures local { IfOk result (λ r. (fields_of r).has_globals ≡ false) }
{
    let run = run_command(alloc)?;
    let with_run = command_named(alloc, "poolhost")
        .disable_help_subcommand(true)
        .subcommand_required(true)
        .subcommand(run)?;
    let make = make_command(alloc)?;
    with_run.subcommand(make)
}
