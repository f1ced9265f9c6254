//! The simple command of `clap` that takes the words apart.
ghost use Rattle.std.specs.Prelude.{◌≡◌, ◌≢◌, ℕ, [], pos, IfOk, Err, codes, map, string_bytes};
ghost use Rattle.clap.specs.Faults.{fault_of};
ghost use Rattle.clap.specs.Matches.{found_of};
ghost use Rattle.clap.specs.Simple.{matches_of};
ghost use Rattle.clap.specs.Walk.{rows_of};
ghost use Rattle.clap.specs.declared.builder.value_parser.ValueParser.TheVariants as values;
ghost use Rattle.dist_words.specs.Clap.{command_rule, files_rule, essential_rule, number_option, package_rule, simple_command};
ghost use Rattle.dist_words.specs.SimpleCommandPrivate.{IsArg, IsMatched, IsSimpleCommand, IsStart};
ghost use Rattle.dist_base.specs.declared.TheConstants.{MAX_MOST};
ghost use Rattle.dist_words.specs.declared.error.WordsError.TheVariants.{BadWords};

use crate::error::WordsError;
use clap::builder::ValueParser;
use clap::error::ErrorKind;
use clap::{Arg, ArgAction, ArgMatches, Command, value_parser};
use dist_base::{MAX_LIMIT, MAX_MOST, MAX_SIZE};
use std::alloc::{AllocError, Global};

/// An option that takes a number within the bounds of its parser.
fn number_option<'a>(alloc: Global, name: &'a str, parser: ValueParser<'a>) -> Arg<'a>
    ensures { (least : ℕ) (greatest : ℕ) → parser.entry ≡ values.Signed (pos least) (pos greatest) → IsArg result (number_option name.entry.now least greatest) }
{
    Arg::new(alloc, name)
        .long(name)
        .action(ArgAction::Set)
        .value_parser(parser)
}

/// The word of the command.
fn command_argument<'a>(alloc: Global) -> Arg<'a>
    ensures { IsArg result command_rule }
{
    Arg::new(alloc, "command")
        .required(true)
        .action(ArgAction::Set)
}

/// The names of files, each of which is a use of its own.
fn files_argument<'a>(alloc: Global) -> Arg<'a>
    ensures { IsArg result files_rule }
{
    Arg::new(alloc, "files").action(ArgAction::Append)
}

/// `--limit`.
fn limit_option<'a>(alloc: Global) -> Arg<'a>
    ensures { IsArg result (number_option (codes "limit") 1 MAX_LIMIT) }
{
    number_option(
        alloc,
        "limit",
        value_parser!(u32).range(1..=i64::from(MAX_LIMIT)),
    )
}

/// `--size`.
fn size_option<'a>(alloc: Global) -> Arg<'a>
    ensures { IsArg result (number_option (codes "size") 1 MAX_SIZE) }
{
    number_option(
        alloc,
        "size",
        value_parser!(u32).range(1..=i64::from(MAX_SIZE)),
    )
}

/// `--seed`.
fn seed_option<'a>(alloc: Global) -> Arg<'a>
    ensures { IsArg result (number_option (codes "seed") 0 4294967295) }
{
    number_option(alloc, "seed", value_parser!(u32))
}

/// `--essential`.
fn essential_flag<'a>(alloc: Global) -> Arg<'a>
    ensures { IsArg result essential_rule }
{
    Arg::new(alloc, "essential")
        .long("essential")
        .action(ArgAction::SetTrue)
        .value_parser(value_parser!(bool))
}

/// `--package`.
fn package_option<'a>(alloc: Global) -> Arg<'a>
    ensures { IsArg result package_rule }
{
    Arg::new(alloc, "package")
        .long("package")
        .action(ArgAction::Set)
}

/// `--most`.
fn most_option<'a>(alloc: Global) -> Arg<'a>
    ensures { IsArg result (number_option (codes "most") 0 MAX_MOST) }
{
    number_option(
        alloc,
        "most",
        value_parser!(u32).range(0..=i64::from(MAX_MOST)),
    )
}

/// The simple command without its arguments. Its words stand after the program's name, and it has neither a help nor a
/// version flag.
fn start<'a>(alloc: Global) -> Command<'a>
    ensures { IsStart result }
{
    Command::new(alloc, "distfuture")
        .no_binary_name(true)
        .disable_help_flag(true)
        .disable_version_flag(true)
}

/// The simple command.
fn simple_command<'a>(alloc: Global) -> Result<Command<'a>, AllocError>
    ensures { IfOk result IsSimpleCommand }
{
    start(alloc)
        .arg(command_argument(alloc))?
        .arg(files_argument(alloc))?
        .arg(limit_option(alloc))?
        .arg(size_option(alloc))?
        .arg(seed_option(alloc))?
        .arg(essential_flag(alloc))?
        .arg(package_option(alloc))?
        .arg(most_option(alloc))
}

/// The matches of the words, or why `clap` refused them.
pub(crate) fn matches_of<'a>(
    alloc: Global,
    words: &'a [String],
) -> Result<ArgMatches<'a>, WordsError>
    ensures matched { IfOk result IsMatched }
    ensures rows { IfOk result (λ matches. rows_of (found_of matches) ≡ matches_of simple_command (map string_bytes words.now)) }
    ensures taken { IfOk result (λ _. fault_of simple_command (map string_bytes words.now) ≡ []) }
    ensures refused { result ≡ Err BadWords → fault_of simple_command (map string_bytes words.now) ≢ [] }
{
    let command = simple_command(alloc)?;
    match command.try_get_matches_from(words) {
        Ok(matches) => Ok(matches),
        Err(error) => match error.kind() {
            ErrorKind::OutOfMemory => Err(WordsError::NoMemory),
            _ => Err(WordsError::BadWords),
        },
    }
}
