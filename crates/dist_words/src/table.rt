//! The table of the commands.
ghost use Rattle.std.specs.Prelude.{◌≡◌, ◌≤◌, ◌&&◌, IfOk, IfSome, Err, Some, map, option_map, string_bytes};
ghost use Rattle.clap.specs.Matches.{found_of};
ghost use Rattle.clap.specs.Walk.{rows_of};
ghost use Rattle.dist_words.specs.Clap.{taken_of};
ghost use Rattle.dist_words.specs.SimpleCommandPrivate.{IsMatched};
ghost use Rattle.dist_words.specs.CommandLine.{Health, Classes, Check, CheckExplain, CheckRepair, Follow, Steps};
ghost use Rattle.dist_words.specs.Lines.{HasLimit, IsLimit, IsSize, line_of, names, seen};
ghost use Rattle.dist_words.specs.Table.{IsBadWords, accepted, command_of, explain_row, has_no_limit, has_no_option, has_no_seed, in_table, names_none, repair_row, row_command, seeded, sweep_row, where_allowed, with_none, with_one, with_three, with_two};
ghost use Rattle.dist_base.specs.declared.TheConstants.{MAX_MOST};
ghost use Rattle.dist_words.specs.declared.error.WordsError.TheVariants.{BadWords};

use crate::DEFAULT_MOST;
use crate::clap_command::matches_of;
use crate::command::{
    CertFiles, Command, ExplainWords, FollowFiles, HealthFiles, RepairWords, StepsFiles,
    SweepWords, TryWords,
};
use crate::error::WordsError;
use crate::taken::{Options, options_of};
use clap::ArgMatches;
use dist_base::DEFAULT_LIMIT;
use dist_cert::CertKind;
use std::alloc::Global;

/// The command of the words, which stand after the program's name.
#[tactic(auto, unfolding(crate::specs::Table::command_of))]
pub fn command_of<'a>(alloc: Global, words: &'a [String]) -> Result<Command<'a>, WordsError>
    ensures command { IfOk result (λ command. command_of (map string_bytes words.now) ≡ Some (line_of command)) }
    ensures bad { result ≡ Err BadWords → IsBadWords (map string_bytes words.now) }
    ensures limit { IfOk result HasLimit }
{
    let matches = matches_of(alloc, words)?;
    match accepted(&matches) {
        Some(command) => Ok(command),
        None => Err(WordsError::BadWords),
    }
}

/// The command that the table has for the matches.
fn accepted<'a>(matches: &ArgMatches<'a>) -> Option<Command<'a>>
    requires { IsMatched matches.now }
    ensures command { option_map line_of result ≡ accepted (taken_of (rows_of (found_of matches.now))) }
    ensures limit { IfSome result HasLimit }
{
    let options = options_of(matches);
    let word = matches.get_str("command").unwrap_or("");
    match matches.get_strs("files") {
        Some(files) => in_table(word, files, options),
        None => in_table(word, &[], options),
    }
}

/// The command of a word.
fn in_table<'a>(word: &str, files: &[&'a str], options: Options<'a>) -> Option<Command<'a>>
    requires limit { IfSome options.limit IsLimit }
    requires size { IfSome options.size IsSize }
    requires most { IfSome options.most (λ most. most ≤ MAX_MOST) }
    ensures command { option_map line_of result ≡ in_table word.now (names files.now) (seen options.entry) }
    ensures limit { IfSome result HasLimit }
{
    if word == "health" {
        health(files, options)
    } else if word == "classes" {
        classes(files, options)
    } else if word == "strong" {
        sweep(CertKind::Strong, files, options)
    } else if word == "outdated" {
        sweep(CertKind::Outdated, files, options)
    } else if word == "challenged" {
        sweep(CertKind::Challenged, files, options)
    } else if word == "check" {
        check(files, options)
    } else if word == "check-explain" {
        check_explain(files, options)
    } else if word == "explain" {
        explain(files, options)
    } else if word == "check-repair" {
        check_repair(files, options)
    } else if word == "repair" {
        repair(files, options)
    } else if word == "try" {
        seeded(files, options)
    } else if word == "steps" {
        steps(files, options)
    } else if word == "follow" {
        follow(files, options)
    } else {
        None
    }
}

/// Neither a size nor a seed stands.
fn has_no_seed(options: Options<'_>) -> bool
    ensures { result ≡ has_no_seed (seen options.entry) }
{
    options.size.is_none() && options.seed.is_none()
}

/// Neither a limit nor the flag stands.
fn has_no_limit(options: Options<'_>) -> bool
    ensures { result ≡ has_no_limit (seen options.entry) }
{
    options.limit.is_none() && !options.essential
}

/// No package is named, and nothing is counted.
fn names_none(options: Options<'_>) -> bool
    ensures { result ≡ names_none (seen options.entry) }
{
    options.named.is_none() && options.most.is_none()
}

/// No option stands.
fn has_no_option(options: Options<'_>) -> bool
    ensures { result ≡ has_no_option (seen options.entry) }
{
    has_no_seed(options) && has_no_limit(options) && names_none(options)
}

/// `health PACKAGES LIST`.
fn health<'a>(files: &[&'a str], options: Options<'_>) -> Option<Command<'a>>
    ensures { option_map line_of result ≡ where_allowed (has_no_option (seen options.entry)) (with_two Health (names files.now)) }
{
    match files {
        [packages, list] if has_no_option(options) => {
            Some(Command::Health(HealthFiles { packages, list }))
        }
        _ => None,
    }
}

/// `classes PACKAGES`.
fn classes<'a>(files: &[&'a str], options: Options<'_>) -> Option<Command<'a>>
    ensures { option_map line_of result ≡ where_allowed (has_no_option (seen options.entry)) (with_one Classes (names files.now)) }
{
    match files {
        [packages] if has_no_option(options) => Some(Command::Classes(packages)),
        _ => None,
    }
}

/// `strong`, `outdated` or `challenged PACKAGES CERT`, by its kind.
fn sweep<'a>(kind: CertKind, files: &[&'a str], options: Options<'_>) -> Option<Command<'a>>
    requires { IfSome options.limit IsLimit }
    ensures command { option_map line_of result ≡ row_command (sweep_row kind) (names files.now) (seen options.entry) }
    ensures limit { IfSome result HasLimit }
{
    match files {
        [packages, cert] if has_no_seed(options) && names_none(options) => {
            Some(Command::Sweep(SweepWords {
                kind,
                packages,
                cert,
                essential: options.essential,
                limit: options.limit.unwrap_or(DEFAULT_LIMIT),
            }))
        }
        _ => None,
    }
}

/// `check PACKAGES CERT`.
fn check<'a>(files: &[&'a str], options: Options<'_>) -> Option<Command<'a>>
    ensures { option_map line_of result ≡ where_allowed (has_no_option (seen options.entry)) (with_two Check (names files.now)) }
{
    match files {
        [packages, cert] if has_no_option(options) => {
            Some(Command::Check(CertFiles { packages, cert }))
        }
        _ => None,
    }
}

/// `check-explain PACKAGES CERT`.
fn check_explain<'a>(files: &[&'a str], options: Options<'_>) -> Option<Command<'a>>
    ensures { option_map line_of result ≡ where_allowed (has_no_option (seen options.entry)) (with_two CheckExplain (names files.now)) }
{
    match files {
        [packages, cert] if has_no_option(options) => {
            Some(Command::CheckExplain(CertFiles { packages, cert }))
        }
        _ => None,
    }
}

/// `explain PACKAGES CERT`, with a package that is named.
fn explain<'a>(files: &[&'a str], options: Options<'a>) -> Option<Command<'a>>
    requires { IfSome options.limit IsLimit }
    ensures command { option_map line_of result ≡ row_command explain_row (names files.now) (seen options.entry) }
    ensures limit { IfSome result HasLimit }
{
    match (files, options.named) {
        ([packages, cert], Some(named))
            if has_no_seed(options) && !options.essential && options.most.is_none() => {
            Some(Command::Explain(ExplainWords {
                packages,
                cert,
                named,
                limit: options.limit.unwrap_or(DEFAULT_LIMIT),
            }))
        }
        _ => None,
    }
}

/// `check-repair PACKAGES CERT`.
fn check_repair<'a>(files: &[&'a str], options: Options<'_>) -> Option<Command<'a>>
    ensures { option_map line_of result ≡ where_allowed (has_no_option (seen options.entry)) (with_two CheckRepair (names files.now)) }
{
    match files {
        [packages, cert] if has_no_option(options) => {
            Some(Command::CheckRepair(CertFiles { packages, cert }))
        }
        _ => None,
    }
}

/// `repair PACKAGES CERT`, with a package that is named.
fn repair<'a>(files: &[&'a str], options: Options<'a>) -> Option<Command<'a>>
    requires limit { IfSome options.limit IsLimit }
    requires most { IfSome options.most (λ most. most ≤ MAX_MOST) }
    ensures command { option_map line_of result ≡ row_command repair_row (names files.now) (seen options.entry) }
    ensures limit { IfSome result HasLimit }
{
    match (files, options.named) {
        ([packages, cert], Some(named)) if has_no_seed(options) && !options.essential => {
            Some(Command::Repair(RepairWords {
                packages,
                cert,
                named,
                most: options.most.unwrap_or(DEFAULT_MOST),
                limit: options.limit.unwrap_or(DEFAULT_LIMIT),
            }))
        }
        _ => None,
    }
}

/// `try`, with a size and a seed.
fn seeded<'a>(files: &[&'a str], options: Options<'_>) -> Option<Command<'a>>
    requires { IfSome options.size IsSize }
    ensures command { option_map line_of result
        ≡ where_allowed (has_no_limit (seen options.entry) && names_none (seen options.entry)) (with_none (seeded options.entry.size options.entry.seed) (names files.now)) }
    ensures limit { IfSome result HasLimit }
{
    match (files, options.size, options.seed) {
        ([], Some(size), Some(seed)) if has_no_limit(options) && names_none(options) => {
            Some(Command::Try(TryWords { size, seed }))
        }
        _ => None,
    }
}

/// `steps PACKAGES LATER`.
fn steps<'a>(files: &[&'a str], options: Options<'_>) -> Option<Command<'a>>
    ensures { option_map line_of result ≡ where_allowed (has_no_option (seen options.entry)) (with_two Steps (names files.now)) }
{
    match files {
        [packages, later] if has_no_option(options) => {
            Some(Command::Steps(StepsFiles { packages, later }))
        }
        _ => None,
    }
}

/// `follow PACKAGES CERT JOURNAL`.
fn follow<'a>(files: &[&'a str], options: Options<'_>) -> Option<Command<'a>>
    ensures { option_map line_of result ≡ where_allowed (has_no_option (seen options.entry)) (with_three Follow (names files.now)) }
{
    match files {
        [packages, cert, journal] if has_no_option(options) => {
            Some(Command::Follow(FollowFiles {
                packages,
                cert,
                journal,
            }))
        }
        _ => None,
    }
}
