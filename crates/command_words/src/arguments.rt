//! The options of the commands as one table, and what `clap` finds of them.

ghost use Rattle.std.specs.Prelude.{◌≡◌, ◌≢◌, Some, None, IfOk, IsErrOf, option_map, map, drop, false, IsUtf8};
ghost use Rattle.std.specs.List.{All};
ghost use Rattle.clap.specs.Words.{app_of, rule_of};
ghost use Rattle.command_words.specs.Arguments.{name_of, option_named, given_by_words, at_most_one, module_in, flag_in, number_within, number_in};
ghost use Rattle.command_words.specs.Clap.{values_of, option_rule, module_rule, app, given_in};
ghost use Rattle.command_words.specs.declared.arguments.Argument.TheVariants.{Seed};

use crate::command::WordsFault;
use clap::error::ErrorKind;
use clap::{Arg, ArgAction, ArgMatches, Command};
use quartz_tree::NoMemory;
use std::alloc::Global;

/// What a command takes: its module and its options. This is the one table of them: what is built of
/// it for `clap`, and what is asked of a parse, goes by `name` and `values` alone.
#[derive(Clone, Copy, Debug)]
pub(crate) enum Argument {
    Module,
    Stages,
    Workers,
    Ring,
    MaxSteps,
    Witness,
    Strict,
    Seed,
    Steps,
    To,
}

impl Argument {
    fn name<'a>(self) -> &'a str
        ensures { result.now ≡ name_of self }
    {
        match self {
            Argument::Module => "M",
            Argument::Stages => "stages",
            Argument::Workers => "workers",
            Argument::Ring => "ring",
            Argument::MaxSteps => "max-steps",
            Argument::Witness => "witness",
            Argument::Strict => "strict",
            Argument::Seed => "seed",
            Argument::Steps => "steps",
            Argument::To => "to",
        }
    }

    // How many values a use of it takes.
    fn values(self) -> usize
        ensures { result ≡ values_of self }
    {
        match self {
            Argument::Witness | Argument::Strict => 0,
            _ => 1,
        }
    }
}

// An option. Each use of it adds its value, and a use without a value adds the empty text.
fn option<'a>(alloc: Global, option: Argument) -> Arg<'a>
    ensures rule { rule_of result ≡ option_rule option }
    ensures local { result.global ≡ false }
{
    let name = option.name();
    Arg::new(alloc, name)
        .long(name)
        .action(ArgAction::Append)
        .num_args(option.values())
        .default_missing_value("")
}

// Each word that is no option.
fn module<'a>(alloc: Global) -> Arg<'a>
    ensures rule { rule_of result ≡ module_rule }
    ensures local { result.global ≡ false }
{
    Arg::new(alloc, Argument::Module.name()).action(ArgAction::Append)
}

// A command that takes these options and modules, each any number of times.
fn command<'a>(alloc: Global, options: &[Argument]) -> Result<Command<'a>, NoMemory>
    ensures { IfOk result (λ c. app_of c ≡ app options.now) }
{
    let mut command = Command::new(alloc, "averest")
        .disable_help_flag(true)
        .disable_version_flag(true);
    for &one in options {
        command = command.arg(option(alloc, one))?;
    }
    let command = command.arg(module(alloc))?;
    Ok(command)
}

// Only want of memory is no fault of the words.
fn fault_of(kind: ErrorKind) -> WordsFault
    ensures { result ≡ WordsFault.Usage → kind ≢ ErrorKind.OutOfMemory }
{
    match kind {
        ErrorKind::OutOfMemory => WordsFault::NoMemory,
        _ => WordsFault::Usage,
    }
}

/// What the words behind the first give to the arguments of a command with these options.
pub(crate) fn match_words<'a>(
    alloc: Global,
    options: &[Argument],
    words: &'a [&'a str],
) -> Result<ArgMatches<'a>, WordsFault>
    requires options { option_named options.now (name_of Argument.Module) ≡ None }
    requires words { All (λ w. IsUtf8 w.now) words.now }
    ensures given { IfOk result
        (λ m. given_by_words options.now (drop 1 (map (λ w. w.now) words.now)) ≡ Some (given_in m)) }
    ensures usage { IsErrOf result WordsFault.Usage
        → given_by_words options.now (drop 1 (map (λ w. w.now) words.now)) ≡ None }
{
    match command(alloc, options)?.try_get_matches_from(words) {
        Ok(matches) => Ok(matches),
        Err(error) => Err(fault_of(error.kind())),
    }
}

// The text of an argument, if it is given; none where it is given twice.
fn find_text<'a>(given: &ArgMatches<'a>, argument: Argument) -> Option<Option<&'a str>>
    ensures { option_map (option_map (λ t. t.now)) result
        ≡ at_most_one (given_in given.now argument) }
{
    match given.get_raw(argument.name()) {
        None | Some([]) => Some(None),
        Some([text]) => Some(Some(*text)),
        Some(_) => None,
    }
}

/// The one module that is given.
pub(crate) fn find_module<'a>(given: &ArgMatches<'a>) -> Option<&'a str>
    ensures { option_map (λ t. t.now) result ≡ module_in (given_in given.now) }
{
    match find_text(given, Argument::Module) {
        Some(module) => module,
        None => None,
    }
}

/// Whether an option without a value is given; none where it is given twice.
pub(crate) fn find_flag(given: &ArgMatches, option: Argument) -> Option<bool>
    ensures { result ≡ flag_in option (given_in given.now) }
{
    match find_text(given, option) {
        Some(text) => Some(text.is_some()),
        None => None,
    }
}

// The number that a text writes, if it is in its range.
fn parse_number(text: &str, least: u32, most: u32) -> Option<u32>
    ensures { result ≡ number_within least most text.now }
{
    match text.parse::<u32>() {
        Ok(number) if least <= number && number <= most => Some(number),
        _ => None,
    }
}

fn parse_seed(text: &str) -> Option<u64>
    ensures { result ≡ number_within 0 18446744073709551615 text.now }
{
    match text.parse::<u64>() {
        Ok(seed) => Some(seed),
        Err(_) => None,
    }
}

/// The number of an option, and the default where it isn't given. None where it is given twice, or
/// what it is given is no number of its range, or there is no default and it isn't given.
pub(crate) fn find_number(
    given: &ArgMatches,
    option: Argument,
    default: Option<u32>,
    least: u32,
    most: u32,
) -> Option<u32>
    ensures { result ≡ number_in option default least most (given_in given.now) }
{
    match find_text(given, option) {
        Some(Some(text)) => parse_number(text, least, most),
        Some(None) => default,
        None => None,
    }
}

/// The seed, a number of 64 bits, which is needed.
pub(crate) fn find_seed(given: &ArgMatches) -> Option<u64>
    ensures { result ≡ number_in Seed None 0 18446744073709551615 (given_in given.now) }
{
    match find_text(given, Argument::Seed) {
        Some(Some(text)) => parse_seed(text),
        _ => None,
    }
}
