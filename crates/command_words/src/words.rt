//! The words of a command line as a command.

ghost use Rattle.std.specs.Prelude.{◌≡◌, Some, None, IfOk, IsErrOf, map, IsUtf8};
ghost use Rattle.std.specs.List.{All};
ghost use Rattle.command_words.specs.Arguments.{module_in};
ghost use Rattle.command_words.specs.Clap.{given_in};
ghost use Rattle.command_words.specs.Words.{layout_in, run_in, command_in, check_in, plan_in, load_in, convert_in, without_witness, Answers, meant, meant_to_stay};

use crate::arguments::{Argument, find_flag, find_module, find_number, find_seed, match_words};
use crate::command::{Command, WordsFault};
use crate::verb::Verb;
use clap::ArgMatches;
use quartz_tree::{Name, NoMemory};
use std::alloc::Global;

// How the stages of a run are laid out.
#[derive(Clone, Copy, Debug)]
struct Layout {
    stages: u32,
    workers: u32,
    ring: u32,
}

fn find_layout(given: &ArgMatches) -> Option<Layout>
    ensures { result ≡ layout_in (given_in given.now) }
{
    let stages = find_number(given, Argument::Stages, Some(1), 1, 16);
    let workers = find_number(given, Argument::Workers, Some(1), 1, 16);
    let ring = find_number(given, Argument::Ring, Some(4), 1, 64);
    match (stages, workers, ring) {
        (Some(stages), Some(workers), Some(ring)) => Some(Layout {
            stages,
            workers,
            ring,
        }),
        _ => None,
    }
}

fn make_run(alloc: Global, given: &ArgMatches) -> Result<Command, WordsFault>
    ensures { Answers (run_in (given_in given.now)) result }
{
    let module = find_module(given);
    let layout = find_layout(given);
    let max_steps = find_number(given, Argument::MaxSteps, Some(u32::MAX), 1, u32::MAX);
    let witness = find_flag(given, Argument::Witness);
    match (module, layout, max_steps, witness) {
        (Some(module), Some(layout), Some(max_steps), Some(witness)) => Ok(Command::Run {
            module: Name::new(alloc, module)?,
            stages: layout.stages,
            workers: layout.workers,
            ring: layout.ring,
            max_steps,
            witness,
        }),
        _ => Err(WordsFault::Usage),
    }
}

fn make_check(alloc: Global, given: &ArgMatches) -> Result<Command, WordsFault>
    ensures { Answers (check_in (given_in given.now)) result }
{
    match (find_module(given), find_flag(given, Argument::Strict)) {
        (Some(module), Some(strict)) => Ok(Command::Check {
            module: Name::new(alloc, module)?,
            strict,
        }),
        _ => Err(WordsFault::Usage),
    }
}

fn make_plan(alloc: Global, given: &ArgMatches) -> Result<Command, WordsFault>
    ensures { Answers (plan_in (given_in given.now)) result }
{
    match (
        find_module(given),
        find_number(given, Argument::Stages, None, 1, 16),
    ) {
        (Some(module), Some(stages)) => Ok(Command::Plan {
            module: Name::new(alloc, module)?,
            stages,
        }),
        _ => Err(WordsFault::Usage),
    }
}

fn make_load(alloc: Global, given: &ArgMatches) -> Result<Command, WordsFault>
    ensures { Answers (load_in (given_in given.now)) result }
{
    let module = find_module(given);
    let seed = find_seed(given);
    let steps = find_number(given, Argument::Steps, None, 1, 1_000_000);
    let layout = find_layout(given);
    match (module, seed, steps, layout) {
        (Some(module), Some(seed), Some(steps), Some(layout)) => Ok(Command::Load {
            module: Name::new(alloc, module)?,
            seed,
            steps,
            stages: layout.stages,
            workers: layout.workers,
            ring: layout.ring,
        }),
        _ => Err(WordsFault::Usage),
    }
}

fn make_convert(alloc: Global, given: &ArgMatches) -> Result<Command, WordsFault>
    ensures { Answers (convert_in (given_in given.now)) result }
{
    match (
        find_module(given),
        find_number(given, Argument::To, None, 1, 2),
    ) {
        (Some(module), Some(to)) => Ok(Command::Convert {
            module: Name::new(alloc, module)?,
            to,
        }),
        _ => Err(WordsFault::Usage),
    }
}

// The one module that is given.
fn only_module(alloc: Global, given: &ArgMatches) -> Result<Name, WordsFault>
    ensures named { IfOk result (λ m. module_in (given_in given.now) ≡ Some m) }
    ensures usage { IsErrOf result WordsFault.Usage → module_in (given_in given.now) ≡ None }
{
    match find_module(given) {
        Some(module) => {
            let name = Name::new(alloc, module)?;
            Ok(name)
        }
        None => Err(WordsFault::Usage),
    }
}

// The command of a verb.
fn make_command(alloc: Global, verb: Verb, given: &ArgMatches) -> Result<Command, WordsFault>
    ensures { Answers (command_in verb (given_in given.now)) result }
{
    match verb {
        Verb::Run => make_run(alloc, given),
        Verb::Check => make_check(alloc, given),
        Verb::Aif => {
            let module = only_module(alloc, given)?;
            Ok(Command::Aif { module })
        }
        Verb::Plan => make_plan(alloc, given),
        Verb::Load => make_load(alloc, given),
        Verb::Convert => make_convert(alloc, given),
        Verb::Verify => {
            let module = only_module(alloc, given)?;
            Ok(Command::Verify { module })
        }
    }
}

// The texts of the words, which are of characters.
fn texts_of<'a>(alloc: Global, words: &'a [Name]) -> Result<Vec<&'a str>, NoMemory>
    ensures texts { IfOk result (λ v. map (λ t. t.now) v.items ≡ words.now) }
    ensures utf8 { IfOk result (λ v. All (λ t. IsUtf8 t.now) v.items) }
{
    let mut texts = Vec::new(alloc);
    for word in words {
        texts.push(word.text())?;
    }
    Ok(texts)
}

/// The command that the words are: its name, and then one module and its options in any order.
/// Usage where they are none.
pub fn read_words(alloc: Global, words: &[Name]) -> Result<Command, WordsFault>
    ensures command { IfOk result (λ c. meant words.now ≡ Some c) }
    ensures usage { IsErrOf result WordsFault.Usage → meant words.now ≡ None }
{
    let [first, ..] = words else {
        return Err(WordsFault::Usage);
    };
    let Some(verb) = Verb::of_name(first.text()) else {
        return Err(WordsFault::Usage);
    };
    let texts = texts_of(alloc, words)?;
    let given = match_words(alloc, verb.options(), &texts)?;
    make_command(alloc, verb, &given)
}

// The command, unless it is a run with a witness.
fn without_witness(command: Command) -> Result<Command, WordsFault>
    ensures { Answers (without_witness command) result }
{
    match command {
        Command::Run { witness: true, .. } => Err(WordsFault::Usage),
        _ => Ok(command),
    }
}

/// The run that the words of the resident program are: `stay`, and then those of `run` without
/// `--witness`. Usage where they are none.
pub fn read_stay(alloc: Global, words: &[Name]) -> Result<Command, WordsFault>
    ensures command { IfOk result (λ c. meant_to_stay words.now ≡ Some c) }
    ensures usage { IsErrOf result WordsFault.Usage → meant_to_stay words.now ≡ None }
{
    let [first, ..] = words else {
        return Err(WordsFault::Usage);
    };
    if first.text() != "stay" {
        return Err(WordsFault::Usage);
    }
    let texts = texts_of(alloc, words)?;
    let given = match_words(alloc, Verb::Run.options(), &texts)?;
    let run = make_run(alloc, &given)?;
    without_witness(run)
}
