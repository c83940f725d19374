//! A call of the program over adapters in memory, and how it ends.

ghost use Rattle.std.specs.Prelude.{◌≤◌, All};

use averest_top::averest;
use outside::{MemShelf, MemSink, MemSource, NoGate};
use quartz_tree::Name;
use std::alloc::Global;
use std::process::Abort;
use std::test::Fail;
use std::thread::Threads;
use test_rows::{bytes_of, spread, value_of};

/// What is run, and which calls of the adapters fail.
#[derive(Clone, Copy)]
pub(crate) struct Case<'a> {
    /// The words of the command, with blanks between.
    pub words: &'a str,
    /// The text that the shelf has under the name `M`.
    pub text: &'a [u8],
    pub trace: &'a [u8],
    pub failing_fetches: &'a [u64],
    pub failing_takes: &'a [u64],
    pub failing_puts: &'a [u64],
    pub failing_reports: &'a [u64],
}

impl<'a> Case<'a> {
    /// `run M`, where no call fails.
    pub(crate) fn run(text: &'a [u8], trace: &'a [u8]) -> Case<'a> {
        Case {
            words: "run M",
            text,
            trace,
            failing_fetches: &[],
            failing_takes: &[],
            failing_puts: &[],
            failing_reports: &[],
        }
    }
}

fn names(alloc: Global, words: &str) -> Result<Vec<Name>, Fail> {
    let mut names = Vec::new(alloc);
    for word in words.split_whitespace() {
        names.push(Name::new(alloc, word)?)?;
    }
    Ok(names)
}

/// The status's number, the output and the report, with `|` between, where each read gives at most
/// so many bytes.
pub(crate) fn outcome_in(
    rt: &(impl Threads + Sync),
    alloc: Global,
    case: Case,
    pieces: &[u32],
) -> Result<String, Fail>
    requires { All (λ n. 1 ≤ n) pieces.now }
{
    let mut shelf = MemShelf::new(alloc, case.failing_fetches)?;
    shelf.add(alloc, &Name::new(alloc, "M")?, case.text)?;
    let mut input = MemSource::new(alloc, case.trace, pieces, case.failing_takes)?;
    let mut out = MemSink::new(alloc, 65_536, case.failing_puts)?;
    let mut report = MemSink::new(alloc, 4_096, case.failing_reports)?;
    let words = names(alloc, case.words)?;
    let status = averest(
        rt,
        alloc,
        &words,
        &mut shelf,
        &mut input,
        &mut out,
        &mut report,
        &NoGate,
    );
    let number = status.number();
    let written = str::from_utf8(out.bytes())?;
    let reported = str::from_utf8(report.bytes())?;
    Ok(format!(in alloc; "{number}|{written}|{reported}")?)
}

/// The status's number, the output and the report, with `|` between.
pub(crate) fn outcome(
    rt: &(impl Threads + Sync),
    alloc: Global,
    case: Case,
) -> Result<String, Fail> {
    outcome_in(rt, alloc, case, &[1, 3, 2])
}

/// The status's number, the output and the report that a row says, with `|` between.
pub(crate) fn wanted(alloc: Global, row: &str) -> Result<String, Fail> {
    let status = value_of(row, "status");
    let (output, report) = (value_of(row, "output"), value_of(row, "report"));
    let bytes = bytes_of(alloc, &format!(in alloc; "{status}|{output}|{report}")?)?;
    let text = str::from_utf8(&bytes)?;
    Ok(String::from_str(alloc, text)?)
}

// The numbers of a value, with blanks between.
fn numbers(alloc: Global, value: &str) -> Result<Vec<u64>, Fail> {
    let mut numbers = Vec::new(alloc);
    for word in value.split_whitespace() {
        numbers.push(word.parse::<u64>()?)?;
    }
    Ok(numbers)
}

fn check_row(rt: &(impl Threads + Sync + Abort), alloc: Global, row: &str) -> Result<(), Fail> {
    let text = spread(alloc, value_of(row, "text"))?;
    let text = bytes_of(alloc, &text)?;
    let trace = bytes_of(alloc, value_of(row, "trace"))?;
    let fetches = numbers(alloc, value_of(row, "fetches"))?;
    let takes = numbers(alloc, value_of(row, "takes"))?;
    let puts = numbers(alloc, value_of(row, "puts"))?;
    let reports = numbers(alloc, value_of(row, "reports"))?;
    let case = Case {
        words: value_of(row, "words"),
        failing_fetches: &fetches,
        failing_takes: &takes,
        failing_puts: &puts,
        failing_reports: &reports,
        ..Case::run(&text, &trace)
    };
    let found = outcome(rt, alloc, case)?;
    assert_eq!(rt; found.as_str(), wanted(alloc, row)?.as_str(), "{row}");
    Ok(())
}

/// Each row of the table ends as it says.
pub(crate) fn check_rows(
    rt: &(impl Threads + Sync + Abort),
    alloc: Global,
    table: &str,
) -> Result<(), Fail> {
    for row in table.split("\n\n") {
        check_row(rt, alloc, row)?;
    }
    Ok(())
}
