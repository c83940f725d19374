//! Rows of command lines, their words with one blank between two, and what they ask for: the
//! command's word, its module and its numbers.

use command_words::{Command, WordsFault, read_words};
use quartz_tree::Name;
use std::alloc::Global;
use std::test::Fail;
use test_rows::{bytes_of, value_of};

const ROWS: &str = r#"line: run M
asks: run M 1 1 4 4294967295 false

line: run M --stages 1
asks: run M 1 1 4 4294967295 false

line: run M --stages 16
asks: run M 16 1 4 4294967295 false

line: run --stages 2 M
asks: run M 2 1 4 4294967295 false

line: run M --stages=16
asks: run M 16 1 4 4294967295 false

line: run M --stages 04
asks: run M 4 1 4 4294967295 false

line: run M --stages +4
asks: run M 4 1 4 4294967295 false

line: run M --stages +04
asks: run M 4 1 4 4294967295 false

line: run M --stages=+4
asks: run M 4 1 4 4294967295 false

line: run M --stages=004
asks: run M 4 1 4 4294967295 false

line: run M --stages 0000000000000000000000000000000000000000000000004
asks: run M 4 1 4 4294967295 false

line: run M --workers 16
asks: run M 1 16 4 4294967295 false

line: run M --workers=1
asks: run M 1 1 4 4294967295 false

line: run M --ring 1
asks: run M 1 1 1 4294967295 false

line: run M --ring 64
asks: run M 1 1 64 4294967295 false

line: run M --ring=0000000064
asks: run M 1 1 64 4294967295 false

line: run M --max-steps 1
asks: run M 1 1 4 1 false

line: run M --max-steps 4294967295
asks: run M 1 1 4 4294967295 false

line: run M --max-steps=4294967294
asks: run M 1 1 4 4294967294 false

line: run M --witness
asks: run M 1 1 4 4294967295 true

line: run --witness M
asks: run M 1 1 4 4294967295 true

line: run --witness 1
asks: run 1 1 1 4 4294967295 true

line: run --ring 3 --stages 4 M --witness --workers 2 --max-steps 9
asks: run M 4 2 3 9 true

line: run -
asks: run - 1 1 4 4294967295 false

line: run\x20
asks: run  1 1 4 4294967295 false

line: run run
asks: run run 1 1 4 4294967295 false

line: run --stages 2 16
asks: run 16 2 1 4 4294967295 false

line: run =
asks: run = 1 1 4 4294967295 false

line: run stages=2
asks: run stages=2 1 1 4 4294967295 false

line: run ü
asks: run ü 1 1 4 4294967295 false

line: run -- M
asks: run M 1 1 4 4294967295 false

line: run M --
asks: run M 1 1 4 4294967295 false

line: run -- -x
asks: run -x 1 1 4 4294967295 false

line: run -- --stages
asks: run --stages 1 1 4 4294967295 false

line: run -- --
asks: run -- 1 1 4 4294967295 false

line: run --\x20
asks: run  1 1 4 4294967295 false

line: run --stages=2 -- --witness
asks: run --witness 2 1 4 4294967295 false

line: run --witness -- -
asks: run - 1 1 4 4294967295 true

line: check M
asks: check M false

line: check M --strict
asks: check M true

line: check --strict M
asks: check M true

line: check --strict -- --strict
asks: check --strict true

line: aif M
asks: aif M

line: aif -- M
asks: aif M

line: aif -
asks: aif -

line: plan M --stages 1
asks: plan M 1

line: plan --stages=16 M
asks: plan M 16

line: plan M --stages +03
asks: plan M 3

line: load M --seed 0 --steps 1
asks: load M 0 1 1 1 4

line: load M --seed 18446744073709551615 --steps 1000000
asks: load M 18446744073709551615 1000000 1 1 4

line: load M --seed=018446744073709551615 --steps=01
asks: load M 18446744073709551615 1 1 1 4

line: load --steps 10 --ring 2 --seed=7 M --workers 3 --stages 4
asks: load M 7 10 4 3 2

line: convert M --to 1
asks: convert M 1

line: convert --to=2 M
asks: convert M 2

line: convert M --to +01
asks: convert M 1

line: verify M
asks: verify M

line: verify -- --help
asks: verify --help

line: verify M --
asks: verify M

asks: usage

line: run
asks: usage

line: Run M
asks: usage

line: RUN M
asks: usage

line: runs M
asks: usage

line: ru M
asks: usage

line: stay M
asks: usage

line: help
asks: usage

line: --help
asks: usage

line: --version
asks: usage

line: -h
asks: usage

line: M run
asks: usage

line: -- run M
asks: usage

line: --stages 2 run M
asks: usage

line: run M --help
asks: usage

line: run M -h
asks: usage

line: run M --version
asks: usage

line: run M -V
asks: usage

line: run M N
asks: usage

line: run M M
asks: usage

line: run M\x20
asks: usage

line: run M -- N
asks: usage

line: run -- M N
asks: usage

line: run M -- --
asks: usage

line: run --
asks: usage

line: run --stages 2
asks: usage

line: run M --stages
asks: usage

line: run M --stages=
asks: usage

line: run M --stages\x20
asks: usage

line: run M --stages 0
asks: usage

line: run M --stages 17
asks: usage

line: run M --stages=17
asks: usage

line: run M --stages -1
asks: usage

line: run M --stages=-1
asks: usage

line: run M --stages=-0
asks: usage

line: run M --stages ++1
asks: usage

line: run M --stages=+
asks: usage

line: run M --stages=+-1
asks: usage

line: run M --stages 1+
asks: usage

line: run M --stages 1.
asks: usage

line: run M --stages 1,5
asks: usage

line: run M --stages 0x1
asks: usage

line: run M --stages 1_0
asks: usage

line: run M --stages １
asks: usage

line: run M --stages two
asks: usage

line: run M --stages 2 --stages 2
asks: usage

line: run M --stages=2 --stages 3
asks: usage

line: run M --stages 18446744073709551617
asks: usage

line: run M --stages==2
asks: usage

line: run M --witness --witness
asks: usage

line: run M --witness=1
asks: usage

line: run M --witness=
asks: usage

line: run M --witness=true
asks: usage

line: run M --witness 1
asks: usage

line: run M --wit
asks: usage

line: run M --stage 2
asks: usage

line: run M --stag=2
asks: usage

line: run M --s 2
asks: usage

line: run M -stages 2
asks: usage

line: run M -s 2
asks: usage

line: run M --stages2
asks: usage

line: run M --Stages 2
asks: usage

line: run M ---stages 2
asks: usage

line: run M --=2
asks: usage

line: run M -=2
asks: usage

line: run M --stages --ring 2
asks: usage

line: run M --stages -- 2
asks: usage

line: run --stages -- M
asks: usage

line: run M --stages -
asks: usage

line: run M --ring 0
asks: usage

line: run M --ring 65
asks: usage

line: run M --ring=65
asks: usage

line: run M --workers 0
asks: usage

line: run M --workers 17
asks: usage

line: run M --max-steps 0
asks: usage

line: run M --max-steps 4294967296
asks: usage

line: run M --max-steps 99999999999999999999999999999999999999999999999
asks: usage

line: run M --maxsteps 1
asks: usage

line: run M --max_steps 1
asks: usage

line: run M --seed 1
asks: usage

line: run M --steps 1
asks: usage

line: run M --to 1
asks: usage

line: run M --strict
asks: usage

line: run -M
asks: usage

line: run M -x
asks: usage

line: check
asks: usage

line: check M --strict --strict
asks: usage

line: check M --strict=1
asks: usage

line: check M --witness
asks: usage

line: check M --stages 1
asks: usage

line: aif
asks: usage

line: aif M --strict
asks: usage

line: aif M N
asks: usage

line: plan M
asks: usage

line: plan --stages 1
asks: usage

line: plan M --stages 0
asks: usage

line: plan M --stages 17
asks: usage

line: plan M --stages 1 --stages 1
asks: usage

line: plan M --workers 1
asks: usage

line: load M
asks: usage

line: load M --seed 1
asks: usage

line: load M --steps 1
asks: usage

line: load --seed 1 --steps 1
asks: usage

line: load M --seed 18446744073709551616 --steps 1
asks: usage

line: load M --seed -1 --steps 1
asks: usage

line: load M --seed 1 --steps 0
asks: usage

line: load M --seed 1 --steps 1000001
asks: usage

line: load M --seed 1 --seed 1 --steps 1
asks: usage

line: load M --seed 1 --steps 1 --ring 65
asks: usage

line: load M --seed 1 --steps 1 --max-steps 1
asks: usage

line: load M --seed 1 --steps 1 --witness
asks: usage

line: convert M
asks: usage

line: convert M --to 0
asks: usage

line: convert M --to 3
asks: usage

line: convert M --to 1 --to 1
asks: usage

line: convert M --to two
asks: usage

line: convert M 1
asks: usage

line: verify
asks: usage

line: verify M --stages 1
asks: usage

line: verify --help
asks: usage"#;

fn words_of(alloc: Global, line: &str) -> Result<Vec<Name>, Fail> {
    let mut words = Vec::new(alloc);
    for word in line.split(' ') {
        words.push(Name::new(alloc, word)?)?;
    }
    Ok(words)
}

// What a command asks for, as the rows say it.
fn spell(alloc: Global, command: &Command) -> Result<String, Fail> {
    Ok(match command {
        Command::Run {
            module,
            stages,
            workers,
            ring,
            max_steps,
            witness,
        } => format!(in alloc;
            "run {} {stages} {workers} {ring} {max_steps} {witness}",
            module.text()
        )?,
        Command::Check { module, strict } => format!(in alloc; "check {} {strict}", module.text())?,
        Command::Aif { module } => format!(in alloc; "aif {}", module.text())?,
        Command::Plan { module, stages } => format!(in alloc; "plan {} {stages}", module.text())?,
        Command::Load {
            module,
            seed,
            steps,
            stages,
            workers,
            ring,
        } => format!(in alloc;
            "load {} {seed} {steps} {stages} {workers} {ring}",
            module.text()
        )?,
        Command::Convert { module, to } => format!(in alloc; "convert {} {to}", module.text())?,
        Command::Verify { module } => format!(in alloc; "verify {}", module.text())?,
    })
}

// What a command line asks for.
fn asked(alloc: Global, line: &str) -> Result<String, Fail> {
    match read_words(alloc, &words_of(alloc, line)?) {
        Ok(command) => spell(alloc, &command),
        Err(WordsFault::Usage) => Ok(String::from_str(alloc, "usage")?),
        Err(WordsFault::NoMemory) => Ok(String::from_str(alloc, "no memory")?),
    }
}

#[test]
fn command_lines(rt: HostRuntime) -> Result<(), Fail> {
    for row in ROWS.split("\n\n") {
        let line = bytes_of(rt.alloc(), value_of(row, "line"))?;
        let found = asked(rt.alloc(), str::from_utf8(&line)?)?;
        assert_eq!(rt; found.as_str(), value_of(row, "asks"), "{row}");
    }
    Ok(())
}

#[test]
fn has_no_command_without_words(rt: HostRuntime) {
    let answer = read_words(rt.alloc(), &[]);
    assert!(rt; matches!(answer, Err(WordsFault::Usage)));
}
