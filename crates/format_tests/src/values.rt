//! Rows of words and of the values that they are, in traces.

use crate::params::{base_of, has_bounds};
use quartz_tree::{Base, NoMemory};
use std::alloc::Global;
use std::test::Fail;
use test_rows::{bytes_of, value_of};
use trace_io::{Field, is_in_range, push_value, read_fields, read_value, text_of};

// Scalar types, words and their values.
const READ: &str = r#"bool 0 => 0
bool 1 => 1
bool 2 => none
bool  => none
bool 01 => none
nat{10} 9 => 9
nat{10} 10 => none
nat{10} 0009 => 9
nat{10} -0 => 0
nat{10} -1 => none
nat{10} - => none
nat{10} --1 => none
nat{10} +1 => none
nat{10} 1- => none
nat{10} / => none
nat{10} : => none
nat{10} 340282366920938463463374607431768211456000000000009 => none
int{8} -8 => -8
int{8} -9 => none
int{8} 7 => 7
int{8} 8 => none
bv{4} 0b1010 => 10
bv{4} 0b101 => none
bv{4} 0b01010 => none
bv{4} 0b1012 => none
bv{4} 1010 => none"#;

#[test]
fn words(rt: HostRuntime) -> Result<(), Fail> {
    for row in READ.lines() {
        let (word, wanted) = row.split_once(" => ").unwrap_or((row, ""));
        let (base, word) = word.split_once(' ').unwrap_or((word, ""));
        let base = base_of(base);
        assert_eq!(rt; has_bounds(base), true);
        let found = match read_value(base, word.as_bytes()) {
            Some(value) => format!(in rt.alloc(); "{value}")?,
            None => String::from_str(rt.alloc(), "none")?,
        };
        assert_eq!(rt; found.as_str(), wanted, "{row}");
    }
    Ok(())
}

// Lines of an int{8} and a bool, whether a word may keep the last value, which is 5 or 0, and the
// values.
const LINES: &str = r#"line: -3 1\n
keeps: no
values: -3 1

line: \t-3\t \t1 \r\n
keeps: no
values: -3 1

line: -3 1
keeps: no
values: -3 1

line: -3 1\r
keeps: no
values: -3 1

line: -3 1\r\r\n
keeps: no
values: none

line: -3\r 1\n
keeps: no
values: none

line: -3\n
keeps: no
values: none

line: -3 1 0\n
keeps: no
values: none

line: -31\n
keeps: no
values: none

line: _ 1\n
keeps: no
values: none

line: _ 1\n
keeps: yes
values: 5 1

line: _ _\n
keeps: yes
values: 5 0"#;

// The values of a line.
fn values_in(alloc: Global, line: &[u8], keeps: bool) -> Result<String, Fail> {
    let fields = [
        Field {
            place: 0,
            base: Base::Int(8),
        },
        Field {
            place: 1,
            base: Base::Bool,
        },
    ];
    let mut last = [5, 0];
    if read_fields(&fields, keeps, text_of(line), &mut last) {
        Ok(format!(in alloc; "{} {}", last[0], last[1])?)
    } else {
        Ok(String::from_str(alloc, "none")?)
    }
}

#[test]
fn lines(rt: HostRuntime) -> Result<(), Fail> {
    let alloc = rt.alloc();
    for row in LINES.split("\n\n") {
        let line = bytes_of(alloc, value_of(row, "line"))?;
        let found = values_in(alloc, &line, value_of(row, "keeps") == "yes")?;
        assert_eq!(rt; found.as_str(), value_of(row, "values"), "{row}");
    }
    Ok(())
}

// Scalar types, values and their words.
const WRITTEN: &str = "bool 1 => 1
nat{10} 9 => 9
int{8} -8 => -8
bv{4} 10 => 0b1010";

// The word of a value in its type's range.
fn word_of(alloc: Global, base: &str, value: i64) -> Result<Vec<u8>, NoMemory> {
    let base = base_of(base);
    if !has_bounds(base) || !is_in_range(base, value) {
        return Err(NoMemory);
    }
    let mut word = Vec::with_capacity(alloc, 34)?;
    push_value(&mut word, base, value);
    Ok(word)
}

#[test]
fn values(rt: HostRuntime) -> Result<(), Fail> {
    for row in WRITTEN.lines() {
        let (value, wanted) = row.split_once(" => ").unwrap_or((row, ""));
        let (base, value) = value.split_once(' ').unwrap_or((value, ""));
        let found = word_of(rt.alloc(), base, value.parse::<i64>()?)?;
        assert_eq!(rt; found.as_slice(), wanted.as_bytes(), "{row}");
    }
    Ok(())
}
