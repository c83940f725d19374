//! The values of a row.

ghost use Rattle.std.specs.Prelude.{◌<◌, ◌≤◌};

use std::alloc::{AllocError, Global};

/// What stands behind the name and `: ` in the first line of the row that begins so, or nothing.
pub fn value_of<'a>(row: &'a str, name: &str) -> &'a str {
    for line in row.lines() {
        if let Some((key, value)) = line.split_once(": ") {
            if key == name {
                return value;
            }
        }
    }
    ""
}

// The value of a hexadecimal digit, and 0 for any other byte.
fn digit_of(byte: u8) -> u8
    ensures { result ≤ 15 }
{
    match byte {
        b'0'..=b'9' => byte - b'0',
        b'a'..=b'f' => byte - b'a' + 10,
        _ => 0,
    }
}

// The byte that is meant behind a backslash, and what stands behind it.
fn escaped(part: &[u8]) -> (u8, &[u8]) {
    match part {
        [b'n', rest @ ..] => (b'\n', rest),
        [b'r', rest @ ..] => (b'\r', rest),
        [b't', rest @ ..] => (b'\t', rest),
        [b'x', high, low, rest @ ..] => (digit_of(*high) * 16 + digit_of(*low), rest),
        _ => (b'\\', part),
    }
}

/// The bytes of a value, where `\n`, `\r`, `\t` and `\x` with two hexadecimal digits each stand for
/// one byte, and every other character for its own.
pub fn bytes_of(alloc: Global, value: &str) -> Result<Vec<u8>, AllocError> {
    let mut bytes = Vec::new(alloc);
    for (at, part) in value.split('\\').enumerate() {
        if at == 0 {
            bytes.extend_from_slice(part.as_bytes())?;
        } else {
            let (byte, rest) = escaped(part.as_bytes());
            bytes.push(byte)?;
            bytes.extend_from_slice(rest)?;
        }
    }
    Ok(bytes)
}

/// The value as a text, where `\n` stands for the end of a line.
pub fn text_of(alloc: Global, value: &str) -> Result<String, AllocError> {
    let mut text = String::new(alloc);
    for (at, part) in value.split("\\n").enumerate() {
        if at > 0 {
            text.push_str("\n")?;
        }
        text.push_str(part)?;
    }
    Ok(text)
}

/// The two halves of a row of one line, with two blanks between. The second is empty where there is
/// but one.
pub fn pair_of(row: &str) -> (&str, &str) {
    match row.split_once("  ") {
        Some(pair) => pair,
        None => (row, ""),
    }
}

// So many times the piece.
fn push_times(text: &mut String, piece: &str, times: usize) -> Result<(), AllocError> {
    for _ in 0..times {
        text.push_str(piece)?;
    }
    Ok(())
}

/// The text of a value in which `«piece × number»` stands for so many times the piece.
pub fn spread(alloc: Global, value: &str) -> Result<String, AllocError> {
    let mut text = String::new(alloc);
    for part in value.split('«') {
        let (repeated, rest) = part.split_once('»').unwrap_or(("", part));
        let (piece, times) = repeated.split_once(" × ").unwrap_or(("", "0"));
        push_times(&mut text, piece, times.parse::<usize>().unwrap_or(0))?;
        text.push_str(rest)?;
    }
    Ok(text)
}

/// What stands behind the name and `: ` in each line of the row that begins so, each with the end
/// of a line.
pub fn values_of(alloc: Global, row: &str, name: &str) -> Result<String, AllocError> {
    let mut values = String::new(alloc);
    for line in row.lines() {
        if let Some((key, value)) = line.split_once(": ") {
            if key == name {
                values.push_str(value)?;
                values.push_str("\n")?;
            }
        }
    }
    Ok(values)
}
