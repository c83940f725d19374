//! What is said of texts, and that this is something for any text.

use quartz_lexer::lex;
use quartz_parser::{ParseFault, parse, parse_text};
use quartz_tree::Place;
use std::alloc::Global;
use std::test::Fail;

/// `ok`, or the fault of a text that is to be one module.
pub(crate) fn outcome(alloc: Global, text: &[u8]) -> Result<String, Fail> {
    let tokens = match lex(alloc, text) {
        Ok(tokens) => tokens,
        Err(fault) => return Ok(format!(in alloc; "{fault}")?),
    };
    match parse(alloc, &tokens, text) {
        Ok(_) => Ok(String::from_str(alloc, "ok")?),
        Err(fault) => Ok(format!(in alloc; "{fault}")?),
    }
}

/// The number of modules, or the fault of a text of several.
pub(crate) fn modules_in(alloc: Global, text: &[u8]) -> Result<String, Fail> {
    let tokens = match lex(alloc, text) {
        Ok(tokens) => tokens,
        Err(fault) => return Ok(format!(in alloc; "{fault}")?),
    };
    match parse_text(alloc, &tokens, text) {
        Ok(modules) => {
            let count = modules.len();
            Ok(format!(in alloc; "{count}")?)
        }
        Err(fault) => Ok(format!(in alloc; "{fault}")?),
    }
}

fn is_before(p: Place, q: Place) -> bool {
    p.line < q.line || (p.line == q.line && p.col < q.col)
}

// Whether what is said of a text as one module fits what is said of it as a text: the one module is
// the text's only one, and no module begins with more of the tokens than a text does.
fn agree(alloc: Global, text: &[u8]) -> bool {
    let tokens = match lex(alloc, text) {
        Ok(tokens) => tokens,
        Err(_) => return true,
    };
    match (
        parse(alloc, &tokens, text),
        parse_text(alloc, &tokens, text),
    ) {
        (Ok(_), Ok(modules)) => modules.len() == 1,
        (Err(ParseFault::S2(_)), Ok(modules)) => modules.len() > 1,
        (Err(ParseFault::S2(p)), Err(ParseFault::S2(q))) => !is_before(q, p),
        _ => false,
    }
}

// The next of numbers that look random.
fn scramble(seed: u32) -> u32 {
    let seed = seed ^ seed.wrapping_mul(8_192);
    let seed = seed ^ (seed >> 17);
    seed ^ seed.wrapping_mul(32)
}

// Words of the language, and bytes that begin none.
const WORDS: &str =
    "module M ( ) { } [ ] bool event nat ? ! , ; : = || + - -> 1 0b1 if else loop do while abort when weak immediate emit next await pause \u{1} /* */ \n";

// A text of forty of the words.
fn text_of_words(alloc: Global, words: &[&str], seed: &mut u32) -> Result<String, Fail> {
    let mut text = String::from_str(alloc, "module M ( ) { ")?;
    for _ in 0..40 {
        *seed = scramble(*seed);
        if let Some(word) = words.get((*seed % 40) as usize) {
            text.push_str(*word)?;
        }
        text.push_str(" ")?;
    }
    Ok(text)
}

#[test]
fn any_words_have_an_answer(rt: HostRuntime) -> Result<(), Fail> {
    let alloc = rt.alloc();
    let mut words = Vec::new(alloc);
    for word in WORDS.split(' ') {
        words.push(word)?;
    }
    assert_eq!(rt; words.len(), 40);
    let mut seed = 1;
    for _ in 0..200 {
        let text = text_of_words(alloc, &words, &mut seed)?;
        let found = outcome(alloc, text.as_bytes())?;
        assert_ne!(rt; found.as_str(), "no memory");
        assert!(rt; agree(alloc, text.as_bytes()), "{text}");
    }
    Ok(())
}

#[test]
fn any_bytes_have_an_answer(rt: HostRuntime) -> Result<(), Fail> {
    let mut seed = 7;
    for _ in 0..400 {
        let mut text = Vec::new(rt.alloc());
        for _ in 0..30 {
            seed = scramble(seed);
            text.push((seed % 256) as u8)?;
        }
        assert!(rt; agree(rt.alloc(), &text));
    }
    Ok(())
}

const TEXTS: &str = r#"module A() { }
module A() { } module B() { }
module A() { } }
module A( { }
"#;

#[test]
fn texts_and_modules_agree(rt: HostRuntime) {
    for text in TEXTS.split('\n') {
        assert!(rt; agree(rt.alloc(), text.as_bytes()), "{text}");
    }
}
