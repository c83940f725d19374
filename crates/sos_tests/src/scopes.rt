//! Scopes and their values.

use crate::reading::{reacted, started, step_of};
use sos_model::{Form, Kept, Reaction, Term, tick};
use std::alloc::Global;
use std::test::Fail;
use test_rows::{value_of, values_of};

// The reaction of a term in a macro step.
fn reaction(alloc: Global, term: &Term, step: &str) -> Result<Reaction, Fail> {
    Ok(reacted(alloc, term, &step_of(alloc, step)?)??)
}

// What a term answers in the last of the macro steps: `ended` or `goes on`, or the error.
fn answer(alloc: Global, text: &str, steps: &str) -> Result<String, Fail> {
    let mut term = started(alloc, text.as_bytes())?;
    let mut answer = String::new(alloc);
    for step in steps.lines() {
        match reacted(alloc, &term, &step_of(alloc, step)?)? {
            Ok(reaction) => {
                let end = if reaction.ended { "ended" } else { "goes on" };
                answer = String::from_str(alloc, end)?;
                term = reaction.residual;
            }
            Err(fault) => answer = format!(in alloc; "{fault}")?,
        }
    }
    Ok(answer)
}

// Texts, their macro steps, and what comes of the last.
const ANSWERS: &str = r#"# the value after the last that is needed has no effect
text: module N(bool !y) { bool x; x = true; }
step: /0/1
answer: ended

text: module N(bool !y) { bool x; x = true; }
step: /0/1 7
answer: ended

text: module N(bool !y) { bool x; x = true; }
step: /0/0
answer: a scope's value is 1, and 0 was given

# out of the range, so no value that a scope can resolve to
text: module N(bool !y) { bool x; x = true; }
step: /0/2
answer: a scope's value is 1, and 2 was given

text: module N(bool !y) { bool x; x = true; }
step: /0/
answer: a scope lacks a value

# an event without a write is 0, whatever its start value is
text: module E(bool !y) { event k = true; y = k; }
step: /0/0
answer: ended

text: module E(bool !y) { event k = true; y = k; }
step: /0/1
answer: a scope's value is 0, and 1 was given

# in the second step the first scope resolves to 1, and each one that starts to 0
text: module Schizo(event !o) { loop { bool x; if(x) o = true; pause; x = true; } }
step: /0/0
step: /0/
answer: a scope lacks a value

text: module Schizo(event !o) { loop { bool x; if(x) o = true; pause; x = true; } }
step: /0/0
step: /0/1
answer: a scope lacks a value

text: module Schizo(event !o) { loop { bool x; if(x) o = true; pause; x = true; } }
step: /0/0
step: /0/0
answer: a scope lacks a value

text: module Schizo(event !o) { loop { bool x; if(x) o = true; pause; x = true; } }
step: /0/0
step: /0/1 0
answer: goes on

text: module Schizo(event !o) { loop { bool x; if(x) o = true; pause; x = true; } }
step: /0/0
step: /0/1 1
answer: a scope's value is 0, and 1 was given

text: module Schizo(event !o) { loop { bool x; if(x) o = true; pause; x = true; } }
step: /0/0
step: /0/0 0
answer: a scope's value is 1, and 0 was given

text: module Schizo(event !o) { loop { bool x; if(x) o = true; pause; x = true; } }
step: /0/0
step: /0/0 1
answer: a scope's value is 1, and 0 was given

# here two start
text: module D(event ?c, !o) { loop weak abort loop { bool x; if(x) o = true; pause; x = true; } when(c); }
step: 0/0/0
step: 1/0/1 0
answer: a scope lacks a value

text: module D(event ?c, !o) { loop weak abort loop { bool x; if(x) o = true; pause; x = true; } when(c); }
step: 0/0/0
step: 1/0/1 0 0
answer: goes on

text: module D(event ?c, !o) { loop weak abort loop { bool x; if(x) o = true; pause; x = true; } when(c); }
step: 0/0/0
step: 1/0/1 0 1
answer: a scope's value is 0, and 1 was given

text: module D(event ?c, !o) { loop weak abort loop { bool x; if(x) o = true; pause; x = true; } when(c); }
step: 0/0/0
step: 1/0/1 1 0
answer: a scope's value is 0, and 1 was given

text: module D(event ?c, !o) { loop weak abort loop { bool x; if(x) o = true; pause; x = true; } when(c); }
step: 0/0/0
step: 1/0/0 1 1
answer: a scope's value is 1, and 0 was given"#;

#[test]
fn values_of_scopes(rt: HostRuntime) -> Result<(), Fail> {
    let alloc = rt.alloc();
    for row in ANSWERS.split("\n\n") {
        let steps = values_of(alloc, row, "step")?;
        let found = answer(alloc, value_of(row, "text"), &steps)?;
        assert_eq!(rt; found.as_str(), value_of(row, "answer"), "{row}");
    }
    Ok(())
}

#[test]
fn leaves_nothing(rt: HostRuntime) -> Result<(), Fail> {
    let alloc = rt.alloc();
    let term = started(alloc, b"module N(bool !y) { bool x; x = true; }")?;
    let reaction = reaction(alloc, &term, "/0/1")?;
    assert!(rt; reaction.writes.is_empty());
    assert!(rt; reaction.faults.is_empty());
    assert!(rt; matches!(reaction.residual.form(), Form::Nothing));
    Ok(())
}

// The only element of a scope around Nothing.
fn only_element(form: &Form) -> Result<Kept, Fail> {
    let Form::Scope {
        store: Some(store),
        body,
        ..
    } = form
    else {
        return Err(Fail::new("no scope with a store"));
    };
    if !matches!(**body, Form::Nothing) {
        return Err(Fail::new("the scope has another body"));
    }
    match store.as_slice() {
        [kept] => Ok(*kept),
        _ => Err(Fail::new("the store has not one element")),
    }
}

#[test]
fn a_store_advances(rt: HostRuntime) -> Result<(), Fail> {
    let alloc = rt.alloc();
    let term = started(
        alloc,
        b"module N(bool !y) { bool x; next(x) = true; pause; }",
    )?;
    let reaction = reaction(alloc, &term, "/0/0")?;
    assert!(rt; !reaction.ended);
    let before = Kept {
        value: 0,
        pending: Some(1),
    };
    assert_eq!(rt; only_element(reaction.residual.form())?, before);
    let after = Kept {
        value: 1,
        pending: None,
    };
    assert_eq!(rt;
        only_element(tick(alloc, &reaction.residual)?.form())?,
        after
    );
    Ok(())
}
