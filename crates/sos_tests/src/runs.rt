//! Runs of terms, walked step by step.

use crate::outputs::{Output, after_writes, outputs};
use crate::reading::{reacted, started, step_of};
use crate::shapes::put_form;
use quartz_tree::{Fault, Kind};
use sos_model::{Act, Reaction};
use std::alloc::Global;
use std::test::Fail;
use test_rows::{value_of, values_of};

pub(crate) fn after_step(
    alloc: Global,
    before: &[Output],
    writes: &[Act],
) -> Result<Vec<Output>, Fail> {
    let mut all = Vec::new(alloc);
    for output in before {
        all.push(after_writes(*output, writes))?;
    }
    Ok(all)
}

// Whether the outputs have these values.
pub(crate) fn agree(outputs: &[Output], given: &[i64]) -> bool {
    if outputs.len() != given.len() {
        return false;
    }
    for (output, value) in outputs.iter().zip(given) {
        if output.kept.value != *value {
            return false;
        }
    }
    true
}

fn kind_name(kind: Kind) -> &'static str {
    match kind {
        Kind::Range => "range",
        Kind::Index => "index",
        Kind::Divisor => "divisor",
        Kind::Conflict => "conflict",
    }
}

fn put_fault(alloc: Global, out: &mut String, fault: Fault) -> Result<(), Fail> {
    let name = kind_name(fault.kind);
    out.push_str(&format!(in alloc; " {name} {}:{}", fault.place.line, fault.place.col)?)?;
    Ok(())
}

fn put_outputs(alloc: Global, out: &mut String, outputs: &[Output]) -> Result<(), Fail> {
    for output in outputs {
        out.push_str(&format!(in alloc; " {}", output.kept.value)?)?;
    }
    Ok(())
}

pub(crate) fn put_faults(alloc: Global, out: &mut String, faults: &[Fault]) -> Result<(), Fail> {
    for fault in faults {
        put_fault(alloc, out, *fault)?;
    }
    Ok(())
}

fn put_conflicts(alloc: Global, out: &mut String, outputs: &[Output]) -> Result<(), Fail> {
    for output in outputs {
        if output.conflict {
            let fault = Fault {
                place: output.place,
                kind: Kind::Conflict,
            };
            put_fault(alloc, out, fault)?;
        }
    }
    Ok(())
}

// A line for a macro step: the outputs, the faults and whether the body ended; and behind a bar the
// held term.
fn line_of(alloc: Global, outputs: &[Output], reaction: &Reaction) -> Result<String, Fail> {
    let mut line = String::new(alloc);
    put_outputs(alloc, &mut line, outputs)?;
    put_faults(alloc, &mut line, &reaction.faults)?;
    put_conflicts(alloc, &mut line, outputs)?;
    line.push_str(if reaction.ended { " end |" } else { " |" })?;
    put_form(alloc, &mut line, reaction.held.form())?;
    line.push_str("\n")?;
    Ok(line)
}

// The lines of a run, if each step's outputs are the ones that their stores and the writes give.
fn run(alloc: Global, text: &[u8], steps: &str) -> Result<String, Fail> {
    let mut out = String::new(alloc);
    let mut term = started(alloc, text)?;
    let mut kept = outputs(alloc, term.vars())?;
    for line in steps.lines() {
        let step = step_of(alloc, line)?;
        let reaction = reacted(alloc, &term, &step)??;
        kept = after_step(alloc, &kept, &reaction.writes)?;
        if !agree(&kept, &step.outputs) {
            return Err(Fail::new("an output has another value than the resolved one"));
        }
        out.push_str(line_of(alloc, &kept, &reaction)?.trim_start())?;
        term = reaction.residual;
    }
    Ok(out)
}

// Texts, and for each macro step the elements of the inputs, those of the outputs and the values
// for the scopes that are met, with `/` between, and the line of what comes of it.
const RUNS: &str = r#"# aborts
text: module ABRO(event ?a, ?b, ?r, !o) { loop abort { { await(a); || await(b); } emit o; halt; } when(r); }
step: 0 0 0/0/
line: 0 |[loop abort [([loop pause] | [loop pause]) w3 loop pause]]
step: 1 0 0/0/
line: 0 |[immediate abort [([- if(loop pause, -)] | [- if(loop pause, -)]) w3 loop pause] if(loop abort [([loop pause] | [loop pause]) w3 loop pause], -)]
step: 0 1 0/1/
line: 1 |[immediate abort [(- | [- if(loop pause, -)]) w3 loop pause] if(loop abort [([loop pause] | [loop pause]) w3 loop pause], -)]
step: 1 1 0/0/
line: 0 |[immediate abort [- if(loop pause, -)] if(loop abort [([loop pause] | [loop pause]) w3 loop pause], -)]
step: 0 0 1/0/
line: 0 |[immediate abort [- if(loop pause, -)] if(loop abort [([loop pause] | [loop pause]) w3 loop pause], -)]
step: 1 1 0/1/
line: 1 |[immediate abort [([- if(loop pause, -)] | [- if(loop pause, -)]) w3 loop pause] if(loop abort [([loop pause] | [loop pause]) w3 loop pause], -)]

# a strong abort does nothing in the step that aborts it, and a weak one still emits
text: module T(event ?c, !s, !w) { abort loop { emit s; pause; } when(c); || weak abort loop { emit w; pause; } when(c); }
step: 0/1 1/
line: 1 1 |([abort loop [w1 pause]] | [weak abort loop [w2 pause]])
step: 0/1 1/
line: 1 1 |(immediate abort [- if(loop [w1 pause], -)] | weak immediate abort [- if(loop [w2 pause], -)])
step: 1/0 1/
line: 0 1 end |(immediate abort [- if(loop [w1 pause], -)] | weak immediate abort [- if(loop [w2 pause], -)])
step: 0/0 0/
line: 0 0 end |-

# an immediate one ends in the step in which it starts
text: module I(event ?c, !s, !t) { weak immediate abort { emit s; pause; emit s; } when(c); emit t; }
step: 1/1 1/
line: 1 1 end |[weak immediate abort [w1 pause w1] w2]
step: 0/0 0/
line: 0 0 end |-

text: module I(event ?c, !s, !t) { weak immediate abort { emit s; pause; emit s; } when(c); emit t; }
step: 0/1 0/
line: 1 0 |[weak immediate abort [w1 pause w1] w2]
step: 0/1 1/
line: 1 1 end |[weak immediate abort [- w1] w2]

# suspensions: a pending write of an output arrives while the body is held
text: module U(event ?c, nat{8} !n) { suspend loop { next(n) = (n + 1) % 8; pause; } when(c); }
step: 0/0/
line: 0 |[suspend loop [n1 pause]]
step: 0/1/
line: 1 |immediate suspend [- if(loop [n1 pause], -)]
step: 1/2/
line: 2 |immediate suspend [- if(loop [n1 pause], -)]
step: 0/2/
line: 2 |immediate suspend [- if(loop [n1 pause], -)]
step: 0/3/
line: 3 |immediate suspend [- if(loop [n1 pause], -)]

# so do those of locals: then a memorized one keeps its value, and an event doesn't
text: module K(event ?c, nat{8} !u, !v) { suspend { nat{8} k; event nat{8} e; next(k) = 5; next(e) = 5; pause; u = k; v = e; } when(c); }
step: 0/0 0/0 0
line: 0 0 |[suspend {3: {4: [n3 n4 pause w1 w2]}}]
step: 1/0 0/
line: 0 0 |immediate suspend {3 = 5: {4 = 5: [- w1 w2]}}
step: 1/0 0/
line: 0 0 |immediate suspend {3 = 5: {4 = 0: [- w1 w2]}}
step: 0/5 0/5 0
line: 5 0 end |immediate suspend {3 = 5: {4 = 0: [- w1 w2]}}

# under a weak one the held store advances, and the store of the scope that was entered is dropped
text: module W(event ?c, nat{8} !u, !v) { weak suspend loop { nat{8} k; v = (k + 1) % 8; next(k) = 5; pause; u = k; next(k) = (k + 1) % 8; } when(c); }
step: 0/0 1/0
line: 0 1 |[weak suspend loop {3: [w2 n3 pause w1 n3]}]
step: 0/5 1/5 0
line: 5 1 |weak immediate suspend [{3 = 5'6: [- w1 n3]} if(loop {3: [w2 n3 pause w1 n3]}, -)]
step: 1/5 1/5 0
line: 5 1 |weak immediate suspend [{3 = 5'6: [- w1 n3]} if(loop {3: [w2 n3 pause w1 n3]}, -)]
step: 1/6 1/6 0
line: 6 1 |weak immediate suspend [{3 = 6'7: [- w1 n3]} if(loop {3: [w2 n3 pause w1 n3]}, -)]
step: 0/7 1/7 0
line: 7 1 |weak immediate suspend [{3 = 7'0: [- w1 n3]} if(loop {3: [w2 n3 pause w1 n3]}, -)]
step: 0/5 1/5 0
line: 5 1 |weak immediate suspend [{3 = 5'6: [- w1 n3]} if(loop {3: [w2 n3 pause w1 n3]}, -)]

# a scope that starts in a held step is held without a store, and starts again
text: module H(event ?c, nat{8} !u) { weak immediate suspend { nat{8} k; u = k; next(k) = 5; pause; u = k; } when(c); }
step: 1/0/0
line: 0 |[weak immediate suspend {2: [w1 n2 pause w1]}]
step: 0/0/0
line: 0 |weak immediate suspend {2: [w1 n2 pause w1]}
step: 1/5/5
line: 5 |weak immediate suspend {2 = 5: [- w1]}
step: 0/5/5
line: 5 end |weak immediate suspend {2 = 5: [- w1]}

# scopes that start: a scope that is entered again has a fresh copy of its variable
text: module Schizo(event !o) { loop { bool x; if(x) o = true; pause; x = true; } }
step: /0/0
line: 0 |[loop {1: [if(w0, -) pause w1]}]
step: /0/1 0
line: 0 |[{1 = 1: [- w1]} if(loop {1: [if(w0, -) pause w1]}, -)]
step: /0/1 0
line: 0 |[{1 = 1: [- w1]} if(loop {1: [if(w0, -) pause w1]}, -)]

# also where it starts twice in one step, beside the scope that ends in it
text: module D(event ?c, !o) { loop weak abort loop { bool x; if(x) o = true; pause; x = true; } when(c); }
step: 0/0/0
line: 0 |[loop weak abort loop {2: [if(w1, -) pause w2]}]
step: 1/0/1 0 0
line: 0 |[weak immediate abort [{2 = 1: [- w2]} if(loop {2: [if(w1, -) pause w2]}, -)] if(loop weak abort loop {2: [if(w1, -) pause w2]}, -)]
step: 0/0/1 0
line: 0 |[weak immediate abort [{2 = 1: [- w2]} if(loop {2: [if(w1, -) pause w2]}, -)] if(loop weak abort loop {2: [if(w1, -) pause w2]}, -)]

# the start value of a local counts each time that its scope is entered
text: module R(nat{8} !u, !v) { loop { nat{8} k = 2; u = k; next(k) = (k + 3) % 8; pause; v = k; } }
step: /2 0/2
line: 2 0 |[loop {2: [w0 n2 pause w1]}]
step: /2 5/5 2
line: 2 5 |[{2 = 5: [- w1]} if(loop {2: [w0 n2 pause w1]}, -)]
step: /2 5/5 2
line: 2 5 |[{2 = 5: [- w1]} if(loop {2: [w0 n2 pause w1]}, -)]

text: module S(nat{8} !x = 3) { loop { pause; next(x) = (x + 1) % 8; } }
step: /3/
line: 3 |[loop [pause n0]]
step: /3/
line: 3 |[[- n0] if(loop [pause n0], -)]
step: /4/
line: 4 |[[- n0] if(loop [pause n0], -)]
step: /5/
line: 5 |[[- n0] if(loop [pause n0], -)]

# an event's has no effect
text: module M(event !x = true) { }
step: /0/
line: 0 end |[]

text: module E(bool !y) { event k = true; y = k; }
step: /0/0
line: 0 end |{1: [w0]}

# conflicts
text: module F(nat{16} ?i, bool ?x, ?y, nat{2} !z, bool !a) { [4]nat{2} t; always { z = t[i]; || a = x; || a = y; } }
step: 0 0 0/0 0/0 0 0 0
line: 0 0 |{5: [loop [([w3] | [w4] | [w4]) pause]]}
step: 1 1 1/0 1/0 0 0 0
line: 0 1 |{5 = 0 0 0 0: [- if(loop [([w3] | [w4] | [w4]) pause], -)]}
step: 2 0 0/0 0/0 0 0 0
line: 0 0 |{5 = 0 0 0 0: [- if(loop [([w3] | [w4] | [w4]) pause], -)]}
step: 3 1 0/0 1/0 0 0 0
line: 0 1 conflict 1:52 |{5 = 0 0 0 0: [- if(loop [([w3] | [w4] | [w4]) pause], -)]}

# a pending value and a write
text: module P(bool ?u, bool !x) { next(x) = true; pause; x = u; }
step: 0/0/
line: 0 |[n1 pause w1]
step: 1/1/
line: 1 end |[- w1]

text: module P(bool ?u, bool !x) { next(x) = true; pause; x = u; }
step: 0/0/
line: 0 |[n1 pause w1]
step: 0/1/
line: 1 conflict 1:25 end |[- w1]

# two delayed writes
text: module Q(bool !x) { next(x) = true; || next(x) = false; }
step: /0/
line: 0 conflict 1:16 end |([n0] | [n0])

# in a scope a conflict is a fault of the reaction
text: module L(bool !y) { bool x; next(x) = true; pause; x = false; }
step: /0/0
line: 0 |{1: [n1 pause w1]}
step: /0/1
line: 0 conflict 1:26 end |{1 = 1: [- w1]}

# faulty values: an index of a target, and one in an expression
text: module A(nat{4} ?i, [3]bool !t) { always { t[i] = true; } }
step: 0/1 0 0/
line: 1 0 0 |[loop [[w1] pause]]
step: 2/1 0 1/
line: 1 0 1 |[- if(loop [[w1] pause], -)]
step: 3/1 0 1/
line: 1 0 1 index 1:44 |[- if(loop [[w1] pause], -)]

text: module B(nat{4} ?i, bool !y) { [3]bool t = true; y = t[i]; }
step: 2/1/1 1 1
line: 1 end |{2: [w1]}

text: module B(nat{4} ?i, bool !y) { [3]bool t = true; y = t[i]; }
step: 3/0/1 1 1
line: 0 index 1:54 end |{2: [w1]}

# a value out of its range
text: module Over(nat{4} !n) { loop { next(n) = n + 1; pause; } }
step: /0/
line: 0 |[loop [n0 pause]]
step: /1/
line: 1 |[- if(loop [n0 pause], -)]
step: /2/
line: 2 |[- if(loop [n0 pause], -)]
step: /3/
line: 3 range 1:33 |[- if(loop [n0 pause], -)]
step: /0/
line: 0 |[- if(loop [n0 pause], -)]"#;

#[test]
fn runs(rt: HostRuntime) -> Result<(), Fail> {
    let alloc = rt.alloc();
    for row in RUNS.split("\n\n") {
        let steps = values_of(alloc, row, "step")?;
        let lines = values_of(alloc, row, "line")?;
        let found = run(alloc, value_of(row, "text").as_bytes(), &steps)?;
        assert_eq!(rt; found.as_str(), lines.as_str(), "{row}");
    }
    Ok(())
}
