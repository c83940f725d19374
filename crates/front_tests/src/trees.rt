//! Rows of texts, and the trees that they are: with the derived forms replaced, and with numbers
//! for names.

use crate::rules::{module_of, resolved_of};
use quartz_names::start_value;
use quartz_tree::expand;
use std::alloc::Global;
use std::test::Fail;
use test_rows::{pair_of, text_of, value_of};

// The debug text of a tree, in which places are `line:col`.
fn terse(alloc: Global, tree: &str) -> Result<String, Fail> {
    let mut out = String::new(alloc);
    for (at, part) in tree.split("Place { line: ").enumerate() {
        if at == 0 {
            out.push_str(part)?;
            continue;
        }
        let (line, rest) = part.split_once(", col: ").unwrap_or((part, ""));
        let (col, rest) = rest.split_once(" }").unwrap_or((rest, ""));
        out.push_str(line)?;
        out.push_str(":")?;
        out.push_str(col)?;
        out.push_str(rest)?;
    }
    Ok(out)
}

// Bodies, and their trees with the derived forms replaced.
const EXPANDED: &str = r#"# waits
text: module M() {\n    await(c); }
tree: Block { decls: [], branches: [[Do { body: Pause, cond: One { op: Not, part: Named { var: Name { text: "c" }, place: 2:11 }, place: 2:11 }, place: 2:5 }]] }

text: module M() {\n        immediate await(c); }
tree: Block { decls: [], branches: [[If { cond: One { op: Not, part: Named { var: Name { text: "c" }, place: 2:25 }, place: 2:25 }, yes: Do { body: Pause, cond: One { op: Not, part: Named { var: Name { text: "c" }, place: 2:25 }, place: 2:25 }, place: 2:9 }, no: None }]] }

text: module M() {\n  halt; }
tree: Block { decls: [], branches: [[Do { body: Pause, cond: Truth { value: true, place: 2:3 }, place: 2:3 }]] }

# emissions
text: module M() {\n   emit o; }
tree: Block { decls: [], branches: [[Write { delayed: false, target: Target { name: Name { text: "o" }, index: None, place: 2:9 }, value: Truth { value: true, place: 2:4 }, place: 2:4 }]] }

text: module M() {\n   emit next(o); }
tree: Block { decls: [], branches: [[Write { delayed: true, target: Target { name: Name { text: "o" }, index: None, place: 2:14 }, value: Truth { value: true, place: 2:4 }, place: 2:4 }]] }

# loops
text: module M() {\nloop halt; }
tree: Block { decls: [], branches: [[Do { body: Do { body: Pause, cond: Truth { value: true, place: 2:6 }, place: 2:6 }, cond: Truth { value: true, place: 2:1 }, place: 2:1 }]] }

text: module M() {\n always ; }
tree: Block { decls: [], branches: [[Do { body: Block { decls: [], branches: [[Empty, Pause]] }, cond: Truth { value: true, place: 2:2 }, place: 2:2 }]] }

text: module M() {\n  while(c) pause; }
tree: Block { decls: [], branches: [[If { cond: Named { var: Name { text: "c" }, place: 2:9 }, yes: Do { body: Pause, cond: Named { var: Name { text: "c" }, place: 2:9 }, place: 2:3 }, no: None }]] }

# a whole body
text: module ABRO(event ?a, ?b, ?r, !o) { loop abort { { await(a); || await(b); } emit o; halt; } when(r); }
tree: Block { decls: [], branches: [[Do { body: Guard { abort: true, weak: false, immediate: false, body: Block { decls: [], branches: [[Block { decls: [], branches: [[Do { body: Pause, cond: One { op: Not, part: Named { var: Name { text: "a" }, place: 1:58 }, place: 1:58 }, place: 1:52 }], [Do { body: Pause, cond: One { op: Not, part: Named { var: Name { text: "b" }, place: 1:71 }, place: 1:71 }, place: 1:65 }]] }, Write { delayed: false, target: Target { name: Name { text: "o" }, index: None, place: 1:82 }, value: Truth { value: true, place: 1:77 }, place: 1:77 }, Do { body: Pause, cond: Truth { value: true, place: 1:85 }, place: 1:85 }]] }, cond: Named { var: Name { text: "r" }, place: 1:98 } }, cond: Truth { value: true, place: 1:37 }, place: 1:37 }]] }"#;

#[test]
fn derived_forms(rt: HostRuntime) -> Result<(), Fail> {
    let alloc = rt.alloc();
    for row in EXPANDED.split("\n\n") {
        let module = module_of(alloc, &text_of(alloc, value_of(row, "text"))?)?;
        let body = expand(alloc, &module.body)?;
        let found = terse(alloc, &format!(in alloc; "{body:?}")?)?;
        assert_eq!(rt; found.as_str(), value_of(row, "tree"), "{row}");
    }
    Ok(())
}

// A body in which inner names hide outer ones, its tree over numbers, and which variables have
// delayed writes.
const NUMBERED: &str = r#"text: module M(bool ?x) { bool x; { bool x; next(x) = true; } x = true; }
tree: Local { var: 1, body: Seq([Local { var: 2, body: Seq([Write { var: 2, index: None, value: Truth { value: true, place: 1:49 }, delayed: true, place: 1:39, target_place: 1:44 }]) }, Write { var: 1, index: None, value: Truth { value: true, place: 1:61 }, delayed: false, place: 1:57, target_place: 1:57 }]) }
delayed: false false true"#;

#[test]
fn inner_names_hide_outer_ones(rt: HostRuntime) -> Result<(), Fail> {
    let alloc = rt.alloc();
    let resolved = resolved_of(alloc, value_of(NUMBERED, "text"))?;
    let found = terse(alloc, &format!(in alloc; "{:?}", resolved.body)?)?;
    assert_eq!(rt; found.as_str(), value_of(NUMBERED, "tree"));
    let mut delayed = String::new(alloc);
    for (at, var) in resolved.vars.as_slice().iter().enumerate() {
        let between = if at == 0 { "" } else { " " };
        delayed.push_str(&format!(in alloc; "{between}{}", var.delayed)?)?;
    }
    assert_eq!(rt; delayed.as_str(), value_of(NUMBERED, "delayed"));
    Ok(())
}

// The start values of parameters.
const STARTS: &str = "-8  int{8} !x = -8
0  int{8} !x = -9
0  int{8} !x = -0
7  nat{8} !x = 7
0  nat{8} !x = 8
0  nat{0} !x = 1
0  bool !x = 1
1  bool !x = true
10  bv{4} !x = 0b1010
0  bv{4} !x = 0b101
0  nat{8} !x";

#[test]
fn start_values(rt: HostRuntime) -> Result<(), Fail> {
    let alloc = rt.alloc();
    for row in STARTS.lines() {
        let (wanted, param) = pair_of(row);
        let module = module_of(alloc, &format!(in alloc; "module M({param}) {{ }}")?)?;
        let Some(decl) = module.params.first() else {
            return Err(Fail::new("the module has no parameter"));
        };
        let found = format!(in alloc; "{}", start_value(decl))?;
        assert_eq!(rt; found.as_str(), wanted, "{row}");
    }
    Ok(())
}
