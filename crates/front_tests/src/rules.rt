//! Rows of texts, and what the rules of names, kinds, bounds, inputs and loops say of them.

use quartz_expr::{ExprKind, kind_of, lesser_of};
use quartz_lexer::lex;
use quartz_names::{Resolved, has_call, resolve};
use quartz_parser::parse;
use quartz_tree::{Expr, Fault, Kind, Module, Place, Stmt};
use quartz_types::{check, interval, may_be_instant};
use std::alloc::Global;
use std::test::Fail;
use test_rows::pair_of;

/// The module of a text.
pub(crate) fn module_of(alloc: Global, text: &str) -> Result<Module, Fail> {
    let tokens = lex(alloc, text.as_bytes())?;
    Ok(parse(alloc, &tokens, text.as_bytes())?)
}

/// The module of a text, with numbers for names.
pub(crate) fn resolved_of(alloc: Global, text: &str) -> Result<Resolved, Fail> {
    let module = module_of(alloc, text)?;
    if has_call(&module.body) {
        return Err(Fail::new("the module has a call"));
    }
    Ok(resolve(alloc, &module)?)
}

// The first rule that a module breaks, of those from the names on, or `ok`.
fn judgement(alloc: Global, text: &str) -> Result<String, Fail> {
    let module = module_of(alloc, text)?;
    if has_call(&module.body) {
        return Err(Fail::new("the module has a call"));
    }
    let resolved = match resolve(alloc, &module) {
        Ok(resolved) => resolved,
        Err(fault) => return Ok(format!(in alloc; "{fault}")?),
    };
    match check(alloc, resolved) {
        Ok(_) => Ok(String::from_str(alloc, "ok")?),
        Err(fault) => Ok(format!(in alloc; "{fault}")?),
    }
}

const RULES: &str = "# names that aren't declared, and names that are declared twice
S3 at 1:33  module M(bool ?x) { { bool k; } k = true; }
S3 at 1:29  module M(bool ?x) { bool k, k; z = true; }
# kinds of writes
ok  module M(bool ?a) { nat{8} n; [4]nat{8} t; bv{4} v; n = 1; }
S4 at 1:53  module M(bool ?a) { nat{8} n; [4]nat{8} t; bv{4} v; a = 1; }
S4 at 1:58  module M(bool ?a) { nat{8} n; [4]nat{8} t; bv{4} v; next(t) = 1; }
S4 at 1:58  module M(bool ?a) { nat{8} n; [4]nat{8} t; bv{4} v; next(n[1]) = 1; }
S4 at 1:55  module M(bool ?a) { nat{8} n; [4]nat{8} t; bv{4} v; t[a] = 1; }
ok  module M(bool ?a) { nat{8} n; [4]nat{8} t; bv{4} v; t[1] = 1; }
S4 at 1:57  module M(bool ?a) { nat{8} n; [4]nat{8} t; bv{4} v; n = t; }
S4 at 1:53  module M(bool ?a) { nat{8} n; [4]nat{8} t; bv{4} v; v = n; }
# the kind of a condition
S4 at 1:56  module M(bool ?a) { nat{8} n; [4]nat{8} t; bv{4} v; if(n) ; }
# a part without a kind, and the kind of a constant
S4 at 1:57  module M(bool ?a) { nat{8} n; [4]nat{8} t; bv{4} v; n = !(n / n); }
S4 at 1:22  module M(nat{8} !n = true) { }
# bounds of declarations
ok  module M(nat{8} !n = 7) { }
S5 at 1:22  module M(nat{8} !n = 8) { }
S5 at 1:14  module M(nat{0} !n) { }
ok  module M([64]nat{2147483648} !n) { }
S5 at 1:14  module M(int{2147483649} !n) { }
S5 at 1:13  module M(bv{33} !n) { }
S5 at 1:11  module M([0]bool !n) { }
S5 at 1:11  module M([65]bool !n) { }
# a write of an input
S6 at 1:21  module M(bool ?a) { a = true; }
# loops
S7 at 1:21  module M(bool ?a) { loop ; }
ok  module M(bool ?a) { loop pause; }
# the first of several rules
S4 at 1:73  module M(bool ?a) { nat{8} n; loop ; a = true; n = 9223372036854775808; n = true; }
S5 at 1:52  module M(bool ?a) { nat{8} n; loop ; a = true; n = 9223372036854775808; }
S6 at 1:38  module M(bool ?a) { nat{8} n; loop ; a = true; }
S7 at 1:31  module M(bool ?a) { nat{8} n; loop ; }
ok  module M(bool ?a) { nat{8} n; n = 8; }";

#[test]
fn rules(rt: HostRuntime) -> Result<(), Fail> {
    for row in RULES.lines() {
        if row.starts_with("# ") {
            continue;
        }
        let (wanted, text) = pair_of(row);
        assert_eq!(rt; judgement(rt.alloc(), text)?.as_str(), wanted, "{row}");
    }
    Ok(())
}

// Whether a statement may end in the step in which it starts.
const INSTANTS: &str = "false  pause;
true  if(a) pause;
true  immediate abort pause; when(a);
false  abort pause; when(a);
false  immediate suspend pause; when(a);
true  immediate suspend ; when(a);
false  { ; || pause; }
true  { ; ; }
false  do pause; while(a);";

#[test]
fn instant_statements(rt: HostRuntime) -> Result<(), Fail> {
    let alloc = rt.alloc();
    for row in INSTANTS.lines() {
        let (wanted, stmt) = pair_of(row);
        let resolved = resolved_of(alloc, &format!(in alloc; "module M(bool ?a) {{ {stmt} }}")?)?;
        let found = if may_be_instant(&resolved.body) {
            "true"
        } else {
            "false"
        };
        assert_eq!(rt; found, wanted, "{row}");
    }
    Ok(())
}

// The intervals of expressions over a bool `a`, a nat{8} `n`, an array `t` of four nat{8}, and a
// bv{4} `v`.
const INTERVALS: &str = "0 7  n
10 10  0b1010
4611686018427387904 4611686018427387904  4611686018427387904
0 0  4611686018427387905
-3 4  n - 3
-12 16  (n - 3) * (n - 3)
-1 2  (n - 3) / 2
0 7  n / n
-4 4  (n - 3) / n
-2 2  (n - 3) % 3
0 0  4611686018427387904 + 1";

// The kinds of expressions over the same variables.
const KINDS: &str = "number  n / n
none  !(n / n)";

// The value of the only write of a body.
fn value_in(body: &Stmt) -> Option<&Expr<u32>> {
    let Stmt::Seq(parts) = body else {
        return None;
    };
    match parts.first()? {
        Stmt::Write { value, .. } => Some(value),
        _ => None,
    }
}

fn kind_name(kind: Option<ExprKind>) -> &'static str {
    match kind {
        Some(ExprKind::Boolean) => "truth",
        Some(ExprKind::Numeric) => "number",
        Some(ExprKind::Vector(_)) => "bits",
        None => "none",
    }
}

// The interval of an expression, and its kind.
fn judged(alloc: Global, expr: &str) -> Result<(String, &'static str), Fail> {
    let text = format!(in alloc;
        "module M(bool ?a, nat{{8}} ?n, [4]nat{{8}} ?t, bv{{4}} ?v, int{{8}} !z) {{ z = {expr}; }}"
    )?;
    let resolved = resolved_of(alloc, &text)?;
    let Some(value) = value_in(&resolved.body) else {
        return Err(Fail::new("the body is no write"));
    };
    let (low, high) = interval(value, resolved.vars.as_slice());
    let kind = kind_name(kind_of(value, resolved.vars.as_slice()));
    Ok((format!(in alloc; "{low} {high}")?, kind))
}

#[test]
fn intervals_and_kinds(rt: HostRuntime) -> Result<(), Fail> {
    for row in INTERVALS.lines() {
        let (wanted, expr) = pair_of(row);
        assert_eq!(rt; judged(rt.alloc(), expr)?.0.as_str(), wanted, "{row}");
    }
    for row in KINDS.lines() {
        let (wanted, expr) = pair_of(row);
        assert_eq!(rt; judged(rt.alloc(), expr)?.1, wanted, "{row}");
    }
    Ok(())
}

#[test]
fn least_faults(rt: HostRuntime) {
    let place = Place { line: 1, col: 7 };
    let index = Fault {
        place,
        kind: Kind::Index,
    };
    let conflict = Fault {
        place,
        kind: Kind::Conflict,
    };
    assert_eq!(rt; lesser_of(Some(conflict), Some(index)), Some(index));
    assert_eq!(rt; lesser_of(None, Some(conflict)), Some(conflict));
}
