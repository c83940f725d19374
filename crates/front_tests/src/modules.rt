//! Rows of texts, and whether they are modules.

use crate::readings::{modules_in, outcome};
use quartz_lexer::lex;
use quartz_parser::parse;
use quartz_tree::{Expr, Module, Name, Surface};
use std::alloc::Global;
use std::test::Fail;
use test_rows::{bytes_of, pair_of, spread};

// What is said of a text that is to be one module, and the text.
const MODULES: &str = r#"S2 at 1:25  module M(bool !x) { x = ; }
S1 at 1:1  /* x
S2 at 1:1
S2 at 3:1  \n // nothing\n
ok  module\r\nM\r\n()\r\n{\r\n}\r\n
S2 at 2:9  module M()\r\n{ x = 1 }\r\n
S2 at 1:16  module M() { } module N() { }
S2 at 1:8  module if() { }
S2 at 1:10  module M(?a) { }
S2 at 1:18  module M(bool ?a = 1) { }
S2 at 1:19  module M(bool ?a, b) { }
ok  module M(bool ?a, !b, nat{3} !c = 2, ?d) { }
ok  module M(event !a) { }
S2 at 1:20  module M(event [2] !a) { }
ok  module M(mem [2] bool !a) { }
ok  module M(nat{8} !x = 3) { }
ok  module M(bv{4} !b = 0b0101) { }
ok  module M() { int{8} k = -2; }
S2 at 1:27  module M() { int{8} k = - -2; }
S2 at 1:24  module M() { bool k = -0b1; }
S2 at 1:21  module M() { pause; bool a; }
ok  module M() { event a, b; mem c; pause; }
S2 at 1:40  module M() { if (a) b = 1; else c = 1; else d = 1; }
S2 at 1:17  module M() { L: x = 1; }
S2 at 1:27  module M() { L: immediate pause; }
ok  module M() { L: immediate await (a); }
S2 at 1:24  module M() { immediate pause; }
S2 at 1:19  module M() { weak weak abort pause; when (a); }
ok  module M() { emit (x); emit x[1]; emit next(x); }
S2 at 1:21  module M() { emit (x; }
S2 at 1:24  module M() { emit next x; }
S2 at 1:18  module M() { N(a,); }
S2 at 1:16  module M() { N(1); }
S2 at 1:18  module M() { x = = 1; }
S2 at 1:20  module M() { x = a = = b; }
ok  module M() { x = a{1:0}{0}; }
ok  module M() { x = !a{0}; }
ok  module M() { x = (a == b){0}; }
S2 at 1:26  module M() { x = nat2bv(a); }
S2 at 1:19  module M() { x = 0b; }
# levels
ok  module M() «{ × 64»«} × 64»
S2 at 1:76  module M() «{ × 65»«} × 65»
ok  module M() «{ × 64»bool a; ||«} × 64»
S2 at 1:76  module M() «{ × 64»;«} × 64»
ok  module M() «{ × 63»;«} × 63»
ok  module M() «{ × 63»L: pause;«} × 63»
ok  module M() «{ × 63»immediate await (a);«} × 63»
S2 at 1:85  module M() «{ × 63»immediate weak
S2 at 1:85  module M() «{ × 63»immediate abort
ok  module M() «{ × 62»immediate abort ; when (a);«} × 62»
S2 at 1:75  module M() «{ × 63»if
S2 at 1:75  module M() «{ × 63»loop
S2 at 1:75  module M() «{ × 63»always
S2 at 1:75  module M() «{ × 63»while
S2 at 1:75  module M() «{ × 63»do
S2 at 1:75  module M() «{ × 63»weak
S2 at 1:75  module M() «{ × 63»abort
S2 at 1:75  module M() «{ × 63»suspend
ok  module M() «{ × 62»if (a) ; else ;«} × 62»
S2 at 1:88  module M() «{ × 62»if (a) ; else loop
ok  module M() { x = «a+ × 63»a; }
S2 at 1:145  module M() { x = «a+ × 64»a; }
ok  module M() { x = «a-> × 63»a; }
S2 at 1:208  module M() { x = «a-> × 64»a; }
ok  module M() { x = «! × 63»a; }
S2 at 1:81  module M() { x = «! × 64»a; }
S2 at 1:81  module M() { x = «- × 64»a; }
S2 at 1:81  module M() { x = «( × 64»a«) × 64»
S2 at 1:208  module M() { x = «a[ × 63»a«] × 63»
S2 at 1:145  module M() { x = «a[ × 64»a«] × 64»
S2 at 1:81  module M() { x = «! × 63»bv2nat(a)
S2 at 1:81  module M() { x = «! × 63»nat2bv(a, 1)
ok  module M() { x = «! × 62»a + !b ; }
ok  module M() { x[«! × 63»a] = 1; }
S2 at 1:79  module M() { x[«! × 64»a] = 1; }"#;

#[test]
fn modules(rt: HostRuntime) -> Result<(), Fail> {
    let alloc = rt.alloc();
    for row in MODULES.lines() {
        if row.starts_with("# ") {
            continue;
        }
        let (wanted, text) = pair_of(row);
        let text = bytes_of(alloc, &spread(alloc, text)?)?;
        assert_eq!(rt; outcome(alloc, &text)?.as_str(), wanted, "{row}");
    }
    Ok(())
}

// How many modules a text has, or what is said of it, and the text.
const TEXTS: &str =
    r#"2  module Main(bool ?x, !a) { Inv(x, a); } module Inv(bool ?p, !q) { always { q = !p; } }
1  module M() { }
S2 at 1:1
S2 at 1:16  module M() { } }
S2 at 1:22  module M() { } module
2  module M() { } module N() { } // end"#;

#[test]
fn texts(rt: HostRuntime) -> Result<(), Fail> {
    for row in TEXTS.lines() {
        let (wanted, text) = pair_of(row);
        let found = modules_in(rt.alloc(), text.as_bytes())?;
        assert_eq!(rt; found.as_str(), wanted, "{row}");
    }
    Ok(())
}

// A module with every form, whose words have a blank between.
const WHOLE: &[u8] =
    b"module M ( nat { 8 } ? a , ! b = 3 , event ! c , mem [ 2 ] bv { 4 } ! d ) { event e , f ; mem bool g = true , h ; int { 8 } k = - 2 ; bv { 4 } w = 0b0101 ; nothing ; ; pause ; L : pause ; halt ; L : halt ; await ( a ) ; L : await ( a ) ; immediate await ( a ) ; L : immediate await ( a ) ; emit e ; emit ( e ) ; emit next ( e ) ; emit d [ 1 ] ; x = 1 ; d [ 0 ] = 2 ; next ( g ) = 1 ; next ( d [ 1 ] ) = 1 ; if ( a ) x = 1 ; else { x = 2 ; } if ( b ) ; loop { pause ; } always x = 1 ; while ( a ) pause ; do pause ; while ( b ) ; abort pause ; when ( a ) ; suspend pause ; when ( a ) ; weak abort pause ; when ( a ) ; immediate suspend pause ; when ( a ) ; weak immediate abort pause ; when ( a ) ; immediate weak suspend pause ; when ( a ) ; { bool q ; x = 1 ; || x = 2 ; || } N ( ) ; N ( a ) ; N ( a , b ) ; x = ! a & - 1 == d [ a { 1 : 0 } ] ? bv2nat ( w { 2 } ) + nat2bv ( 3 , 4 ) : ( false ) ; }";

#[test]
fn a_cut_text_is_refused_at_its_end(rt: HostRuntime) -> Result<(), Fail> {
    assert_eq!(rt; outcome(rt.alloc(), WHOLE)?.as_str(), "ok");
    for (at, byte) in WHOLE.iter().enumerate() {
        if *byte == b' ' {
            let col = at + 1;
            let wanted = format!(in rt.alloc(); "S2 at 1:{col}")?;
            let found = outcome(rt.alloc(), &WHOLE[..at])?;
            assert_eq!(rt; found.as_str(), wanted.as_str());
        }
    }
    Ok(())
}

/// The value of the first write in the body.
fn value(module: &Module) -> Option<&Expr<Name>> {
    let Surface::Block { branches, .. } = &module.body else {
        return None;
    };
    let Surface::Write { value, .. } = branches.first()?.first()? else {
        return None;
    };
    Some(value)
}

// Which operands of an expression have an operator of their own, and the expression.
const GROUPS: &str = r#"left  a <-> b <-> c
right  a -> b -> c
left  a | b | c
left  a ^ b ^ c
left  a & b & c
left  a == b != c
left  a < b >= c
left  a > b <= c
left  a @ b @ c
left  a + b - c
left  a * b / c
left  a % b % c
right  a <-> b -> c
left  a -> b <-> c
right  a -> b | c
right  a | b ^ c
right  a ^ b & c
right  a & b == c
right  a != b < c
right  a > b @ c
right  a @ b + c
right  a - b * c
both  a * b - c * d
none  !a & b
one  -(a + b)
choice  a ? b : c ? d : e
choice  a -> b ? c : d"#;

/// Which operands of the expression have an operator of their own.
fn grouped(alloc: Global, expr: &str) -> Result<&'static str, Fail> {
    let text = format!(in alloc; "module M() {{ x = {expr}; }}")?;
    let tokens = lex(alloc, text.as_bytes())?;
    let module = parse(alloc, &tokens, text.as_bytes())?;
    Ok(match value(&module) {
        Some(Expr::Two { left, right, .. }) => match (&**left, &**right) {
            (Expr::Two { .. }, Expr::Two { .. }) => "both",
            (Expr::Two { .. }, _) => "left",
            (_, Expr::Two { .. }) => "right",
            _ => "none",
        },
        Some(Expr::One { .. }) => "one",
        Some(Expr::Choice { .. }) => "choice",
        _ => "other",
    })
}

#[test]
fn operands(rt: HostRuntime) -> Result<(), Fail> {
    for row in GROUPS.lines() {
        let (wanted, expr) = pair_of(row);
        assert_eq!(rt; grouped(rt.alloc(), expr)?, wanted, "{row}");
    }
    Ok(())
}
