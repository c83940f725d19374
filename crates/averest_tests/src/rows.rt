//! Rows of whole runs: the words of a command, a text and a trace, which calls of the adapters
//! fail, and the status, the output and the report that come of them.

use crate::runs::check_rows;
use std::test::Fail;

const RUNS: &str = r#"# runs
words: run M
text: module M(bool ?x, ?y, !a) { always { a = x & !y; } }
trace: 1 0\n1 1\n
status: 0
output: 1\n0\n

words: run M
text: module M(bool ?x, ?y, !a) { always { a = x & !y; } }
trace: 0 0\n0 1\n1 0\n
status: 0
output: 0\n0\n1\n

words: run M
text: module M(bool ?x, ?y, !a) { always { a = x & !y; } }
trace: 1 0\n1\n
status: 4
output: 1\n
report: averest: bad input at step 1\n

words: run M
text: module M(bool ?x, ?y, !a) { always { a = x & !y; } }
status: 0

# without inputs, and without outputs
words: run M
text: module N(bool !a, !b) { always { } }
trace: \n\n
status: 0
output: 0 0\n0 0\n

words: run M
text: module N(bool ?x) { always { } }
trace: 1\n0\n
status: 0
output: \n\n

# an output without a write keeps its value, and one with a write has it in each step
words: run M
text: module N(bool ?x, !a, !b) { always { b = !x; } }
trace: 0\n1\n
status: 0
output: 0 1\n0 0\n

# the order of the writes, and blanks and comments
words: run M
text: module N(bool ?x, !a, ?y, !b) { always { b = x; a = x & y; } }
trace: 1 0\n1 1\n
status: 0
output: 0 1\n1 1\n

words: run M
text: module N(bool?x,!a){always{a=x;}} // end
trace: 1\n
status: 0
output: 1\n

# the type said again
words: run M
text: module N(bool ?x, mem bool !a) { always { a = x; } }
trace: 1\n
status: 0
output: 1\n

words: run M
text: /* M */ module N ( bool ? x , ! a ) { always { a = ! x & ! x & x ; } }
trace: 0\n
status: 0
output: 0\n

# words and faults: no words at all
text: module M(bool ?x, ?y, !a) { always { a = x & !y; } }
trace: 1 0\n1 1\n
status: 1
report: averest: usage\n

words: run
text: module M(bool ?x, ?y, !a) { always { a = x & !y; } }
trace: 1 0\n1 1\n
status: 1
report: averest: usage\n

words: run M M
text: module M(bool ?x, ?y, !a) { always { a = x & !y; } }
trace: 1 0\n1 1\n
status: 1
report: averest: usage\n

words: run --ring
text: module M(bool ?x, ?y, !a) { always { a = x & !y; } }
trace: 1 0\n1 1\n
status: 1
report: averest: usage\n

words: run Absent
text: module M(bool ?x, ?y, !a) { always { a = x & !y; } }
trace: 1 0\n1 1\n
status: 2
report: averest: module unavailable\n

words: run M
text: module M(bool ?x, ?y, !a) { always { a = x & !y; } }
trace: 1 0\n1 1\n
takes: 0
status: 6
report: averest: read fault\n

words: run M
text: module M(bool ?x, ?y, !a) { always { a = x & !y; } }
trace: 1 0\n1 1\n
puts: 1
status: 7
output: 1\n
report: averest: write fault\n

words: run M
text: module M(bool ?x, ?y, !a) { always { a = x & !y; } }
trace: 1 0\n1 1\n
puts: 0
reports: 0
status: 7

words: run -- M
text: module M(bool ?x, ?y, !a) { always { a = x & !y; } }
trace: 1 0\n1 1\n
status: 0
output: 1\n0\n

words: run M --max-steps 4294967295
text: module M(bool ?x, ?y, !a) { always { a = x & !y; } }
trace: 1 0\n1 1\n
status: 0
output: 1\n0\n

words: run --stages=4 M --workers 2 --ring +08
text: module M(bool ?x, ?y, !a) { always { a = x & !y; } }
trace: 1 0\n1 1\n
status: 0
output: 1\n0\n

# a readable line behind the greatest number of steps, and none
words: run M --max-steps 1
text: module M(bool ?x, ?y, !a) { always { a = x & !y; } }
trace: 1 0\n1 1\n
status: 8
output: 1\n
report: averest: step limit\n

words: run --max-steps=2 M
text: module M(bool ?x, ?y, !a) { always { a = x & !y; } }
trace: 1 0\n1 1\n
status: 0
output: 1\n0\n

# texts that the shelf lacks
words: check Absent --strict
text: module M(bool ?x, ?y, !a) { always { a = x & !y; } }
trace: 1 0\n1 1\n
status: 2
report: averest: module unavailable\n

words: aif Absent
text: module M(bool ?x, ?y, !a) { always { a = x & !y; } }
trace: 1 0\n1 1\n
status: 2
report: averest: module unavailable\n

words: load Absent --seed 1 --steps 1
text: module M(bool ?x, ?y, !a) { always { a = x & !y; } }
trace: 1 0\n1 1\n
status: 2
report: averest: module unavailable\n

# commands that aren't built, before the shelf is asked
words: run Absent --witness
text: module M(bool ?x, ?y, !a) { always { a = x & !y; } }
trace: 1 0\n1 1\n
status: 3
report: averest: refused S0 at 1:1\n

words: plan Absent --stages 2
text: module M(bool ?x, ?y, !a) { always { a = x & !y; } }
trace: 1 0\n1 1\n
status: 3
report: averest: refused S0 at 1:1\n

words: verify Absent
text: module M(bool ?x, ?y, !a) { always { a = x & !y; } }
trace: 1 0\n1 1\n
status: 3
report: averest: refused S0 at 1:1\n

# traces written anew
words: convert Absent --to 2
text: module M(bool ?x, ?y, !a) { always { a = x & !y; } }
trace: 1 0\n1 1\n
status: 2
report: averest: module unavailable\n

words: convert M --to 2
text: module C(bool ?x, bool ?y, bool !a) { always { a = x; || a = y; } }
trace: 1 1\n1 0\n0 0\n
status: 0
output: # x y\n1 1\n_ 0\n0 _\n

words: convert M --to 1
text: module C(bool ?x, bool ?y, bool !a) { always { a = x; || a = y; } }
trace: # x y\n1 1\n_ 0\n0 _\n
status: 0
output: 1 1\n1 0\n0 0\n

words: convert M --to=1
text: module C(bool ?x, bool ?y, bool !a) { always { a = x; || a = y; } }
trace: # y\n1\n_
status: 0
output: 0 1\n0 1\n

words: convert M --to 2
text: module C(bool ?x, bool ?y, bool !a) { always { a = x; || a = y; } }
status: 0
output: # x y\n

words: convert M --to 2
text: module C(bool ?x, bool ?y, bool !a) { always { a = x; || a = y; } }
trace: 1 0\n2 0\n0 0\n
status: 4
output: # x y\n1 _\n
report: averest: bad input at step 1\n

words: convert M --to 2
text: module C(bool ?x, bool ?y, bool !a) { always { a = x; || a = y; } }
trace: 1 0\n
takes: 0
status: 6
output: # x y\n
report: averest: read fault\n

words: convert M --to 1
text: module C(bool ?x, bool ?y, bool !a) { always { a = z; } }
trace: 1 0\n
status: 3
report: averest: refused S3 at 1:52\n

# words that are none
words: plan M
text: module M(bool ?x, ?y, !a) { always { a = x & !y; } }
trace: 1 0\n1 1\n
status: 1
report: averest: usage\n

words: run M --ring=65
text: module M(bool ?x, ?y, !a) { always { a = x & !y; } }
trace: 1 0\n1 1\n
status: 1
report: averest: usage\n

words: stay M
text: module M(bool ?x, ?y, !a) { always { a = x & !y; } }
trace: 1 0\n1 1\n
status: 1
report: averest: usage\n"#;

const TRACES: &str = r#"# lines of format 1: a last line without LF, and one of blanks alone
words: run M
text: module M(bool ?x, ?y, !a) { always { a = x & !y; } }
trace: 1 0\n1 1
status: 0
output: 1\n0\n

words: run M
text: module M(bool ?x, ?y, !a) { always { a = x & !y; } }
trace: 1 0\n\x20
status: 4
output: 1\n
report: averest: bad input at step 1\n

# blanks, tabs and CR LF
words: run M
text: module M(bool ?x, ?y, !a) { always { a = x & !y; } }
trace: \x201 \t0\t\r\n1 1\r\n
status: 0
output: 1\n0\n

words: run M
text: module M(bool ?x, ?y, !a) { always { a = x & !y; } }
trace: 1 0\r\r\n
status: 4
report: averest: bad input at step 0\n

words: run M
text: module M(bool ?x, ?y, !a) { always { a = x & !y; } }
trace: 1\r0\n
status: 4
report: averest: bad input at step 0\n

# an empty line
words: run M
text: module M(bool ?x, ?y, !a) { always { a = x & !y; } }
trace: 1 0\n\n1 1\n
status: 4
output: 1\n
report: averest: bad input at step 1\n

# no value of bool
words: run M
text: module M(bool ?x, ?y, !a) { always { a = x & !y; } }
trace: 1 2\n
status: 4
report: averest: bad input at step 0\n

words: run M
text: module M(bool ?x, ?y, !a) { always { a = x & !y; } }
trace: 1 01\n
status: 4
report: averest: bad input at step 0\n

words: run M
text: module M(bool ?x, ?y, !a) { always { a = x & !y; } }
trace: 1 -0\n
status: 4
report: averest: bad input at step 0\n

words: run M
text: module M(bool ?x, ?y, !a) { always { a = x & !y; } }
trace: 1 +1\n
status: 4
report: averest: bad input at step 0\n

words: run M
text: module M(bool ?x, ?y, !a) { always { a = x & !y; } }
trace: 1 _\n
status: 4
report: averest: bad input at step 0\n

words: run M
text: module M(bool ?x, ?y, !a) { always { a = x & !y; } }
trace: 1 \x00\n
status: 4
report: averest: bad input at step 0\n

words: run M
text: module M(bool ?x, ?y, !a) { always { a = x & !y; } }
trace: 1 \xb2\n
status: 4
report: averest: bad input at step 0\n

# a value too few, and one too many
words: run M
text: module M(bool ?x, ?y, !a) { always { a = x & !y; } }
trace: 1\n
status: 4
report: averest: bad input at step 0\n

words: run M
text: module M(bool ?x, ?y, !a) { always { a = x & !y; } }
trace: 1 0 1\n
status: 4
report: averest: bad input at step 0\n

# a header behind the first line
words: run M
text: module M(bool ?x, ?y, !a) { always { a = x & !y; } }
trace: 1 0\n#x y\n
status: 4
output: 1\n
report: averest: bad input at step 1\n

# lines of format 2
words: run M
text: module M(bool ?x, ?y, !a) { always { a = x & !y; } }
trace: #x y\n1 0\n1 1\n
status: 0
output: 1\n0\n

words: run M
text: module M(bool ?x, ?y, !a) { always { a = x & !y; } }
trace: # y\tx \r\n0 1\r\n1 1
status: 0
output: 1\n0\n

# `_` keeps a value, which is 0 at first
words: run M
text: module M(bool ?x, ?y, !a) { always { a = x & !y; } }
trace: #x y\n1 _\n_ 1\n_ _\n_ 0\n
status: 0
output: 1\n0\n0\n1\n

# an input that is not named
words: run M
text: module M(bool ?x, ?y, !a) { always { a = x & !y; } }
trace: #x\n1\n0\n
status: 0
output: 1\n0\n

words: run M
text: module M(bool ?x, ?y, !a) { always { a = x & !y; } }
trace: #\n\n \n
status: 0
output: 0\n0\n

# a header alone
words: run M
text: module M(bool ?x, ?y, !a) { always { a = x & !y; } }
trace: #x y\n
status: 0

words: run M
text: module M(bool ?x, ?y, !a) { always { a = x & !y; } }
trace: #x y
status: 0

# a name that is no input's, an output's, and one that stands twice
words: run M
text: module M(bool ?x, ?y, !a) { always { a = x & !y; } }
trace: #z\n1\n
status: 4
report: averest: bad input at step 0\n

words: run M
text: module M(bool ?x, ?y, !a) { always { a = x & !y; } }
trace: #a\n1\n
status: 4
report: averest: bad input at step 0\n

words: run M
text: module M(bool ?x, ?y, !a) { always { a = x & !y; } }
trace: #x y x\n1 1 1\n
status: 4
report: averest: bad input at step 0\n

# a blank before the header, and a value too many
words: run M
text: module M(bool ?x, ?y, !a) { always { a = x & !y; } }
trace: \x20#x y\n1 0\n
status: 4
report: averest: bad input at step 0\n

words: run M
text: module M(bool ?x, ?y, !a) { always { a = x & !y; } }
trace: #x\n1\n1 0\n
status: 4
output: 1\n
report: averest: bad input at step 1\n

# headers over two inputs that one output takes
words: run M
text: module C(bool ?x, bool ?y, bool !a) { always { a = x; || a = y; } }
trace: # y x\n1 1\n0 _\n
status: 5
output: 1\n
report: averest: conflict at step 1, 1:34\n

words: run M
text: module C(bool ?x, bool ?y, bool !a) { always { a = x; || a = y; } }
trace: # x\n1\n
status: 5
report: averest: conflict at step 0, 1:34\n

words: run M
text: module C(bool ?x, bool ?y, bool !a) { always { a = x; || a = y; } }
trace: # x z\n1 1\n
status: 4
report: averest: bad input at step 0\n

words: run M
text: module C(bool ?x, bool ?y, bool !a) { always { a = x; || a = y; } }
trace: #\n
status: 0"#;

const TEXTS: &str = r#"# texts that are refused, and some that are not
words: run M
text: module E() { }
trace: 1\n
status: 4
report: averest: bad input at step 0\n

words: run M
trace: 1\n
status: 3
report: averest: refused S2 at 1:1\n

words: run M
text: module N(bool ?x, !a) { always { a = x; } } }
trace: 1\n
status: 3
report: averest: refused S2 at 1:45\n

words: run M
text: module N(bool ?x, !a) { always { a = x; }
trace: 1\n
status: 3
report: averest: refused S2 at 1:42\n

words: run M
text: module M(bool !x) { x = ; }
trace: 1\n
status: 3
report: averest: refused S2 at 1:25\n

# no parameter, another type, an event, a start value, an array
words: run M
text: module N() { always { } }
trace: 1\n
status: 4
report: averest: bad input at step 0\n

words: run M
text: module N(bool ?x, nat{2} !a) { always { } }
trace: 1\n
status: 0
output: 0\n

words: run M
text: module N(event ?x, !a) { always { } }
trace: 1\n
status: 0
output: 0\n

words: run M
text: module N(bool !a = false) { always { } }
trace: 1\n
status: 4
report: averest: bad input at step 0\n

words: run M
text: module N([2]bool !a) { always { } }
trace: 1\n
status: 4
report: averest: bad input at step 0\n

# another statement, an operand in parentheses, a call, a second module
words: run M
text: module N(bool !a) { always { emit a; } }
trace: 1\n
status: 4
report: averest: bad input at step 0\n

words: run M
text: module N(bool ?x, !a) { always { a = (x); } }
trace: 1\n
status: 0
output: 1\n

words: run M
text: module N(bool !a) { always { N(a); } }
trace: 1\n
status: 3
report: averest: refused S0 at 1:1\n

words: run M
text: module N(bool !a) { always { } } module O() { }
trace: 1\n
status: 3
report: averest: refused S0 at 1:1\n

# a name twice, an output written twice, an output read, an input written, a name that isn't declared
words: run M
text: module N(bool ?x, !x) { always { } }
trace: 1\n
status: 3
report: averest: refused S3 at 1:20\n

words: run M
text: module N(bool ?x, !a) { always { a = x; a = x; } }
trace: 1\n
status: 0
output: 1\n

words: run M
text: module N(bool ?x, !a, !b) { always { a = b; } }
trace: 1\n
status: 0
output: 0 0\n

words: run M
text: module N(bool ?x, ?y) { always { x = y; } }
trace: 1\n
status: 3
report: averest: refused S6 at 1:34\n

words: run M
text: module N(bool ?x, !a) { always { a = z; } }
trace: 1\n
status: 3
report: averest: refused S3 at 1:38\n

# the use of a name before its declaration, in another block, and in a derived form
words: run M
text: module M(bool !x) { x = y; }
trace: 1\n
status: 3
report: averest: refused S3 at 1:25\n

words: run M
text: module M(bool !x) { { bool y; } x = y; }
trace: 1\n
status: 3
report: averest: refused S3 at 1:37\n

words: run M
text: module M(bool !x) { await(y); }
trace: 1\n
status: 3
report: averest: refused S3 at 1:27\n

words: run M
text: module N(bool ?x, !a) {\n  always { a = #x; } }
trace: 1\n
status: 3
report: averest: refused S1 at 2:16\n

# texts with a repeated piece
words: check M
text: module N() «{ × 64»«} × 64»
status: 0
output: accepted cells 0 registers 1 loose 0\n

words: check M
text: module N() «{ × 65»«} × 65»
status: 3
report: averest: refused S2 at 1:76\n

# a text of 65,536 bytes, and one of 65,537
words: check M
text: module Counter(nat{4} !n) { loop { next(n) = (n + 1) % 4; pause; } }«  × 65468»
status: 0
output: accepted cells 7 registers 5 loose 0\n

words: check M
text: module Counter(nat{4} !n) { loop { next(n) = (n + 1) % 4; pause; } }«  × 65469»
status: 3
report: averest: refused S1 at 1:1\n"#;

const EXAMPLES: &str = r#"# worked examples
words: run M
text: module M(nat{4} !n) { loop { next(n) = (n + 1) % 4; pause; } }
trace: \n\n\n\n\n
status: 0
output: 0\n1\n2\n3\n0\n

words: run M
text: module M(nat{4} !n) { loop { next(n) = (n + 1) % 4; pause; } }
status: 0

words: run M
text: module Over(nat{4} !n) { loop { next(n) = n + 1; pause; } }
trace: \n\n\n\n\n
status: 5
output: 0\n1\n2\n
report: averest: range at step 3, 1:33\n

words: run M
text: module C(bool ?x, bool ?y, bool !a) { always { a = x; || a = y; } }
trace: 1 1\n1 0\n
status: 5
output: 1\n
report: averest: conflict at step 1, 1:34\n

words: run M
text: module C(bool ?x, bool ?y, bool !a) { always { a = x; || a = y; } }
trace: 1\t 1\r\n0 0\r\n  1   1
status: 0
output: 1\n0\n1\n

words: run M
text: module P(bool ?u, bool !x) { next(x) = true; pause; x = u; }
trace: 0\n1\n
status: 0
output: 0\n1\n

words: run M
text: module P(bool ?u, bool !x) { next(x) = true; pause; x = u; }
trace: 0\n0\n
status: 5
output: 0\n
report: averest: conflict at step 1, 1:25\n

words: run M
text: module Q(bool !x) { next(x) = true; || next(x) = false; }
trace: \n
status: 5
report: averest: conflict at step 0, 1:16\n

words: run M
text: module K(bool ?x, ?y, !a) { always { a = x; a = y; } }
trace: 1 1\n1 0\n
status: 5
output: 1\n
report: averest: conflict at step 1, 1:24\n

words: run M
text: module E() { }
trace: \n\n
status: 0
output: \n\n

words: run M
text: module G(nat{2147483648} ?x, !y) { always { y = x * x / 2147483648; } }
trace: 2147483647\n
status: 0
output: 2147483646\n

words: run M
text: module D(int{8} ?x, ?y, int{16} !q) { always { q = x / y; } }
trace: 7 -2\n-7 2\n1 0\n
status: 5
output: -3\n-3\n
report: averest: divisor at step 2, 1:54\n

words: run M
text: module A(nat{4} ?i, [3]bool !t) { always { t[i] = true; } }
trace: 0\n2\n3\n
status: 5
output: 1 0 0\n1 0 1\n
report: averest: index at step 2, 1:44\n

words: run M
text: module ABRO(event ?a, ?b, ?r, !o) { loop abort { { await(a); || await(b); } emit o; halt; } when(r); }
trace: 0 0 0\n1 0 0\n0 1 0\n1 1 0\n0 0 1\n1 1 0\n
status: 0
output: 0\n0\n1\n0\n0\n1\n

words: run M
text: module T(event ?c, !s, !w) { abort loop { emit s; pause; } when(c); || weak abort loop { emit w; pause; } when(c); }
trace: 0\n0\n1\n0\n
status: 0
output: 1 1\n1 1\n0 1\n0 0\n

words: run M
text: module I(event ?c, !s, !t) { weak immediate abort { emit s; pause; emit s; } when(c); emit t; }
trace: 1\n0\n
status: 0
output: 1 1\n0 0\n

words: run M
text: module I(event ?c, !s, !t) { weak immediate abort { emit s; pause; emit s; } when(c); emit t; }
trace: 0\n0\n
status: 0
output: 1 0\n1 1\n

words: run M
text: module W(event ?c, nat{8} !u, !v) { weak suspend loop { nat{8} k; v = (k + 1) % 8; next(k) = 5; pause; u = k; next(k) = (k + 1) % 8; } when(c); }
trace: 0\n0\n1\n1\n0\n0\n
status: 0
output: 0 1\n5 1\n5 1\n6 1\n7 1\n5 1\n

words: run M
text: module U(event ?c, nat{8} !n) { suspend loop { next(n) = (n + 1) % 8; pause; } when(c); }
trace: 0\n0\n1\n0\n0\n
status: 0
output: 0\n1\n2\n2\n3\n

words: run M
text: module B(bv{4} ?p, bv{8} !o, nat{16} !m) { always { o = p @ !p; m = bv2nat(p); } }
trace: 0b1010\n
status: 0
output: 0b10100101 10\n

words: run M
text: module B(bv{4} ?p, bv{8} !o, nat{16} !m) { always { o = p @ !p; m = bv2nat(p); } }
trace: 0b101\n
status: 4
report: averest: bad input at step 0\n

words: run M
text: module Schizo(event !o) { loop { bool x; if(x) o = true; pause; x = true; } }
trace: \n\n\n
status: 0
output: 0\n0\n0\n

words: run M
text: module F(nat{16} ?i, bool ?x, ?y, nat{2} !z, bool !a) { [4]nat{2} t; always { z = t[i]; || a = x; || a = y; } }
trace: 0 0 0\n1 1 1\n2 0 0\n3 1 0\n0 0 0\n9 0 0\n
status: 5
output: 0 0\n0 1\n0 0\n
report: averest: conflict at step 3, 1:52\n

words: run M
text: module S(nat{8} !x = 3) { loop { pause; next(x) = (x + 1) % 8; } }
trace: \n\n\n\n
status: 0
output: 3\n3\n4\n5\n

words: run M
text: module R(nat{8} !u, !v) { loop { nat{8} k = 2; u = k; next(k) = (k + 3) % 8; pause; v = k; } }
trace: \n\n\n
status: 0
output: 2 0\n2 5\n2 5\n

words: run M
text: module M(event !x = true) { }
trace: \n
status: 0
output: 0\n

words: run M
text: module Y(bool !x, !y) { always { x = y; || y = x; } }
trace: \n
status: 3
report: averest: refused S9 at 1:16\n

words: run M --max-steps 2
text: module M(nat{4} !n) { loop { next(n) = (n + 1) % 4; pause; } }
trace: \n\n\n
status: 8
output: 0\n1\n
report: averest: step limit\n

words: run M --max-steps 2
text: module M(nat{4} !n) { loop { next(n) = (n + 1) % 4; pause; } }
trace: \n\n
status: 0
output: 0\n1\n

words: run M --stages 16 --workers 16 --ring 1
text: module M(nat{4} !n) { loop { next(n) = (n + 1) % 4; pause; } }
trace: \n\n\n\n\n
status: 0
output: 0\n1\n2\n3\n0\n

words: run M --stages 3 --workers 2
text: module M(nat{4} !n) { loop { next(n) = (n + 1) % 4; pause; } }
trace: \n\n
status: 0
output: 0\n1\n

# a choice of which one part is evaluated, and none where its statement is not reached
words: run M
text: module E(bool ?g, ?b, int{8} ?x, ?y, [2]nat{8} ?t, int{16} !z) { always if(g) z = b ? x / y : t[x]; }
trace: 1 1 -7 2 5 6\n1 0 1 0 5 6\n0 1 1 0 5 6\n1 1 2 1 5 6\n1 1 1 0 5 6\n
status: 5
output: -3\n6\n6\n2\n
report: averest: divisor at step 4, 1:89\n

words: run M
text: module E(bool ?g, ?b, int{8} ?x, ?y, [2]nat{8} ?t, int{16} !z) { always if(g) z = b ? x / y : t[x]; }
trace: 1 0 -1 1 5 6\n
status: 5
report: averest: index at step 0, 1:95\n

words: run M
text: module E(bool ?g, ?b, int{8} ?x, ?y, [2]nat{8} ?t, int{16} !z) { always if(g) z = b ? x / y : t[x]; }
trace: 1 0 2 1 5 6\n
status: 5
report: averest: index at step 0, 1:95\n

# a value outside its target's range
words: run M
text: module F(int{8} ?x, nat{4} !y) { always { y = x; } }
trace: 3\n0\n4\n
status: 5
output: 3\n0\n
report: averest: range at step 2, 1:43\n

words: run M
text: module F(int{8} ?x, nat{4} !y) { always { y = x; } }
trace: -1\n
status: 5
report: averest: range at step 0, 1:43\n"#;

const TASKS: &str = r#"# cells, registers and loose pairs, counted by hand from the definitions
words: check M
text: module E() { }
status: 0
output: accepted cells 0 registers 1 loose 0\n

words: check M
text: module W(bool ?a, !x) { x = a; }
status: 0
output: accepted cells 1 registers 2 loose 0\n

words: check M
text: module Z(event !x) { emit x; pause; emit x; }
status: 0
output: accepted cells 2 registers 2 loose 0\n

words: check M
text: module M(bool ?x, ?y, !a) { always { a = x & !y; } }
status: 0
output: accepted cells 5 registers 3 loose 0\n

words: check M
text: module Q(bool !x) { next(x) = true; || next(x) = false; }
status: 0
output: accepted cells 5 registers 4 loose 1\n

words: check M
text: module P(bool ?u, bool !x) { next(x) = true; pause; x = u; }
status: 0
output: accepted cells 3 registers 5 loose 1\n

words: check M
text: module N(nat{8} ?i, nat{4} !n) { n = i; }
status: 0
output: accepted cells 3 registers 2 loose 0\n

words: check M
text: module I(bool ?c, ?a, !x) { if(c) x = a; else x = c; }
status: 0
output: accepted cells 6 registers 2 loose 0\n

words: check M
text: module A(bool ?c, event !x) { abort { emit x; pause; } when(c); }
status: 0
output: accepted cells 5 registers 2 loose 0\n

words: check M
text: module S(bool ?c, event !x) { suspend { pause; emit x; } when(c); }
status: 0
output: accepted cells 6 registers 2 loose 0\n

words: check M
text: module L(bool ?a, !x) { { bool y; y = a; x = y; } }
status: 0
output: accepted cells 2 registers 2 loose 0\n

words: check M
text: module T(nat{2} ?i, [2]bool !t) { t[i] = true; }
status: 0
output: accepted cells 2 registers 3 loose 0\n

words: check M --strict
text: module Q(bool !x) { next(x) = true; || next(x) = false; }
status: 3
report: averest: refused S10 at 1:40\n

words: check M --strict
text: module P(bool ?u, bool !x) { next(x) = true; pause; x = u; }
status: 3
report: averest: refused S10 at 1:53\n

words: check M --strict
text: module I(bool ?c, ?a, !x) { if(c) x = a; else x = c; }
status: 0
output: accepted cells 6 registers 2 loose 0\n

# what is asked of a module besides a run
words: check M
text: module M(bool !x) { x = #; }
trace: 1\n
status: 3
report: averest: refused S1 at 1:25\n

words: check M --strict
text: module M(bool !x) { x = ; }
trace: 1\n
status: 3
report: averest: refused S2 at 1:25\n

words: check M
text: module M(bool !x) { x = y; }
trace: 1\n
status: 3
report: averest: refused S3 at 1:25\n

words: check M
text: module M(bool !x) { x = 1; }
trace: 1\n
status: 3
report: averest: refused S4 at 1:21\n

words: aif M
text: module M(nat{0} !x) { }
trace: 1\n
status: 3
report: averest: refused S5 at 1:14\n

words: load M --seed 1 --steps 1
text: module M(bool ?x) { x = true; }
trace: 1\n
status: 3
report: averest: refused S6 at 1:21\n

words: check M
text: module Y(bool !x, !y) { always { x = y; || y = x; } }
trace: 1\n
status: 3
report: averest: refused S9 at 1:16\n

words: check M --strict
text: module Ex(bool ?c, ?a, ?b, !x) { always { if(c) x = a; if(!c) x = b; } }
trace: 1\n
status: 0
output: accepted cells 21 registers 3 loose 0\n

words: check M --strict
text: module Op(bool ?c, ?d, ?a, ?b, !x) { always { if(c) x = a; if(d) x = b; } }
trace: 1\n
status: 3
report: averest: refused S10 at 1:66\n

# two cells fewer, since no condition has a `!`
words: check M
text: module Op(bool ?c, ?d, ?a, ?b, !x) { always { if(c) x = a; if(d) x = b; } }
trace: 1\n
status: 0
output: accepted cells 19 registers 3 loose 2\n

words: check M
text: module Counter(nat{4} !n) { loop { next(n) = (n + 1) % 4; pause; } }
trace: 1\n
status: 0
output: accepted cells 7 registers 5 loose 0\n

words: check M
text: module E() { }
trace: 1\n
status: 0
output: accepted cells 0 registers 1 loose 0\n

words: load M --seed 0 --steps 1
text: module V(bool ?x, !y) { always { y = x; } }
trace: 1\n
status: 0
output: steps 1 bytes 2\nlast 1\n

words: load M --seed 7 --steps 2000 --ring 64
text: module Counter(nat{4} !n) { loop { next(n) = (n + 1) % 4; pause; } }
trace: 1\n
status: 0
output: steps 2000 bytes 4000\nlast 3\n

# without outputs
words: load M --seed 5 --steps 3
text: module N(bool ?x) { always { } }
trace: 1\n
status: 0
output: steps 3 bytes 3\nlast \n

# with a fault at step 3, the fourth
words: load M --seed 5 --steps 9
text: module Over(nat{4} !n) { loop { next(n) = n + 1; pause; } }
trace: 1\n
status: 5
report: averest: range at step 3, 1:33\n

words: load M --seed 5 --steps 3
text: module Over(nat{4} !n) { loop { next(n) = n + 1; pause; } }
trace: 1\n
status: 0
output: steps 3 bytes 6\nlast 2\n

words: load M --seed 1 --steps 0
text: module V(bool ?x, !y) { always { y = x; } }
trace: 1\n
status: 1
report: averest: usage\n"#;

const LONG: &str = r#"# a long generated run
words: load M --seed 7 --steps 200000 --ring 64
text: module Counter(nat{4} !n) { loop { next(n) = (n + 1) % 4; pause; } }
status: 0
output: steps 200000 bytes 400000\nlast 3\n"#;

const PUTS: &str = r#"# each put of a line fails
words: check M
text: module Counter(nat{4} !n) { loop { next(n) = (n + 1) % 4; pause; } }
puts: 0
status: 7
report: averest: write fault\n

words: check M
text: module Counter(nat{4} !n) { loop { next(n) = (n + 1) % 4; pause; } }
puts: 1
status: 7
output: accepted cells\x20
report: averest: write fault\n

words: check M
text: module Counter(nat{4} !n) { loop { next(n) = (n + 1) % 4; pause; } }
puts: 2
status: 7
output: accepted cells 7
report: averest: write fault\n

words: check M
text: module Counter(nat{4} !n) { loop { next(n) = (n + 1) % 4; pause; } }
puts: 3
status: 7
output: accepted cells 7 registers\x20
report: averest: write fault\n

words: check M
text: module Counter(nat{4} !n) { loop { next(n) = (n + 1) % 4; pause; } }
puts: 4
status: 7
output: accepted cells 7 registers 5
report: averest: write fault\n

words: check M
text: module Counter(nat{4} !n) { loop { next(n) = (n + 1) % 4; pause; } }
puts: 5
status: 7
output: accepted cells 7 registers 5 loose\x20
report: averest: write fault\n

words: check M
text: module Counter(nat{4} !n) { loop { next(n) = (n + 1) % 4; pause; } }
puts: 6
status: 7
output: accepted cells 7 registers 5 loose 0
report: averest: write fault\n

words: check M
text: module Counter(nat{4} !n) { loop { next(n) = (n + 1) % 4; pause; } }
puts: 7
status: 0
output: accepted cells 7 registers 5 loose 0\n

words: load M --seed 0 --steps 1
text: module V(bool ?x, !y) { always { y = x; } }
puts: 0
status: 7
report: averest: write fault\n

words: load M --seed 0 --steps 1
text: module V(bool ?x, !y) { always { y = x; } }
puts: 1
status: 7
output: steps\x20
report: averest: write fault\n

words: load M --seed 0 --steps 1
text: module V(bool ?x, !y) { always { y = x; } }
puts: 2
status: 7
output: steps 1
report: averest: write fault\n

words: load M --seed 0 --steps 1
text: module V(bool ?x, !y) { always { y = x; } }
puts: 3
status: 7
output: steps 1 bytes\x20
report: averest: write fault\n

words: load M --seed 0 --steps 1
text: module V(bool ?x, !y) { always { y = x; } }
puts: 4
status: 7
output: steps 1 bytes 2
report: averest: write fault\n

words: load M --seed 0 --steps 1
text: module V(bool ?x, !y) { always { y = x; } }
puts: 5
status: 7
output: steps 1 bytes 2\nlast\x20
report: averest: write fault\n

words: load M --seed 0 --steps 1
text: module V(bool ?x, !y) { always { y = x; } }
puts: 6
status: 0
output: steps 1 bytes 2\nlast 1\n"#;

#[test]
fn runs(rt: HostRuntime) -> Result<(), Fail> {
    check_rows(&rt, rt.alloc(), RUNS)
}

#[test]
fn traces(rt: HostRuntime) -> Result<(), Fail> {
    check_rows(&rt, rt.alloc(), TRACES)
}

#[test]
fn texts(rt: HostRuntime) -> Result<(), Fail> {
    check_rows(&rt, rt.alloc(), TEXTS)
}

#[test]
fn examples(rt: HostRuntime) -> Result<(), Fail> {
    check_rows(&rt, rt.alloc(), EXAMPLES)
}

#[test]
fn tasks(rt: HostRuntime) -> Result<(), Fail> {
    check_rows(&rt, rt.alloc(), TASKS)
}

#[test]
fn failing_puts(rt: HostRuntime) -> Result<(), Fail> {
    check_rows(&rt, rt.alloc(), PUTS)
}

#[test]
fn long_run(rt: HostRuntime) -> Result<(), Fail> {
    check_rows(&rt, rt.alloc(), LONG)
}
