//! Texts with the first static rule that they break and the least place where they do, worked out
//! by hand, and texts that break none.

use crate::runs::{Case, outcome};
use std::test::Fail;
use test_rows::{bytes_of, pair_of};

const RULES: &str = r#"# each rule, and texts of several lines
S1 at 1:25  module M(bool !x) { x = #; }
S2 at 1:25  module M(bool !x) { x = ; }
S3 at 1:25  module M(bool !x) { x = y; }
S4 at 1:21  module M(bool !x) { x = 1; }
S5 at 1:14  module M(nat{0} !x) { }
S6 at 1:21  module M(bool ?x) { x = true; }
S7 at 1:21  module L(bool !a) { loop { a = true; } }
S5 at 1:55  module G(nat{2147483648} ?x, !y) { always { y = x * x * x / 2147483648; } }
S5 at 1:22  module M(nat{4} !x = 4) { }
S4 at 1:20  module M(bool !x = 1) { }
S4 at 3:3  module M(bool ?x,\n  nat{4} !n) {\n  n = x;\n  n = true; }
S5 at 2:7  module M(bool ?x,\n  nat{0} !n) {\n  loop x = true; }
# names that are undeclared or declared twice, also where later rules are broken
S3 at 1:20  module M(bool !x, !x) { x = z; }
S3 at 1:29  module M(bool !x) { bool k, k, k; }
S3 at 1:33  module M(bool !x) { { bool k; } k = true; }
S3 at 1:21  module M(bool !x) { k = true; { bool k; k = 1; } }
S3 at 1:27  module M(bool !x) { await(q); x = 1; }
S3 at 1:49  module M(bool !x) { do { bool k; pause; } while(k); }
S3 at 1:51  module M(bool !x) { abort { bool k; pause; } when(k); }
S3 at 1:31  module M(bool !x) { emit next(t[u]); }
S3 at 1:25  module M(bool !x) { x = t[x]; }
S3 at 1:42  module M(nat{0} ?x) { loop x = true; x = q; }
S3 at 1:21  module M(bool !x) { y = true; }
S3 at 1:20  module M(bool !x, !x) { }
S3 at 1:29  module M(bool !x) { bool k, k; }
S3 at 1:34  module M(bool !x) { bool k; bool k; x = z; }
S3 at 1:47  module M(bool !x) { { bool k; k = true; } x = k; }
# kinds of writes, targets and conditions
S4 at 1:21  module M(bool !x) { next(x) = 1; }
S4 at 1:23  module M(nat{4} !n) { emit n; }
S4 at 1:23  module M(nat{4} !n) { emit next(n); }
S4 at 1:29  module M([4]bool !t) { emit t; }
S4 at 1:26  module M(bool !x) { emit x[1]; }
S4 at 1:42  module M([4]nat{4} !t, bool ?b) { emit t[b]; }
S4 at 1:37  module M([4]nat{4} !t, bool ?b) { t[b] = true; }
S4 at 1:37  module M([4]nat{4} !t, nat{4} ?i) { t[i] = true; }
S4 at 1:50  module M([4]nat{4} !t, bool ?b, nat{4} !n) { n = t[b]; }
S4 at 1:36  module M(bool ?b, nat{4} !n) { n = b[b]; }
S4 at 1:35  module M(bool ?b, nat{4} !n) { if(n) b = n; }
S4 at 1:38  module M(nat{4} ?n, bool !x) { await(n); }
S4 at 1:48  module M(bv{4} ?n, bool !x) { immediate await(n{3:1}); }
S4 at 1:37  module M(bv{4} ?n, bool !x) { while(n) pause; }
S4 at 1:36  module M(nat{4} ?n, bool !x) { x = !n & true; }
S4 at 1:38  module M(nat{4} ?n, bool !x) { x = n & n; }
S4 at 1:47  module M(bv{4} ?n, bv{5} ?m, bool !x) { x = n == m; }
S4 at 1:37  module M(bv{4} ?n, bool !x) { x = n < n; }
S4 at 1:38  module M(bool ?c, nat{4} !n) { n = c ? 1 : c; }
S4 at 1:36  module M(bool ?c, nat{4} !n) { n = -c; }
S4 at 1:37  module M(bool ?c, nat{4} !n) { n = c{0} + 1; }
# kinds of parts inside others
S4 at 1:36  module M(bool ?c, nat{4} !n) { n = bv2nat(n) + nat2bv(c, 99); }
S4 at 1:22  module M(nat{4} !n = true, !k) { k = true; }
S4 at 1:21  module M(bv{4} !n = 0b101) { }
S4 at 1:40  module M(nat{4} ?n, bool !x) { suspend x = n; when(n); }
S4 at 1:30  module M(nat{0} ?x) { loop ; x = true; }
S4 at 1:37  module M([4]nat{4} !t, bool ?b) { t[t] = b; }
S4 at 1:42  module M([4]nat{4} !t, bool ?b) { t[true + 1] = b; }
S4 at 1:23  module M(bv{40} !x) { x = 0b11111111111111111111111111111111; }
S4 at 1:47  module M(bool ?b, nat{4} !n) { n = b ? 1 : (b ? 0b1 : 1); }
S4 at 1:32  module M(bool ?b, nat{4} !n) { n = !(b -> b); }
S4 at 1:32  module M(bool ?b, nat{4} !n) { n = (!b == b); }
S4 at 1:36  module M(bv{4} ?b, bool !n) { if(b @ 1 == b) n = true; }
S4 at 1:58  module M(bool ?c, nat{4} !n) { if(c) { do pause; while(n + 1); } }
S4 at 1:67  module M(bool ?c, nat{4} !n) { weak immediate abort pause; when(c + 1); emit n; }
S4 at 1:51  module M(bool ?c, nat{4} !n) { halt; { nat{4} k = 0b1111; event e = 1; } }
S4 at 1:48  module M(bool ?c, bool !x) { immediate await(1 + c); }
S4 at 1:38  module M(bool ?c, bool !x) { await(c ? 1 : 2); }
S4 at 1:33  module M(bv{4} ?a, bv{33} !z) { z = a; }
S4 at 1:31  module M(bool !x) { nat{4} x; x = true; }
S4 at 1:42  module M(bool !x) { { nat{4} x; x = 1; } x = 1; }
S4 at 1:23  module M(nat{8} !n) { n = true; }
# kinds of values and of the parts of operators
S4 at 1:23  module M(nat{8} !n) { next(n) = true; }
S4 at 1:22  module M(bv{4} !b) { b = 0b101; }
S4 at 1:27  module M(bool !x) { x = 1 & 2; }
S4 at 1:42  module M(bool ?a, !x, nat{4} ?n) { x = a | n; }
S4 at 1:54  module M(bv{4} ?a, bv{5} ?b, bool !x) { x = bv2nat(a ^ b) == 0; }
S4 at 1:36  module M(nat{4} ?n, bool !x) { x = !n; }
S4 at 1:36  module M(bool ?a, nat{4} !n) { n = -a; }
S4 at 1:31  module M(bool ?a, !x) { x = a < a; }
S4 at 1:47  module M(bool ?a, nat{4} ?n, bool !x) { x = a == n; }
S4 at 1:47  module M(bool ?a, nat{4} ?n, bool !x) { x = n != a; }
S4 at 1:38  module M(nat{4} ?n, bool !x) { x = n -> n; }
S4 at 1:38  module M(nat{4} ?n, bool !x) { x = n <-> n; }
S4 at 1:38  module M(bool ?a, nat{4} !n) { n = a + 1; }
S4 at 1:39  module M(nat{4} ?n, bv{8} !b) { b = n @ n; }
S4 at 1:37  module M(nat{4} ?n, bool !x) { x = n{0}; }
S4 at 1:31  module M(nat{4} ?n, !m) { m = bv2nat(n); }
S4 at 1:30  module M(bv{4} ?b, !d) { d = nat2bv(b, 4); }
S4 at 1:38  module M(nat{4} ?n, bool !x) { x = n ? true : false; }
S4 at 1:31  module M(bool ?a, !x) { x = a ? true : 1; }
S4 at 1:37  module M([4]bool ?t, bool !x) { x = t; }
S4 at 1:29  module M(bool ?a, !x) { x = a[0]; }
# kinds of indexes, conditions and constants
S4 at 1:41  module M([4]bool ?t, bool ?a, !x) { x = t[a]; }
S4 at 1:35  module M([4]bool !t, bool ?a) { t[a] = true; }
S4 at 1:24  module M([4]bool !t) { t = true; }
S4 at 1:21  module M(bool !x) { x[0] = true; }
S4 at 1:35  module M(nat{4} ?n, bool !x) { if(n) x = true; }
S4 at 1:29  module M(nat{4} ?n) { await(n); }
S4 at 1:39  module M(nat{4} ?n) { immediate await(n); }
S4 at 1:29  module M(nat{4} ?n) { while(n) pause; }
S4 at 1:39  module M(nat{4} ?n) { do pause; while(n); }
S4 at 1:41  module M(nat{4} ?n) { abort pause; when(n); }
S4 at 1:22  module M(nat{4} !n = true) { }
S4 at 1:21  module M(bv{4} !b = 0b101) { }
S4 at 1:22  module M(nat{4} !n = 0b10) { }
S4 at 1:30  module M(bool !x) { bool k = -1; x = k; }
S4 at 1:21  module M(event !x = 1) { }
S4 at 1:39  module M(nat{4} ?n, bool !x) { x = (n & 1) | true; }
S4 at 1:32  module M(nat{4} ?n, bool !x) { x = n; x = 1; }
S4 at 1:23  module M(nat{0} !n) { n = true; }
S4 at 1:32  module M(bv{4} ?b, bv{2} !d) { d = b{1:2}; }
# several bounds in one text, of which the least place counts, and bounds beside other rules
S5 at 1:11  module M([65]nat{0} !x) { }
S5 at 1:14  module M(nat{0} !x, !y = 3) { }
S5 at 1:22  module M(int{4} !x = -5) { }
S5 at 1:28  module M(event nat{4} !x = 4) { }
S5 at 1:13  module M(bv{40} !x = 0b11111111111111111111111111111111111111111111111111) { }
S5 at 1:27  module M(nat{4} !x) { x = 4611686018427387905; }
S5 at 1:25  module M(bool !x) { x = 0b11111111111111111111111111111111111111111111111111 == 0b11111111111111111111111111111111111111111111111111; }
S5 at 1:38  module M(bv{20} ?a, bool !x) { x = a @ a == a @ a; }
S5 at 1:36  module M(bv{4} ?a, bool !x) { x = a{4}; }
S5 at 1:36  module M(bv{4} ?a, bool !x) { x = a{1:2}{40}; }
S5 at 1:38  module M(bv{4} ?a, bool !x) { x = (a @ (a{0:1})){3}; }
S5 at 1:55  module M(nat{2147483648} ?x, !y) { always { y = x * x * x; } }
S5 at 1:69  module M(nat{2147483648} ?x, !y) { y = 4611686018427387904 + (x * x * x); }
S5 at 1:60  module M(nat{2147483648} ?x, !y) { y = 4611686018427387904 + x; }
S5 at 1:46  module M(nat{4} ?x, bv{4} !y, bool !z) { z = nat2bv(x, 0) == nat2bv(x, 40); }
S5 at 1:46  module M(nat{4} ?x, bool !z) { z = nat2bv(x, 40) == nat2bv(x, 99); }
S5 at 1:38  module M(bv{20} ?a, bv{32} !z) { z = nat2bv(bv2nat(a @ a), 32); }
S5 at 1:37  module M(int{4} ?x, bv{8} !z) { z = nat2bv(x, 8); }
S5 at 1:39  module M(nat{4} ?x, [4]bool !t) { t[x * 4611686018427387904 * 3] = true; }
S5 at 1:14  module M(nat{0} ?x) { loop x = 1; }
S5 at 1:51  module M(bool ?x, nat{4} !n) { loop x = true; n = 5000000000000000000; }
S5 at 1:13  module M(bv{40} !x) { x = 0b11111111111111111111111111111111111111111111111111; }
# bounds of quotients and sums, of types and of start values
S5 at 1:42  module M(int{4} ?a, nat{4} !n) { n = a % 9999999999999999999; }
S5 at 1:55  module M(int{2147483648} ?a, nat{4} !n) { n = (a * a) * (a / 0) * 2; }
S5 at 1:58  module M(int{4} ?a, nat{4} !n) { n = 4611686018427387904 + a / 0; }
S5 at 1:58  module M(nat{4} ?a, nat{4} !n) { n = 4611686018427387904 + a / (a + 0); }
S5 at 1:58  module M(nat{4} ?a, nat{4} !n) { n = 4611686018427387904 + a / 2; }
S5 at 1:66  module M(bool ?c, nat{4} !n) { n = (c ? 4611686018427387904 : 0) + 1; }
S5 at 1:42  module M(nat{4} !n) { while(false) { n = 9223372036854775808; } }
S5 at 1:43  module M(nat{4} !n) { { nat{4} k = 1, j = 4; } }
S5 at 1:46  module M(nat{4} ?a, bool !z) { z = nat2bv(a, 99999999999999999999999999999999999999){2}; }
S5 at 1:14  module M(nat{0} !n) { }
S5 at 1:14  module M(nat{2147483649} !n) { }
S5 at 1:14  module M(int{0} !n) { }
S5 at 1:14  module M(int{2147483649} !n) { }
S5 at 1:13  module M(bv{0} !b) { }
S5 at 1:13  module M(bv{33} !b) { }
S5 at 1:11  module M([0]bool !t) { }
S5 at 1:11  module M([65]bool !t) { }
S5 at 1:11  module M([65]nat{0} !t) { }
S5 at 1:14  module M(nat{0} ?a, !y) { y = a; }
S5 at 1:18  module M() { nat{0} k; }
S5 at 1:22  module M(nat{4} !n = 4) { }
S5 at 1:22  module M(int{4} !n = 4) { }
# bounds of constants, literals, operators, slices and conversions
S5 at 1:22  module M(int{4} !n = -5) { }
S5 at 1:22  module M(nat{4} !n = -1) { }
S5 at 1:14  module M(nat{0} !n = 1) { }
S5 at 1:27  module M(int{8} !n) { n = 4611686018427387905; }
S5 at 1:47  module M(int{8} !n) { n = 4611686018427387904 + 1; }
S5 at 1:48  module M(int{8} !n) { n = -4611686018427387904 - 1; }
S5 at 1:46  module M(nat{2147483648} ?x, !y) { y = x * x * x; }
S5 at 1:47  module M(nat{2147483648} ?a, !y) { y = (a * a * a) + a; }
S5 at 1:46  module M(int{2147483648} ?a, !y) { y = a * a * 2 / 2147483648; }
S5 at 1:36  module M(bv{4} ?b, bool !x) { x = b{4}; }
S5 at 1:45  module M(bv{4} ?b, nat{8} !n) { n = bv2nat(b{1:2}) % 8; }
S5 at 1:45  module M(bv{4} ?b, nat{8} !n) { n = bv2nat(b{4:0}) % 8; }
S5 at 1:47  module M(bv{20} ?b, nat{8} !n) { n = bv2nat(b @ b) % 8; }
S5 at 1:38  module M(nat{32} ?n, bv{4} !b) { b = nat2bv(n, 4); }
S5 at 1:55  module M(nat{4} ?n, nat{8} !m) { m = bv2nat(nat2bv(n, 33)) % 8; }
S5 at 1:45  module M(int{4} ?n, nat{8} !m) { m = bv2nat(nat2bv(n, 0)) % 8; }
S5 at 1:44  module M(nat{8} !m) { m = bv2nat(nat2bv(0, 99999999999999999999999999999999999999)) % 8; }
S5 at 1:34  module M(nat{8} !m) { m = bv2nat(0b000000000000000000000000000000001) % 8; }
S5 at 1:63  module M([2]nat{4} ?t, nat{4} !y) { y = t[4611686018427387904 + 1]; }
S5 at 1:55  module M(int{8} !n, bool ?c) { if(4611686018427387904 + 1 < 0) n = 4611686018427387905; }
S5 at 1:36  module M(bool ?x, nat{8} !n) { n = 4611686018427387905; x = true; }
# writes of inputs
S6 at 1:21  module M(bool ?x) { emit next(x); }
S6 at 1:21  module M(bool ?x) { next(x) = true; }
S6 at 1:30  module M(bool ?x) { loop { } x = true; }
S6 at 1:53  module M(bool ?x, !y) { { || y = true; loop { } } { x = true; } }
S6 at 1:21  module M(bool ?x) { emit x; }
S6 at 1:24  module M([2]bool ?t) { t[0] = true; }
S6 at 1:34  module M(nat{4} ?n, !m) { m = 1; n = 1; }
S6 at 1:28  module M(bool ?x) { loop { x = true; } }
# loops whose body may be instant
S7 at 1:21  module M(bool !x) { loop { x = true; } }
S7 at 1:28  module M(bool !x) { loop { do x = true; while(x); pause; } }
S7 at 1:28  module M(bool !x) { loop { while(x) ; pause; } }
S7 at 1:21  module M(bool !x) { loop while(x) pause; }
S7 at 1:21  module M(bool !x) { loop immediate await(x); }
S7 at 1:21  module M(bool !x) { loop weak immediate abort pause; when(x); }
S7 at 1:21  module M(bool !x) { loop if(x) pause; }
S7 at 1:21  module M(bool !x) { loop { bool k; || } }
S7 at 1:43  module M(bool ?x, !y) { if(x) pause; else do { bool k; { || k = x; } } while(x); }
S7 at 1:14  module M() { loop ; }
S7 at 1:21  module M(bool ?c) { while(c) ; }
S7 at 1:21  module M(bool ?c) { do ; while(c); }
S7 at 1:21  module M(bool ?c) { loop if(c) pause; }
S7 at 1:21  module M(bool ?c) { loop immediate abort pause; when(c); }
S7 at 1:21  module M(bool ?c) { loop weak immediate abort pause; when(c); }
S7 at 1:14  module M() { loop { ; || ; } }
S7 at 1:35  module M(bool ?c) { loop { pause; while(c) ; } }
S7 at 1:14  module M() { loop { loop ; } }
S7 at 1:21  module M(bool ?c) { loop immediate await(c); }
S7 at 1:14  module M() { loop { bool k; k = true; } }
# a statement before a declaration, calls and second modules before names, guards around an instant body, and operators on parts of other kinds
S4 at 1:21  module M(bool !x) { x = 1; { bool k = 2; } }
S5 at 1:27  module M(nat{4} !n) { n = 4611686018427387905; { nat{0} k; } }
S0 at 1:1  module N(bool ?a) { N(z); a = 1; }
S0 at 1:1  module N(bool ?a) { a = z; } module O() { }
S7 at 1:21  module M(bool ?c) { loop abort ; when(c); }
S7 at 1:21  module M(bool ?c) { loop immediate suspend ; when(c); }
S4 at 1:37  module M(bv{4} ?b, bool !x) { x = b -> b; }
S4 at 1:37  module M(bv{4} ?b, nat{4} !n) { n = -b; }
S4 at 1:38  module M(nat{4} ?n, bv{2} !b) { b = n{1:0}; }
S4 at 1:51  module M(bool ?c, bv{4} ?b, bv{5} ?d, !z) { z = c ? b : d; }
S4 at 1:35  module M(bool ?c, [2]bool !t) { t[!c] = true; }
# no rule is broken
accepted  module M(bool !x) { bool x; { bool x; x = true; } || x = false; }
accepted  module M(int{4} !x = -4, nat{3} !y = -0) { }
accepted  module M(nat{4} !x) { x = 4611686018427387904; }
accepted  module M(bool ?x) { bool x; x = true; }
accepted  module M(bool !x) { loop await(x); }
accepted  module M(bool !x) { loop { halt; || x = true; } }
accepted  module M(bool !x) { loop weak abort pause; when(x); }
accepted  module M(bool !x) { loop immediate suspend pause; when(x); }
accepted  module M(bool !x) { always ; }
accepted  module M(int{2147483648} ?a, nat{4} !n) { n = (a * a) % 1 + (a * a) / -1; }
accepted  module M(nat{4} ?a, nat{4} !n) { n = 4611686018427387904 + a % 1; }
accepted  module M(nat{4} ?a, nat{4} !n) { n = 4611686018427387904 + a / 4; }
accepted  module M(bool !x) { nat{4} x; x = 1; }
accepted  module M(int{4} !n = -4) { }
accepted  module M(nat{4} !n = -0) { }
accepted  module M(int{8} !n) { n = 4611686018427387904; }
accepted  module M(int{8} !n) { n = -4611686018427387904; }
accepted  module M(nat{2147483648} ?x, !y) { y = x * x / 2147483648; }
accepted  module M(int{8} ?a, ?b, !y) { y = a / b; }
accepted  module M(bool ?c) { loop abort pause; when(c); }
accepted  module M(bool ?c) { loop immediate suspend pause; when(c); }
accepted  module M() { loop { pause; || ; } }
accepted  module M() { always ; }
accepted  module M(bool ?c) { loop await(c); }
accepted  module M([64]bv{32} ?t, nat{8} ?n, bv{32} !z) { z = nat2bv(n, 32); }
accepted  module M(bv{16} ?b, bool !x) { x = b @ b == b @ b; }
accepted  module M(bv{32} !z) { z = 0b11111111111111111111111111111111; }
accepted  module M(bv{4} ?b, !z) { z = b{3:0}; }"#;

#[test]
fn rules(rt: HostRuntime) -> Result<(), Fail> {
    let alloc = rt.alloc();
    for row in RULES.lines() {
        if row.starts_with("# ") {
            continue;
        }
        let (judgement, text) = pair_of(row);
        let wanted = match judgement {
            "accepted" => format!(in alloc; "0||")?,
            _ => format!(in alloc; "3||averest: refused {judgement}\n")?,
        };
        let text = bytes_of(alloc, text)?;
        let found = outcome(&rt, alloc, Case::run(&text, b""))?;
        assert_eq!(rt; found.as_str(), wanted.as_str(), "{row}");
    }
    Ok(())
}
