//! Values and faults of expressions of every operator, worked out by hand.

use crate::reading::{reacted, started, step_of};
use crate::runs::put_faults;
use std::alloc::Global;
use std::test::Fail;
use test_rows::pair_of;

// What is written to an output of that type: the value, and the faults with their places, which are
// in line 2.
fn written(alloc: Global, base: &str, expression: &str) -> Result<String, Fail> {
    let text = format!(in alloc;
        "module M(int{{128}} ?x, ?y, nat{{16}} ?n, bool ?b, ?c, bv{{4}} ?p, ?q, [3]nat{{8}} ?t, {base} !z) {{\nz = {expression}; }}"
    )?;
    let term = started(alloc, text.as_bytes())?;
    let step = step_of(alloc, "-7 2 5 1 0 10 6 3 0 7/0/")?;
    let reaction = reacted(alloc, &term, &step)??;
    let mut out = String::new(alloc);
    for act in &reaction.writes {
        out.push_str(&format!(in alloc; "{}", act.value)?)?;
    }
    put_faults(alloc, &mut out, &reaction.faults)?;
    Ok(out)
}

// Values with the faults of the parts, and the expressions. x is -7, y is 2, n is 5, b holds and c
// doesn't, p is 0b1010, q is 0b0110, and t has 3, 0, 7.
const NUMBERS: &str = "-5  x + y
-9  x - y
-14  x * y
-3  x / y
-1  x % y
7  -x
3  -x / y
3  x / -y
-1  x % -y
1  -x % -y
-2  n + x
25  n * n
2  n / y
1  n % y
-25  (x + y) * n
3  x + y * n
-14  x - y - n
-2  x * y / n
4  100 % (n + 1)
0 divisor 2:7  x / (y - 2)
0 divisor 2:7  x % (y - 2)
3  t[0]
7  t[y]
0  t[t[0] - 2]
0 index 2:5  t[n]
0 index 2:5  t[x]
0 divisor 2:7 index 2:19  x / (y - 2) + t[n]
-7  b ? x : y
2  c ? x : y
5  c ? x / (y - 2) : n
5  b ? n : t[n]
10  bv2nat(p)
166  bv2nat(p @ q)
2  bv2nat(p{3:2})
5  bv2nat(!p)
2  bv2nat(p & q)
12  bv2nat(p ^ q)
-3  7 / -2
0 divisor 2:7  1 / (y - 2)";

const RANGES: &str = "3  n - 2
0 range 2:1  n
0 range 2:1  x
0 index 2:5 range 2:1  t[n] - 1";

const TRUTHS: &str = "1  true
0  b & c
1  b | c
1  b ^ c
0  !b
0  b -> c
1  c -> b
0  b <-> c
1  !(b & c)
1  x == -7
1  x != y
1  x < y
1  x <= -7
0  x > y
1  n >= 5
0  p == q
1  p != q
1  p{1}
0  p{2}
0  b ? c : b
1 index 2:5  t[n] == 0
0 divisor 2:11  c & x / (y - 2) == 0";

const BITS: &str = "10  p
5  !p
2  p & q
14  p | q
12  p ^ q
9  p{1:0} @ q{3:2}
5  nat2bv(n, 4)
10  b ? p : q
3  0b0011";

#[test]
fn expressions(rt: HostRuntime) -> Result<(), Fail> {
    let tables = [
        ("int{4096}", NUMBERS),
        ("nat{4}", RANGES),
        ("bool", TRUTHS),
        ("bv{4}", BITS),
    ];
    for (base, table) in tables {
        for row in table.lines() {
            let (wanted, expression) = pair_of(row);
            let found = written(rt.alloc(), base, expression)?;
            assert_eq!(rt; found.as_str(), wanted, "{row}");
        }
    }
    Ok(())
}
