//! Every preemption in every other one, around a local that may live twice in a step and a delayed
//! write: what comes of each pair was worked out from the table of reactions by a second reading of
//! it, which shares nothing with the program.

use crate::runs::{Case, outcome, wanted};
use std::test::Fail;
use test_rows::value_of;

// The lines of `c` and `d`.
const TRACE: &[u8] = b"0 1\n0 0\n0 1\n0 0\n1 0\n0 0\n0 0\n1 1\n1 0\n0 1\n0 1\n0 0\n";

const NESTED: &str = r#"outer: abort
inner: abort
status: 0
output: 0 1 0 0\n0 1 1 0\n0 0 2 3\n0 1 2 4\n1 0 3 4\n0 1 3 4\n0 1 4 4\n1 0 5 4\n0 1 5 4\n0 0 6 3\n0 1 6 4\n0 1 7 4\n

outer: abort
inner: immediate abort
status: 5
output: 0 0 0 0\n0 1 0 4\n0 0 1 3\n0 1 1 4\n1 0 2 4\n0 1 2 4\n0 1 3 4\n1 0 4 4\n0 1 4 4\n0 0 5 3\n
report: averest: conflict at step 10, 1:44\n

outer: abort
inner: weak abort
status: 0
output: 0 1 0 0\n0 1 1 0\n0 1 2 3\n0 1 3 4\n1 0 4 4\n0 1 4 4\n0 1 5 4\n1 0 6 4\n0 1 6 4\n0 1 7 3\n0 1 0 4\n0 1 1 4\n

outer: abort
inner: weak immediate abort
status: 5
output: 0 1 0 0\n0 1 1 4\n0 1 2 3\n0 1 3 4\n1 0 4 4\n0 1 4 4\n0 1 5 4\n1 0 6 4\n0 1 6 4\n0 1 7 3\n
report: averest: conflict at step 10, 1:44\n

outer: abort
inner: suspend
status: 0
output: 0 1 0 0\n0 1 1 0\n0 0 2 0\n0 1 2 0\n1 0 3 0\n0 1 3 0\n0 1 4 0\n1 0 5 0\n0 1 5 0\n0 0 6 0\n0 0 6 0\n0 1 6 0\n

outer: abort
inner: immediate suspend
status: 0
output: 0 0 0 0\n0 1 0 0\n0 0 1 0\n0 1 1 0\n1 0 2 0\n0 1 2 0\n0 1 3 0\n1 0 4 0\n0 1 4 0\n0 0 5 0\n0 0 5 0\n0 1 5 0\n

outer: abort
inner: weak suspend
status: 0
output: 0 1 0 0\n0 1 1 0\n0 1 2 0\n0 1 3 0\n1 0 4 0\n0 1 4 0\n0 1 5 0\n1 0 6 0\n0 1 6 0\n0 1 7 0\n0 1 0 0\n0 1 1 0\n

outer: abort
inner: weak immediate suspend
status: 0
output: 0 1 0 0\n0 1 1 0\n0 1 2 0\n0 1 3 0\n1 0 4 0\n0 1 4 0\n0 1 5 0\n1 0 6 0\n0 1 6 0\n0 1 7 0\n0 1 0 0\n0 1 1 0\n

outer: immediate abort
inner: abort
status: 0
output: 0 1 0 0\n0 1 1 0\n0 0 2 3\n0 1 2 4\n1 0 3 4\n0 1 3 4\n0 1 4 4\n1 0 5 4\n1 0 5 4\n0 1 5 4\n0 0 6 3\n0 1 6 4\n

outer: immediate abort
inner: immediate abort
status: 5
output: 0 0 0 0\n0 1 0 4\n0 0 1 3\n0 1 1 4\n1 0 2 4\n0 1 2 4\n0 1 3 4\n1 0 4 4\n1 0 4 4\n0 0 4 0\n
report: averest: conflict at step 10, 1:44\n

outer: immediate abort
inner: weak abort
status: 0
output: 0 1 0 0\n0 1 1 0\n0 1 2 3\n0 1 3 4\n1 0 4 4\n0 1 4 4\n0 1 5 4\n1 0 6 4\n1 0 6 4\n0 1 6 4\n0 1 7 3\n0 1 0 4\n

outer: immediate abort
inner: weak immediate abort
status: 5
output: 0 1 0 0\n0 1 1 4\n0 1 2 3\n0 1 3 4\n1 0 4 4\n0 1 4 4\n0 1 5 4\n1 0 6 4\n1 0 6 4\n0 1 6 0\n
report: averest: conflict at step 10, 1:44\n

outer: immediate abort
inner: suspend
status: 0
output: 0 1 0 0\n0 1 1 0\n0 0 2 0\n0 1 2 0\n1 0 3 0\n0 1 3 0\n0 1 4 0\n1 0 5 0\n1 0 5 0\n0 1 5 0\n0 0 6 0\n0 1 6 0\n

outer: immediate abort
inner: immediate suspend
status: 0
output: 0 0 0 0\n0 1 0 0\n0 0 1 0\n0 1 1 0\n1 0 2 0\n0 1 2 0\n0 1 3 0\n1 0 4 0\n1 0 4 0\n0 0 4 0\n0 0 4 0\n0 1 4 0\n

outer: immediate abort
inner: weak suspend
status: 0
output: 0 1 0 0\n0 1 1 0\n0 1 2 0\n0 1 3 0\n1 0 4 0\n0 1 4 0\n0 1 5 0\n1 0 6 0\n1 0 6 0\n0 1 6 0\n0 1 7 0\n0 1 0 0\n

outer: immediate abort
inner: weak immediate suspend
status: 0
output: 0 1 0 0\n0 1 1 0\n0 1 2 0\n0 1 3 0\n1 0 4 0\n0 1 4 0\n0 1 5 0\n1 0 6 0\n1 0 6 0\n0 1 6 0\n0 1 7 0\n0 1 0 0\n

outer: weak abort
inner: abort
status: 0
output: 0 1 0 0\n0 1 1 0\n0 0 2 3\n0 1 2 4\n1 1 3 4\n0 1 4 4\n0 1 5 4\n1 0 6 3\n0 1 6 3\n0 0 7 3\n0 1 7 4\n0 1 0 4\n

outer: weak abort
inner: immediate abort
status: 5
output: 0 0 0 0\n0 1 0 4\n0 0 1 3\n0 1 1 4\n1 1 2 4\n0 1 3 4\n0 1 4 4\n1 0 5 3\n0 1 5 3\n0 0 6 3\n
report: averest: conflict at step 10, 1:44\n

outer: weak abort
inner: weak abort
status: 0
output: 0 1 0 0\n0 1 1 0\n0 1 2 3\n0 1 3 4\n1 1 4 4\n0 1 5 4\n0 1 6 4\n1 1 7 3\n0 1 0 3\n0 1 1 3\n0 1 2 4\n0 1 3 4\n

outer: weak abort
inner: weak immediate abort
status: 5
output: 0 1 0 0\n0 1 1 4\n0 1 2 3\n0 1 3 4\n1 1 4 4\n0 1 5 4\n0 1 6 4\n1 1 7 3\n0 1 0 3\n0 1 1 3\n
report: averest: conflict at step 10, 1:44\n

outer: weak abort
inner: suspend
status: 0
output: 0 1 0 0\n0 1 1 0\n0 0 2 0\n0 1 2 0\n1 1 3 0\n0 1 4 0\n0 1 5 0\n1 0 6 0\n0 1 6 0\n0 0 7 0\n0 0 7 0\n0 1 7 0\n

outer: weak abort
inner: immediate suspend
status: 0
output: 0 0 0 0\n0 1 0 0\n0 0 1 0\n0 1 1 0\n1 1 2 0\n0 1 3 0\n0 1 4 0\n1 0 5 0\n0 1 5 0\n0 0 6 0\n0 0 6 0\n0 1 6 0\n

outer: weak abort
inner: weak suspend
status: 0
output: 0 1 0 0\n0 1 1 0\n0 1 2 0\n0 1 3 0\n1 1 4 0\n0 1 5 0\n0 1 6 0\n1 1 7 0\n0 1 0 0\n0 1 1 0\n0 1 2 0\n0 1 3 0\n

outer: weak abort
inner: weak immediate suspend
status: 0
output: 0 1 0 0\n0 1 1 0\n0 1 2 0\n0 1 3 0\n1 1 4 0\n0 1 5 0\n0 1 6 0\n1 1 7 0\n0 1 0 0\n0 1 1 0\n0 1 2 0\n0 1 3 0\n

outer: weak immediate abort
inner: abort
status: 0
output: 0 1 0 0\n0 1 1 0\n0 0 2 3\n0 1 2 4\n1 1 3 4\n0 1 4 4\n0 1 5 4\n1 0 6 3\n1 1 6 3\n0 1 7 3\n0 0 0 3\n0 1 0 4\n

outer: weak immediate abort
inner: immediate abort
status: 5
output: 0 0 0 0\n0 1 0 4\n0 0 1 3\n0 1 1 4\n1 1 2 4\n0 1 3 4\n0 1 4 4\n1 0 5 3\n1 1 5 3\n0 0 6 0\n
report: averest: conflict at step 10, 1:44\n

outer: weak immediate abort
inner: weak abort
status: 0
output: 0 1 0 0\n0 1 1 0\n0 1 2 3\n0 1 3 4\n1 1 4 4\n0 1 5 4\n0 1 6 4\n1 1 7 3\n1 1 0 3\n0 1 1 3\n0 1 2 3\n0 1 3 4\n

outer: weak immediate abort
inner: weak immediate abort
status: 5
output: 0 1 0 0\n0 1 1 4\n0 1 2 3\n0 1 3 4\n1 1 4 4\n0 1 5 4\n0 1 6 4\n1 1 7 3\n1 1 0 3\n0 1 1 0\n
report: averest: conflict at step 10, 1:44\n

outer: weak immediate abort
inner: suspend
status: 0
output: 0 1 0 0\n0 1 1 0\n0 0 2 0\n0 1 2 0\n1 1 3 0\n0 1 4 0\n0 1 5 0\n1 0 6 0\n1 1 6 0\n0 1 7 0\n0 0 0 0\n0 1 0 0\n

outer: weak immediate abort
inner: immediate suspend
status: 0
output: 0 0 0 0\n0 1 0 0\n0 0 1 0\n0 1 1 0\n1 1 2 0\n0 1 3 0\n0 1 4 0\n1 0 5 0\n1 1 5 0\n0 0 6 0\n0 0 6 0\n0 1 6 0\n

outer: weak immediate abort
inner: weak suspend
status: 0
output: 0 1 0 0\n0 1 1 0\n0 1 2 0\n0 1 3 0\n1 1 4 0\n0 1 5 0\n0 1 6 0\n1 1 7 0\n1 1 0 0\n0 1 1 0\n0 1 2 0\n0 1 3 0\n

outer: weak immediate abort
inner: weak immediate suspend
status: 0
output: 0 1 0 0\n0 1 1 0\n0 1 2 0\n0 1 3 0\n1 1 4 0\n0 1 5 0\n0 1 6 0\n1 1 7 0\n1 1 0 0\n0 1 1 0\n0 1 2 0\n0 1 3 0\n

outer: suspend
inner: abort
status: 0
output: 0 1 0 0\n0 1 1 0\n0 0 2 3\n0 1 2 4\n0 0 3 4\n0 1 3 4\n0 1 4 4\n0 0 5 4\n0 0 5 4\n0 0 5 3\n0 1 5 4\n0 1 6 4\n

outer: suspend
inner: immediate abort
status: 5
output: 0 0 0 0\n0 1 0 4\n0 0 1 3\n0 1 1 4\n0 0 2 4\n0 1 2 4\n0 1 3 4\n0 0 4 4\n0 0 4 4\n0 0 4 3\n
report: averest: conflict at step 10, 1:44\n

outer: suspend
inner: weak abort
status: 0
output: 0 1 0 0\n0 1 1 0\n0 1 2 3\n0 1 3 4\n0 0 4 4\n0 1 4 4\n0 1 5 4\n0 0 6 4\n0 0 6 4\n0 1 6 3\n0 1 7 4\n0 1 0 4\n

outer: suspend
inner: weak immediate abort
status: 5
output: 0 1 0 0\n0 1 1 4\n0 1 2 3\n0 1 3 4\n0 0 4 4\n0 1 4 4\n0 1 5 4\n0 0 6 4\n0 0 6 4\n0 1 6 3\n
report: averest: conflict at step 10, 1:44\n

outer: suspend
inner: suspend
status: 0
output: 0 1 0 0\n0 1 1 0\n0 0 2 0\n0 1 2 0\n0 0 3 0\n0 1 3 0\n0 1 4 0\n0 0 5 0\n0 0 5 0\n0 0 5 0\n0 0 5 0\n0 1 5 0\n

outer: suspend
inner: immediate suspend
status: 0
output: 0 0 0 0\n0 1 0 0\n0 0 1 0\n0 1 1 0\n0 0 2 0\n0 1 2 0\n0 1 3 0\n0 0 4 0\n0 0 4 0\n0 0 4 0\n0 0 4 0\n0 1 4 0\n

outer: suspend
inner: weak suspend
status: 0
output: 0 1 0 0\n0 1 1 0\n0 1 2 0\n0 1 3 0\n0 0 4 0\n0 1 4 0\n0 1 5 0\n0 0 6 0\n0 0 6 0\n0 1 6 0\n0 1 7 0\n0 1 0 0\n

outer: suspend
inner: weak immediate suspend
status: 0
output: 0 1 0 0\n0 1 1 0\n0 1 2 0\n0 1 3 0\n0 0 4 0\n0 1 4 0\n0 1 5 0\n0 0 6 0\n0 0 6 0\n0 1 6 0\n0 1 7 0\n0 1 0 0\n

outer: immediate suspend
inner: abort
status: 0
output: 0 1 0 0\n0 1 1 0\n0 0 2 3\n0 1 2 4\n0 0 3 4\n0 1 3 4\n0 1 4 4\n0 0 5 4\n0 0 5 4\n0 0 5 3\n0 1 5 4\n0 1 6 4\n

outer: immediate suspend
inner: immediate abort
status: 5
output: 0 0 0 0\n0 1 0 4\n0 0 1 3\n0 1 1 4\n0 0 2 4\n0 1 2 4\n0 1 3 4\n0 0 4 4\n0 0 4 4\n0 0 4 3\n
report: averest: conflict at step 10, 1:44\n

outer: immediate suspend
inner: weak abort
status: 0
output: 0 1 0 0\n0 1 1 0\n0 1 2 3\n0 1 3 4\n0 0 4 4\n0 1 4 4\n0 1 5 4\n0 0 6 4\n0 0 6 4\n0 1 6 3\n0 1 7 4\n0 1 0 4\n

outer: immediate suspend
inner: weak immediate abort
status: 5
output: 0 1 0 0\n0 1 1 4\n0 1 2 3\n0 1 3 4\n0 0 4 4\n0 1 4 4\n0 1 5 4\n0 0 6 4\n0 0 6 4\n0 1 6 3\n
report: averest: conflict at step 10, 1:44\n

outer: immediate suspend
inner: suspend
status: 0
output: 0 1 0 0\n0 1 1 0\n0 0 2 0\n0 1 2 0\n0 0 3 0\n0 1 3 0\n0 1 4 0\n0 0 5 0\n0 0 5 0\n0 0 5 0\n0 0 5 0\n0 1 5 0\n

outer: immediate suspend
inner: immediate suspend
status: 0
output: 0 0 0 0\n0 1 0 0\n0 0 1 0\n0 1 1 0\n0 0 2 0\n0 1 2 0\n0 1 3 0\n0 0 4 0\n0 0 4 0\n0 0 4 0\n0 0 4 0\n0 1 4 0\n

outer: immediate suspend
inner: weak suspend
status: 0
output: 0 1 0 0\n0 1 1 0\n0 1 2 0\n0 1 3 0\n0 0 4 0\n0 1 4 0\n0 1 5 0\n0 0 6 0\n0 0 6 0\n0 1 6 0\n0 1 7 0\n0 1 0 0\n

outer: immediate suspend
inner: weak immediate suspend
status: 0
output: 0 1 0 0\n0 1 1 0\n0 1 2 0\n0 1 3 0\n0 0 4 0\n0 1 4 0\n0 1 5 0\n0 0 6 0\n0 0 6 0\n0 1 6 0\n0 1 7 0\n0 1 0 0\n

outer: weak suspend
inner: abort
status: 0
output: 0 1 0 0\n0 1 1 0\n0 0 2 3\n0 1 2 4\n0 1 3 4\n0 1 4 4\n0 1 5 4\n0 0 6 3\n0 1 6 3\n0 0 7 3\n0 1 7 4\n0 1 0 4\n

outer: weak suspend
inner: immediate abort
status: 5
output: 0 0 0 0\n0 1 0 4\n0 0 1 3\n0 1 1 4\n0 1 2 4\n0 1 3 4\n0 1 4 4\n0 0 5 3\n0 1 5 3\n0 0 6 3\n
report: averest: conflict at step 10, 1:44\n

outer: weak suspend
inner: weak abort
status: 0
output: 0 1 0 0\n0 1 1 0\n0 1 2 3\n0 1 3 4\n0 1 4 4\n0 1 5 4\n0 1 6 4\n0 1 7 3\n0 1 0 3\n0 1 1 3\n0 1 2 4\n0 1 3 4\n

outer: weak suspend
inner: weak immediate abort
status: 5
output: 0 1 0 0\n0 1 1 4\n0 1 2 3\n0 1 3 4\n0 1 4 4\n0 1 5 4\n0 1 6 4\n0 1 7 3\n0 1 0 3\n0 1 1 3\n
report: averest: conflict at step 10, 1:44\n

outer: weak suspend
inner: suspend
status: 0
output: 0 1 0 0\n0 1 1 0\n0 0 2 0\n0 1 2 0\n0 1 3 0\n0 1 4 0\n0 1 5 0\n0 0 6 0\n0 1 6 0\n0 0 7 0\n0 0 7 0\n0 1 7 0\n

outer: weak suspend
inner: immediate suspend
status: 0
output: 0 0 0 0\n0 1 0 0\n0 0 1 0\n0 1 1 0\n0 1 2 0\n0 1 3 0\n0 1 4 0\n0 0 5 0\n0 1 5 0\n0 0 6 0\n0 0 6 0\n0 1 6 0\n

outer: weak suspend
inner: weak suspend
status: 0
output: 0 1 0 0\n0 1 1 0\n0 1 2 0\n0 1 3 0\n0 1 4 0\n0 1 5 0\n0 1 6 0\n0 1 7 0\n0 1 0 0\n0 1 1 0\n0 1 2 0\n0 1 3 0\n

outer: weak suspend
inner: weak immediate suspend
status: 0
output: 0 1 0 0\n0 1 1 0\n0 1 2 0\n0 1 3 0\n0 1 4 0\n0 1 5 0\n0 1 6 0\n0 1 7 0\n0 1 0 0\n0 1 1 0\n0 1 2 0\n0 1 3 0\n

outer: weak immediate suspend
inner: abort
status: 0
output: 0 1 0 0\n0 1 1 0\n0 0 2 3\n0 1 2 4\n0 1 3 4\n0 1 4 4\n0 1 5 4\n0 0 6 3\n0 1 6 3\n0 0 7 3\n0 1 7 4\n0 1 0 4\n

outer: weak immediate suspend
inner: immediate abort
status: 5
output: 0 0 0 0\n0 1 0 4\n0 0 1 3\n0 1 1 4\n0 1 2 4\n0 1 3 4\n0 1 4 4\n0 0 5 3\n0 1 5 3\n0 0 6 3\n
report: averest: conflict at step 10, 1:44\n

outer: weak immediate suspend
inner: weak abort
status: 0
output: 0 1 0 0\n0 1 1 0\n0 1 2 3\n0 1 3 4\n0 1 4 4\n0 1 5 4\n0 1 6 4\n0 1 7 3\n0 1 0 3\n0 1 1 3\n0 1 2 4\n0 1 3 4\n

outer: weak immediate suspend
inner: weak immediate abort
status: 5
output: 0 1 0 0\n0 1 1 4\n0 1 2 3\n0 1 3 4\n0 1 4 4\n0 1 5 4\n0 1 6 4\n0 1 7 3\n0 1 0 3\n0 1 1 3\n
report: averest: conflict at step 10, 1:44\n

outer: weak immediate suspend
inner: suspend
status: 0
output: 0 1 0 0\n0 1 1 0\n0 0 2 0\n0 1 2 0\n0 1 3 0\n0 1 4 0\n0 1 5 0\n0 0 6 0\n0 1 6 0\n0 0 7 0\n0 0 7 0\n0 1 7 0\n

outer: weak immediate suspend
inner: immediate suspend
status: 0
output: 0 0 0 0\n0 1 0 0\n0 0 1 0\n0 1 1 0\n0 1 2 0\n0 1 3 0\n0 1 4 0\n0 0 5 0\n0 1 5 0\n0 0 6 0\n0 0 6 0\n0 1 6 0\n

outer: weak immediate suspend
inner: weak suspend
status: 0
output: 0 1 0 0\n0 1 1 0\n0 1 2 0\n0 1 3 0\n0 1 4 0\n0 1 5 0\n0 1 6 0\n0 1 7 0\n0 1 0 0\n0 1 1 0\n0 1 2 0\n0 1 3 0\n

outer: weak immediate suspend
inner: weak immediate suspend
status: 0
output: 0 1 0 0\n0 1 1 0\n0 1 2 0\n0 1 3 0\n0 1 4 0\n0 1 5 0\n0 1 6 0\n0 1 7 0\n0 1 0 0\n0 1 1 0\n0 1 2 0\n0 1 3 0\n"#;

#[test]
fn every_form_in_every_form(rt: HostRuntime) -> Result<(), Fail> {
    let alloc = rt.alloc();
    for row in NESTED.split("\n\n") {
        let (outer, inner) = (value_of(row, "outer"), value_of(row, "inner"));
        let text = format!(in alloc;
            "module M(event ?c, ?d, !s, !t, nat{{8}} !n, !u) {{ loop {{ {outer} loop {{ nat{{8}} k; next(k) = (k + 3) % 8; {inner} loop {{ emit t; next(n) = (n + 1) % 8; pause; }} when(d); u = k; pause; u = (k + 1) % 8; }} when(c); emit s; pause; }} }}"
        )?;
        let found = outcome(&rt, alloc, Case::run(text.as_bytes(), TRACE))?;
        assert_eq!(rt;
            found.as_str(),
            wanted(alloc, row)?.as_str(),
            "{inner} in {outer}"
        );
    }
    Ok(())
}
