//! Modules of the greatest size.

use crate::runs::{Case, outcome};
use std::alloc::Global;
use std::test::Fail;

// A module of so many outputs of 64 elements.
fn outputs(alloc: Global, count: usize) -> Result<String, Fail> {
    let mut text = format!(in alloc; "module M([64]bool !a0")?;
    for number in 1..count {
        let output = format!(in alloc; ", !a{number}")?;
        text.push_str(&output)?;
    }
    text.push_str(") { }")?;
    Ok(text)
}

#[test]
fn sizes(rt: HostRuntime) -> Result<(), Fail> {
    for (count, wanted) in [(511, "0||"), (512, "3||averest: refused S8 at 1:1\n")] {
        let text = outputs(rt.alloc(), count)?;
        let found = outcome(&rt, rt.alloc(), Case::run(text.as_bytes(), b""))?;
        assert_eq!(rt; found.as_str(), wanted);
    }
    Ok(())
}
