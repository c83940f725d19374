//! What travels through the pipeline.

use quartz_tree::{Fault, Kind, Place};
use stage_rings::{Back, Body, Cause, Packet};
use std::test::Fail;

#[test]
fn a_step_and_its_fault(rt: HostRuntime) -> Result<(), Fail> {
    let fault = Fault {
        place: Place { line: 1, col: 34 },
        kind: Kind::Conflict,
    };
    let packet = Packet {
        step: 1,
        body: Body::Step { fault: Some(fault) },
        values: vec![in rt.alloc(); 1, 0]?,
    };
    assert_eq!(rt; packet.body, Body::Step { fault: Some(fault) });
    assert_ne!(rt; packet.body, Body::End(Cause::Done));
    assert_eq!(rt; packet.values.len(), 2);
    Ok(())
}

#[test]
fn a_value_that_is_fed_back(rt: HostRuntime) {
    let back = Back {
        step: 3,
        reg: 4,
        value: -1,
    };
    let same = Back { ..back };
    assert_eq!(rt; back, same);
    assert_ne!(rt; back, Back { step: 4, ..back });
}
