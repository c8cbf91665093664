use super::*;
use automaton::{Model, Opening, RuleNumbers};
use judge::{Entry, judge};
use std::alloc::Global;
use std::process::Abort;
use std::test::Fail;

// Judge's tests have much the same helpers: two crates share no test code.
fn entry(root: u64, state: u64, label: u64, age: u64) -> Entry<Floor> {
    Entry {
        root,
        state,
        label,
        shape: Floor { age },
    }
}

fn rule(from: u64, to: u64, kind: u64, lower: u64, upper: u64) -> RuleNumbers {
    RuleNumbers {
        from,
        to,
        kind,
        argument: 1,
        lower,
        lower_flag: 0,
        upper,
        upper_flag: 0,
    }
}

// A push at an age of 2 to 3, and to the target a pop at an age of 0 to `upper`.
fn push_and_pop(rt: &impl Abort, heap: Global, upper: u64) -> Result<Model, Fail> {
    let mut model = Model::new(heap)?;
    let three = Opening {
        states: 3,
        start: 0,
        target: 2,
        labels: 1,
        clocks: 0,
    };
    assert!(rt; model.open(three).is_ok());
    assert!(rt; model.add(rule(0, 1, 3, 2, 3)).is_ok());
    assert!(rt; model.add(rule(1, 2, 4, 0, upper)).is_ok());
    Ok(model)
}

fn accepted(rt: &impl Abort, heap: Global, upper: u64) -> Result<bool, Fail> {
    let model = push_and_pop(rt, heap, upper)?;
    let mut listing = Listing::new(heap)?;
    let mut scratch = [0; 2];
    let table = [entry(0, 0, 0, 0), entry(1, 1, 1, 2)];
    Ok(judge(
        &model,
        &Floors::new(),
        &table,
        3,
        &mut scratch,
        &mut listing,
    )
    .is_ok())
}

// What is pushed at 2 or later cannot be popped at 1 or before, but at 2 it can.
#[test]
fn too_old_to_pop(rt: HostRuntime) -> Result<(), Fail> {
    assert!(rt; accepted(&rt, rt.alloc(), 1)?);
    assert!(rt; !accepted(&rt, rt.alloc(), 2)?);
    Ok(())
}
