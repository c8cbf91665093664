use super::*;
use abstraction::{Anything, Untimed};
use automaton::{Opening, RuleNumbers};
use fault::Place;
use std::alloc::Global;
use std::process::Abort;
use std::test::Fail;

// The tests of figures have the same: two crates share no test code.
fn row(root: u64, state: u64, label: u64) -> Entry<Anything> {
    Entry {
        root,
        state,
        label,
        shape: Anything,
    }
}

// A fault in a table by the number of its refusal and its place.
fn told(answer: Result<(), Fault>) -> Result<(), (u8, Option<(u64, u64, u64)>)> {
    answer.map_err(|f| match f.place {
        Place::Table { entry, rule, above } => (f.refusal.number(), Some((entry, rule, above))),
        _ => (f.refusal.number(), None),
    })
}

fn rule(from: u64, to: u64, kind: u64) -> RuleNumbers {
    RuleNumbers {
        from,
        to,
        kind,
        argument: 1,
        lower: 0,
        lower_flag: 0,
        upper: 3,
        upper_flag: 0,
    }
}

// A push from 0 to 1 and a pop from there to 2; the target is 3.
fn push_and_pop(rt: &impl Abort, heap: Global) -> Result<Model, Fail> {
    let mut model = Model::new(heap)?;
    let four = Opening {
        states: 4,
        start: 0,
        target: 3,
        labels: 1,
        clocks: 0,
    };
    assert!(rt; model.open(four).is_ok());
    assert!(rt; model.add(rule(0, 1, 3)).is_ok());
    assert!(rt; model.add(rule(1, 2, 4)).is_ok());
    Ok(model)
}

// What comes of a table over the untimed shape, with a scratch of three bytes.
fn untimed(
    rt: &impl Abort,
    heap: Global,
    table: &[Entry<Anything>],
) -> Result<Result<(), (u8, Option<(u64, u64, u64)>)>, Fail> {
    let model = push_and_pop(rt, heap)?;
    let mut listing = Listing::new(heap)?;
    let mut bytes = [7; 3];
    Ok(told(judge(&model, &Untimed::new(), table, 3, &mut bytes, &mut listing)))
}

#[test]
fn sizes(rt: HostRuntime) -> Result<(), Fail> {
    assert!(rt; untimed(&rt, rt.alloc(), &[])? == Err((18, Some((2048, 64, 2048)))));
    assert!(rt; untimed(&rt, rt.alloc(), &[row(0, 0, 0); 4])? == Err((18, Some((2048, 64, 2048)))));
    Ok(())
}

#[test]
fn entries(rt: HostRuntime) -> Result<(), Fail> {
    assert!(rt;
        untimed(&rt, rt.alloc(), &[row(0, 0, 0), row(2, 0, 0)])? == Err((19, Some((1, 64, 2048))))
    );
    assert!(rt;
        untimed(&rt, rt.alloc(), &[row(0, 0, 0), row(0, 0, 1)])? == Err((19, Some((1, 64, 2048))))
    );
    assert!(rt;
        untimed(&rt, rt.alloc(), &[row(0, 0, 0), row(0, 3, 0)])? == Err((21, Some((1, 64, 2048))))
    );
    Ok(())
}

#[test]
fn closure(rt: HostRuntime) -> Result<(), Fail> {
    assert!(rt; untimed(&rt, rt.alloc(), &[row(0, 0, 0)])? == Err((22, Some((0, 0, 2048)))));
    assert!(rt;
        untimed(&rt, rt.alloc(), &[row(0, 0, 0), row(1, 1, 1)])? == Err((22, Some((0, 1, 1))))
    );
    assert!(rt; untimed(&rt, rt.alloc(), &[row(0, 0, 0), row(1, 1, 1), row(0, 2, 0)])? == Ok(()));
    Ok(())
}
