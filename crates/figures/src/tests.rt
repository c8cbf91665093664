use super::*;
use abstraction::{Abstraction, Anything, Listing, Untimed};
use case::Standing;
use fault::Place;
use judge::Entry;
use std::test::Fail;

// The number of the refusal, where the call was refused.
fn refused(r: Result<(), Fault>) -> Option<u8> {
    r.err().map(|fault| fault.refusal.number())
}

// The state that the run is in, or the number of the refusal.
fn at(r: Result<u8, Fault>) -> Result<u8, u8> {
    r.map_err(|fault| fault.refusal.number())
}

fn sized(states: u64, start: u64, target: u64, labels: u64, clocks: u64) -> Opening {
    Opening {
        states,
        start,
        target,
        labels,
        clocks,
    }
}

// A pop at ages 10 to 20 of scale 10 is taken, at 9 and 21 refused.
#[test]
fn pops(rt: HostRuntime) -> Result<(), Fail> {
    let mut case = Case::new(rt.alloc())?;
    assert!(rt; refused(draw(&mut case)) == None);
    assert!(rt; at(pop_after(&mut case, 9)) == Err(17));
    assert!(rt; case.standing() == Standing::Undecided);
    assert!(rt; at(pop_after(&mut case, 10)) == Ok(2));
    assert!(rt; case.standing() == Standing::Reachable);
    assert!(rt; at(case.fire(2, 0)) == Err(17));
    assert!(rt; at(pop_after(&mut case, 20)) == Ok(2));
    assert!(rt; at(pop_after(&mut case, 21)) == Err(17));
    Ok(())
}

// An inserted clock moves the tested clock up, and no label.
#[test]
fn insertion(rt: HostRuntime) -> Result<(), Fail> {
    let mut case = Case::new(rt.alloc())?;
    assert!(rt; refused(draw(&mut case)) == None);
    assert!(rt; refused(case.insert(2)) == Some(10));
    assert!(rt; refused(case.insert(0)) == None);
    assert!(rt; case.standing() == Standing::Undecided);
    assert!(rt; at(pop_after(&mut case, 10)) == Ok(2));
    assert!(rt; refused(case.insert(1)) == None);
    assert!(rt; refused(case.insert(3)) == Some(9));
    assert!(rt; refused(case.insert(4)) == Some(9));
    Ok(())
}

#[test]
fn sizes(rt: HostRuntime) -> Result<(), Fail> {
    let mut case = Case::new(rt.alloc())?;
    assert!(rt; refused(case.open(sized(0, 0, 0, 0, 0))) == Some(1));
    assert!(rt; refused(case.open(sized(65, 0, 0, 0, 0))) == Some(1));
    assert!(rt; refused(case.open(sized(64, 0, 0, 17, 0))) == Some(1));
    assert!(rt; refused(case.open(sized(64, 0, 0, 16, 4))) == Some(1));
    assert!(rt; refused(case.open(sized(64, 64, 0, 16, 3))) == Some(2));
    assert!(rt; refused(case.open(sized(64, 63, 63, 16, 3))) == None);
    assert!(rt; refused(case.insert(0)) == Some(9));
    assert!(rt; refused(case.retarget(64)) == Some(2));
    assert!(rt; refused(case.remove(0)) == Some(8));
    Ok(())
}

#[test]
fn scales(rt: HostRuntime) -> Result<(), Fail> {
    let mut case = Case::new(rt.alloc())?;
    assert!(rt; at(case.delay(0)) == Err(12));
    assert!(rt; at(case.begin(0)) == Err(11));
    assert!(rt; at(case.begin(1_000_001)) == Err(11));
    assert!(rt; at(case.begin(1_000_000)) == Ok(0));
    assert!(rt; at(case.begin(1)) == Ok(0));
    assert!(rt; at(case.fire(0, 0)) == Err(8));
    Ok(())
}

// 10^15 is the greatest clock, and the greatest delay.
#[test]
fn limits(rt: HostRuntime) -> Result<(), Fail> {
    let mut case = Case::new(rt.alloc())?;
    assert!(rt; refused(draw(&mut case)) == None);
    assert!(rt; at(case.begin(1)) == Ok(0));
    assert!(rt; at(case.delay(1_000_000_000_000_001)) == Err(13));
    assert!(rt; at(case.delay(1_000_000_000_000_000)) == Ok(0));
    assert!(rt; at(case.delay(1)) == Err(13));
    assert!(rt; at(case.fire(0, 1_000_000_000_000_001)) == Err(13));
    assert!(rt; at(case.fire(0, 1)) == Err(17));
    assert!(rt; at(case.fire(1, 0)) == Err(14));
    assert!(rt; at(case.fire(0, 0)) == Ok(1));
    Ok(())
}

#[test]
fn refused_rules(rt: HostRuntime) -> Result<(), Fail> {
    let mut case = Case::new(rt.alloc())?;
    assert!(rt; refused(case.open(sized(2, 0, 1, 1, 1))) == None);
    assert!(rt; refused(case.add([2, 0, 9, 9, 16, 2, 16, 3].into())) == Some(4));
    assert!(rt; refused(case.add([1, 0, 5, 9, 16, 2, 16, 3].into())) == Some(5));
    assert!(rt; refused(case.add([1, 0, 4, 0, 16, 2, 16, 3].into())) == Some(6));
    assert!(rt; refused(case.add([1, 0, 2, 1, 0, 0, 0, 0].into())) == Some(6));
    assert!(rt; refused(case.add([1, 0, 4, 1, 16, 0, 0, 0].into())) == Some(7));
    assert!(rt; refused(case.add([1, 0, 4, 1, 15, 0, 1, 2].into())) == Some(7));
    assert!(rt; refused(case.add([1, 0, 4, 1, 15, 1, 0, 2].into())) == None);
    Ok(())
}

// 64 rules and 128 symbols fit, and no more.
#[test]
fn full(rt: HostRuntime) -> Result<(), Fail> {
    let mut case = Case::new(rt.alloc())?;
    assert!(rt; refused(case.open(sized(1, 0, 0, 1, 0))) == None);
    for _ in 0..64u8 {
        assert!(rt; refused(case.add([0, 0, 3, 1, 0, 0, 0, 2].into())) == None);
    }
    assert!(rt; refused(case.add([0, 0, 3, 1, 0, 0, 0, 2].into())) == Some(3));
    assert!(rt; at(case.begin(1)) == Ok(0));
    for _ in 0..128u8 {
        assert!(rt; at(case.fire(63, 7)) == Ok(0));
    }
    assert!(rt; at(case.fire(63, 7)) == Err(16));
    assert!(rt; at(case.fire(64, 7)) == Err(8));
    Ok(())
}

// Judge's tests have the same: two crates share no test code.
fn row(root: u64, state: u64, label: u64) -> Entry<Anything> {
    Entry {
        root,
        state,
        label,
        shape: Anything,
    }
}

// The entry that a refusal names.
fn entry(fault: Fault) -> Option<u64> {
    match fault.place {
        Place::Table { entry, .. } => Some(entry),
        _ => None,
    }
}

// Whether the table is accepted, or the number and the entry of the refusal.
fn verdict(r: Result<(), Fault>) -> Result<(), (u8, Option<u64>)> {
    r.map_err(|fault| (fault.refusal.number(), entry(fault)))
}

// Two states, no rules, the second one the target.
fn apart(case: &mut Case) -> Result<(), Fault> {
    case.open(sized(2, 0, 1, 1, 0))
}

fn judged(
    case: &mut Case,
    table: &[Entry<Anything>],
    scratch: &mut [u8],
    listing: &mut Listing<Anything>,
) -> Result<(), (u8, Option<u64>)> {
    verdict(case.judge(&Untimed::new(), table, 0, scratch, listing))
}

#[test]
fn small_tables(rt: HostRuntime) -> Result<(), Fail> {
    let mut case = Case::new(rt.alloc())?;
    let mut listing = Listing::new(rt.alloc())?;
    let mut scratch = [0u8; 4];
    assert!(rt; refused(apart(&mut case)) == None);
    assert!(rt; judged(&mut case, &[], &mut scratch, &mut listing) == Err((18, Some(2048))));
    assert!(rt;
        judged(&mut case, &[row(1, 0, 0)], &mut scratch, &mut listing) == Err((19, Some(0)))
    );
    assert!(rt;
        judged(&mut case, &[row(0, 0, 1)], &mut scratch, &mut listing) == Err((20, Some(0)))
    );
    let other = [row(0, 0, 0), row(0, 0, 1)];
    assert!(rt; judged(&mut case, &other, &mut scratch, &mut listing) == Err((19, Some(1))));
    let target = [row(0, 0, 0), row(0, 1, 0)];
    assert!(rt; judged(&mut case, &target, &mut scratch, &mut listing) == Err((21, Some(1))));
    assert!(rt; case.standing() == Standing::Undecided);
    assert!(rt; judged(&mut case, &[row(0, 0, 0)], &mut scratch, &mut listing) == Ok(()));
    assert!(rt; case.standing() == Standing::Unreachable);
    Ok(())
}

// 2,048 entries with as many bytes of scratch, and no more.
#[test]
fn long_tables(rt: HostRuntime) -> Result<(), Fail> {
    let mut case = Case::new(rt.alloc())?;
    let mut listing = Listing::new(rt.alloc())?;
    let mut table = Vec::new(rt.alloc());
    for _ in 0..2049u16 {
        table.push(row(0, 0, 0))?;
    }
    let mut scratch = [0u8; 2048];
    let mut short = [0u8; 2047];
    assert!(rt; refused(apart(&mut case)) == None);
    assert!(rt; table.len() == 2049);
    let most = &table[0..2048];
    assert!(rt; judged(&mut case, &table, &mut scratch, &mut listing) == Err((18, Some(2048))));
    assert!(rt; judged(&mut case, most, &mut short, &mut listing) == Err((18, Some(2048))));
    assert!(rt; judged(&mut case, most, &mut scratch, &mut listing) == Ok(()));
    assert!(rt; case.standing() == Standing::Unreachable);
    Ok(())
}
