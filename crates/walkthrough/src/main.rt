#![tactic(auto)]

// One real task through the calls, told in plain words: an approver delegates, the delegate
// delegates further, and every open delegation has to be signed within a day. Can it come to a
// payment without the second signature?

use automaton::Opening;
use case::{Case, Standing};
use fault::{Fault, Refusal};
use std::io;

// The rules of the flow, by their places: what each says, and its numbers.
const RULES: [(&str, [u64; 8]); 7] = [
    ("the approver delegates", [0, 1, 3, 1, 0, 0, 0, 0]),
    ("the delegate delegates further", [1, 1, 3, 1, 0, 0, 0, 0]),
    (
        "the last delegate signs within a day",
        [1, 2, 4, 1, 0, 0, 1, 0],
    ),
    ("the one above signs within a day", [2, 2, 4, 1, 0, 0, 1, 0]),
    (
        "it is paid within a day of the draft",
        [2, 5, 1, 0, 0, 0, 1, 0],
    ),
    (
        "a delegation is handed back after more than a day",
        [1, 3, 4, 1, 1, 1, 0, 2],
    ),
    (
        "it is paid unsigned within a day of the draft",
        [3, 4, 1, 0, 0, 0, 1, 0],
    ),
];

// The names of the states.
const STATES: [&str; 6] = [
    "drafted",
    "delegated",
    "signing",
    "expired",
    "paid without the second signature",
    "paid",
];

fn tell_refusal(rt: &HostRuntime, fault: Fault) -> io::Result<()> {
    let n = fault.refusal.number();
    match fault.refusal {
        Refusal::NoRun => println!(rt; "  refused by {n}: there is no run"),
        Refusal::OutsideInterval => println!(rt; "  refused by {n}: outside the interval"),
        _ => println!(rt; "  refused by {n}"),
    }
}

fn tell_edit(rt: &HostRuntime, r: Result<(), Fault>) -> io::Result<()> {
    r.or_else(|fault| tell_refusal(rt, fault))
}

fn tell_step(rt: &HostRuntime, r: Result<u8, Fault>) -> io::Result<()> {
    match r {
        Ok(state) => {
            let name = STATES.get(state as usize).unwrap_or(&"unknown");
            println!(rt; "  now {name}")
        }
        Err(fault) => tell_refusal(rt, fault),
    }
}

fn tell_standing(rt: &HostRuntime, case: &Case) -> io::Result<()> {
    let says = match case.standing() {
        Standing::Undecided => "The case is undecided.",
        Standing::Reachable => "The target is reachable.",
        Standing::Unreachable => "The target is unreachable.",
    };
    println!(rt; "{says}")
}

fn fire(rt: &HostRuntime, case: &mut Case, place: usize) -> io::Result<()> {
    if let Some((says, _)) = RULES.get(place) {
        println!(rt; "- {says}")?;
    }
    tell_step(rt, case.fire(place as u64, 0))
}

fn delay(rt: &HostRuntime, case: &mut Case, hours: u64) -> io::Result<()> {
    println!(rt; "- {hours} hours pass")?;
    tell_step(rt, case.delay(hours))
}

fn draw(rt: &HostRuntime, case: &mut Case) -> io::Result<()> {
    println!(rt;
        "The flow: six states, one label for an open delegation, one clock since the draft."
    )?;
    let opening = Opening {
        states: 6,
        start: 0,
        target: 4,
        labels: 1,
        clocks: 1,
    };
    tell_edit(rt, case.open(opening))?;
    for (_, row) in RULES {
        tell_edit(rt, case.add(row.into()))?;
    }
    println!(rt; "Seven rules are drawn; the target is: paid without the second signature.")?;
    println!(rt; "A rule that names a second clock is not taken up:")?;
    tell_edit(rt, case.add([0, 0, 1, 1, 0, 0, 1, 0].into()))?;
    tell_standing(rt, case)
}

fn refused_run(rt: &HostRuntime, case: &mut Case) -> io::Result<()> {
    println!(rt; "A run in hours that lets a delegation expire:")?;
    tell_step(rt, case.begin(24))?;
    fire(rt, case, 0)?;
    delay(rt, case, 25)?;
    fire(rt, case, 5)?;
    fire(rt, case, 6)?;
    println!(rt; "The refused step changed nothing, and the run goes on:")?;
    delay(rt, case, 1)?;
    tell_standing(rt, case)
}

fn legal_run(rt: &HostRuntime, case: &mut Case, paid: u64) -> io::Result<()> {
    println!(rt; "The same flow asked whether it can be paid in time, by a run:")?;
    tell_edit(rt, case.retarget(paid))?;
    tell_step(rt, case.begin(24))?;
    fire(rt, case, 0)?;
    delay(rt, case, 3)?;
    fire(rt, case, 1)?;
    delay(rt, case, 20)?;
    fire(rt, case, 2)?;
    fire(rt, case, 3)?;
    fire(rt, case, 4)?;
    tell_standing(rt, case)
}

fn deadline(rt: &HostRuntime, case: &mut Case) -> io::Result<()> {
    println!(rt; "A clock for a further deadline is put before the other:")?;
    tell_edit(rt, case.insert(0))?;
    tell_standing(rt, case)?;
    println!(rt; "The run is over:")?;
    delay(rt, case, 1)?;
    println!(rt; "The payment's rule still tests the clock since the draft, now the second:")?;
    tell_step(rt, case.begin(24))?;
    fire(rt, case, 0)?;
    delay(rt, case, 24)?;
    fire(rt, case, 2)?;
    fire(rt, case, 4)?;
    tell_standing(rt, case)
}

fn main(rt: HostRuntime) -> io::Result<()> {
    let mut case = Case::new(rt.alloc())?;
    draw(&rt, &mut case)?;
    refused_run(&rt, &mut case)?;
    legal_run(&rt, &mut case, 5)?;
    deadline(&rt, &mut case)
}
