//! Logs of a check over the two-stop case, each with the depot opening at 0 and late: every call's answer on a line.
#![tactic(auto)]

use checking::calls::{Answer, Call, Grant, Standing};
use checking::faults::CheckFault;
use checking::running::run_log;
use measures::load::Load;
use replay::vans::Priced;
use routing::cells::{Fleet, Head, Place, Road};
use routing::denials::Denial;
use routing::tables::TableNetwork;
use std::io;

const LEAF: [u8; 97] = [
    76, 1, 0, 0, 0, 0, 0, 0, 0, 0, 0, 5, 0, 0, 0, 0, 0, 0, 0, 7, 0, 0, 0, 0, 0, 0, 0, 4, 0, 1, 1,
    0, 0, 0, 0, 0, 0, 0, 4, 0, 0, 0, 0, 0, 0, 0, 1, 4, 0, 0, 0, 0, 0, 0, 0, 9, 0, 0, 0, 0, 0, 0, 0,
    2, 2, 0, 0, 0, 0, 0, 0, 0, 5, 0, 0, 0, 0, 0, 0, 0, 2, 5, 0, 0, 0, 0, 0, 0, 0, 9, 0, 0, 0, 0, 0,
    0, 0,
];

// An arc as dear as it is long.
fn road(length: u8) -> Option<Road> {
    Some(Road {
        cost: length as u32,
        travel: length as u32,
    })
}

// Printed by hand: the types are another crate's, and their words here are this program's alone.
fn show(rt: &HostRuntime, answer: Answer) -> io::Result<()> {
    match answer {
        Ok(Grant::Presented(Priced { cost, routes })) => {
            println!(rt; "presented {cost} routes {routes}")
        }
        Ok(Grant::Forked) => println!(rt; "forked"),
        Ok(Grant::Closed) => println!(rt; "closed"),
        Ok(Grant::Stands(Standing::Proved { cost })) => println!(rt; "proved {cost}"),
        Ok(Grant::Stands(Standing::Open { decisions })) => println!(rt; "open {decisions}"),
        Err(fault) => {
            let Denial {
                number,
                from,
                to,
                place,
            } = Denial::from(fault);
            println!(rt; "denied {number} arc {from} {to} place {place}")
        }
    }
}

// Runs the calls over the two-stop case whose depot opens at a minute up to 100.
fn show_log(rt: &HostRuntime, name: &str, opening: u8, calls: &[Call<'_>]) -> io::Result<()> {
    println!(rt; "{name}, depot opening {opening}")?;
    let opening = (opening as u32).min(100);
    let places = [
        Place {
            load: 0,
            opening,
            closing: 100,
            service: 0,
        },
        Place {
            load: 4,
            opening: 0,
            closing: 50,
            service: 0,
        },
        Place {
            load: 5,
            opening: 0,
            closing: 50,
            service: 0,
        },
    ];
    let arcs = [
        None,
        road(4),
        road(5),
        road(4),
        None,
        road(3),
        road(5),
        road(3),
        None,
    ];
    let head = Head {
        customers: 2,
        capacity: 10,
        fleet: Fleet { least: 0, most: 2 },
    };
    let Some(network) = TableNetwork::new(head, &places, &arcs) else {
        return Ok(());
    };
    let mut answers: [Answer; 20] = [Err(CheckFault::NoPlan); 20];
    let _ = run_log(network, &Load, calls, &mut answers);
    for answer in answers.iter().take(calls.len()) {
        show(rt, *answer)?;
    }
    Ok(())
}

// Forks before any plan, and a cheaper plan presented in mid-tree.
fn cheaper_in_mid_tree(rt: &HostRuntime, opening: u8) -> io::Result<()> {
    let calls = [
        Call::Ask,
        Call::Fork(&[65, 1, 2]),
        Call::Close(&LEAF),
        Call::Fork(&[65, 0, 3]),
        Call::Fork(&[65, 1]),
        Call::Present(&[1, 0, 2, 0]),
        Call::Close(&LEAF),
        Call::Ask,
        Call::Present(&[2, 1, 0]),
        Call::Present(&[1, 0, 2, 0]),
        Call::Close(&LEAF),
        Call::Ask,
        Call::Close(&LEAF),
        Call::Ask,
        Call::Fork(&[65, 1, 2]),
        Call::Close(&LEAF),
        Call::Present(&[1, 2, 0]),
        Call::Ask,
    ];
    show_log(rt, "a cheaper plan in mid-tree", opening, &calls)
}

// A tree two forks deep on each side, with denied calls and asks between its calls.
fn two_forks_deep(rt: &HostRuntime, opening: u8) -> io::Result<()> {
    let calls = [
        Call::Close(&LEAF),
        Call::Present(&[1, 2, 0]),
        Call::Fork(&[65, 1, 2]),
        Call::Ask,
        Call::Fork(&[65, 2, 1]),
        Call::Close(&[76]),
        Call::Close(&LEAF),
        Call::Close(&LEAF),
        Call::Ask,
        Call::Fork(&[65, 0, 1]),
        Call::Fork(&[65, 1, 1]),
        Call::Close(&LEAF),
        Call::Ask,
        Call::Close(&LEAF),
        Call::Ask,
    ];
    show_log(rt, "two forks deep", opening, &calls)
}

fn main(rt: HostRuntime) -> io::Result<()> {
    cheaper_in_mid_tree(&rt, 0)?;
    cheaper_in_mid_tree(&rt, 44)?;
    two_forks_deep(&rt, 0)?;
    two_forks_deep(&rt, 44)
}
