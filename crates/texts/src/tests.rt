//! A small case and a small plan, and one refusal of each number.
use crate::cases::read_case;
use crate::faults::TextFault;
use crate::plans::read_plan;
use routing::cells::{Place, Road};
use std::process::Abort;
use std::test::Fail;

const TWO_STOPS: &[u8] =
    b"M 2 10 0 2\n0 0 100 0\n4 0 50 0\n5 0 50 0\n- 4/4 5/5\n4/4 - 3/3\n5/5 3/3 -\n";

fn case_fault(text: &[u8]) -> Option<TextFault> {
    let mut places = [Place::BLANK; 3];
    let mut arcs: [Option<Road>; 9] = [None; 9];
    read_case(text, &mut places, &mut arcs).err()
}

fn same_arc(rt: &impl Abort, arc: Option<Road>, cost: u32, travel: u32) -> Result<(), Fail> {
    let Some(road) = arc else {
        return Err(Fail::new("no arc"));
    };
    assert_eq!(rt; road.cost, cost);
    assert_eq!(rt; road.travel, travel);
    Ok(())
}

#[test]
fn reads_two_stops(rt: HostRuntime) -> Result<(), Fail> {
    let mut places = [Place::BLANK; 3];
    let mut arcs: [Option<Road>; 10] = [None; 10];
    let Ok(head) = read_case(TWO_STOPS, &mut places, &mut arcs) else {
        return Err(Fail::new("refused"));
    };
    assert_eq!(rt; head.customers, 2);
    assert_eq!(rt; head.capacity, 10);
    assert_eq!(rt; head.fleet.least, 0);
    assert_eq!(rt; head.fleet.most, 2);
    assert_eq!(rt; places[0].closing, 100);
    assert_eq!(rt; places[2].load, 5);
    assert!(rt; arcs[0].is_none());
    same_arc(&rt, arcs[1], 4, 4)?;
    same_arc(&rt, arcs[2], 5, 5)?;
    same_arc(&rt, arcs[5], 3, 3)?;
    assert!(rt; arcs[8].is_none());
    Ok(())
}

#[test]
fn refuses_cases(rt: HostRuntime) {
    assert_eq!(rt; case_fault(b"M 2 010 0 2\n"), Some(TextFault::Form(4)));
    assert_eq!(rt; case_fault(b"M 2 10 0\n"), Some(TextFault::Count(8)));
    assert_eq!(rt; case_fault(b"M 2 10 2 1\n"), Some(TextFault::Range(9)));
    let surplus = b"M 1 0 0 0\n0 0 0 0\n0 0 0 0\n- -\n- -\n ";
    assert_eq!(rt; case_fault(surplus), Some(TextFault::Count(34)));
    let mut places = [Place::BLANK; 2];
    let mut arcs: [Option<Road>; 9] = [None; 9];
    let short = read_case(TWO_STOPS, &mut places, &mut arcs).err();
    assert_eq!(rt; short, Some(TextFault::ShortTable));
}

#[test]
fn reads_a_plan(rt: HostRuntime) {
    let mut listing = [7; 121];
    assert_eq!(rt; read_plan(b" 1 2\n\n0 255", &mut listing), Ok(4));
    assert_eq!(rt; listing[3], 255);
    assert_eq!(rt; listing[4], 7);
    assert_eq!(rt; read_plan(b"", &mut listing), Ok(0));
}

#[test]
fn refuses_plans(rt: HostRuntime) {
    let mut listing = [0; 120];
    assert_eq!(rt; read_plan(b"1 +2", &mut listing), Err(TextFault::Form(2)));
    let mut long = [b' '; 242];
    for i in 0..121 {
        long[2 * i] = b'1';
    }
    assert_eq!(rt; read_plan(&long, &mut listing), Err(TextFault::Count(240)));
    assert_eq!(rt; read_plan(b"1 256", &mut listing), Err(TextFault::Range(2)));
    let mut short = [0; 119];
    assert_eq!(rt; read_plan(b"", &mut short), Err(TextFault::ShortTable));
}

#[test]
fn numbers_faults(rt: HostRuntime) {
    assert_eq!(rt; TextFault::Form(4).number(), 1);
    assert_eq!(rt; TextFault::Count(8).number(), 2);
    assert_eq!(rt; TextFault::Range(9).number(), 3);
    assert_eq!(rt; TextFault::ShortTable.number(), 4);
    assert_eq!(rt; TextFault::Form(4).place(), 4);
    assert_eq!(rt; TextFault::Count(8).place(), 8);
    assert_eq!(rt; TextFault::Range(9).place(), 9);
    assert_eq!(rt; TextFault::ShortTable.place(), 0);
}
