//! Examples of decisions and of the branches of a search.
use crate::decision::Decision;
use crate::decisions::Decisions;

#[test]
fn depot_keeps_its_other_arcs(rt: HostRuntime) {
    let mut decision = Decision::forbid(0, 3);
    assert!(rt; decision.removes(0, 3));
    decision.turn();
    assert!(rt; !decision.removes(0, 3));
    assert!(rt; !decision.removes(0, 2));
    assert!(rt; decision.removes(2, 3));
}

#[test]
fn backs_up_past_second_sides(rt: HostRuntime) {
    let mut decisions = Decisions::new();
    assert!(rt; decisions.push(Decision::forbid(1, 2)).is_ok());
    assert!(rt; decisions.push(Decision::forbid(2, 3)).is_ok());
    decisions.turn_last();
    assert!(rt; decisions.back_up());
    assert_eq!(rt; decisions.len(), 1);
    assert!(rt; decisions.removes(1, 3));
    assert!(rt; !decisions.back_up());
    assert_eq!(rt; decisions.len(), 0);
}

#[test]
fn keeps_sixty_four(rt: HostRuntime) {
    let mut decisions = Decisions::new();
    for customer in 1..65 {
        assert!(rt; decisions.push(Decision::forbid(0, customer)).is_ok());
    }
    assert!(rt; decisions.is_full());
    assert!(rt; decisions.push(Decision::forbid(1, 2)).is_err());
    assert_eq!(rt; decisions.len(), 64);
}
