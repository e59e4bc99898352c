use super::*;
use delivery_mode::Guarantee;
use grid_base::TopologyId;
use local_publisher::UnitState;

#[test]
fn a_round_waits_for_the_topology_that_was_noted(rt: HostRuntime) {
    let mut rounds = Rounds::new(Guarantee::Exact, 2);
    assert!(rt; rounds.may_ask(TopologyId::new(1)));
    assert!(rt; !rounds.spent());
    rounds.start();
    rounds.note(UnitState::Refused(TopologyId::new(4)));
    rounds.note(UnitState::Lost(Some(TopologyId::new(9))));
    rounds.note(UnitState::Lost(None));
    assert!(rt; !rounds.may_ask(TopologyId::new(8)));
    assert!(rt; rounds.may_ask(TopologyId::new(9)));
    assert!(rt; !rounds.spent());
    rounds.start();
    assert_eq!(rt; rounds.made(), 2);
    assert!(rt; rounds.spent());
    let mut once = Rounds::new(Guarantee::AtMost, 64);
    assert!(rt; !once.spent());
    once.start();
    assert!(rt; once.spent());
}
