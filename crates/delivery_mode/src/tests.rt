use super::*;

#[test]
fn each_guarantee_has_its_rules(rt: HostRuntime) {
    let rows = [
        (Guarantee::Exact, false, true),
        (Guarantee::AtLeast, true, true),
        (Guarantee::AtMost, true, false),
    ];
    for (guarantee, keeps, asks) in rows {
        assert_eq!(rt; guarantee.keeps_lost(), keeps);
        assert_eq!(rt; guarantee.asks_again(), asks);
    }
}
