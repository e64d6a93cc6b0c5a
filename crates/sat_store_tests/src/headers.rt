//! Tests of the headers of clauses, and of tiers.
use sat_store::{ClauseHeader, Tier};

const TIERS: [Tier; 4] = [Tier::Irred, Tier::Core, Tier::Mid, Tier::Local];

fn fields(header: &ClauseHeader) -> (usize, bool, bool, bool, bool, usize, u32) {
    (
        header.len(),
        header.deleted(),
        header.redundant(),
        header.mark(),
        header.active(),
        header.glue(),
        header.activity(),
    )
}

#[test]
fn new_header_is_empty(rt: HostRuntime) {
    let header = ClauseHeader::new();
    assert!(rt; fields(&header) == (0, false, false, false, false, 0, 0));
    assert!(rt; header.tier() == Tier::Irred);
    assert!(rt; fields(&ClauseHeader::default()) == fields(&header));
}

#[test]
fn each_field_is_read_back(rt: HostRuntime) {
    let mut header = ClauseHeader::new();
    header.set_len(7);
    header.set_activity(4294967295);
    header.set_glue(64);
    header.set_tier(Tier::Mid);
    assert!(rt; fields(&header) == (7, false, true, false, false, 63, 4294967295));
    header.set_deleted(true);
    header.set_mark(true);
    header.set_active(true);
    header.set_glue(5);
    assert!(rt; fields(&header) == (7, true, true, true, true, 5, 4294967295));
    header.set_deleted(false);
    header.set_tier(Tier::Irred);
    assert!(rt; fields(&header) == (7, false, false, true, true, 5, 4294967295));
}

#[test]
fn tiers_go_by_number(rt: HostRuntime) {
    assert!(rt; Tier::count() == 4);
    assert!(rt; Tier::from_index(4).is_none());
    for tier in &TIERS {
        assert!(rt; Tier::from_index(tier.index()) == Some(*tier));
    }
}
