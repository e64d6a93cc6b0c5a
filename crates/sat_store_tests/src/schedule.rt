//! Tests of restarts, and of levels.
use sat_store::{LevelAbstraction, LubySequence};

/// The first terms, from the published list of the sequence.
const TERMS: [u64; 15] = [1, 1, 2, 1, 1, 2, 4, 1, 1, 2, 1, 1, 2, 4, 8];

#[test]
fn first_terms(rt: HostRuntime) {
    let mut sequence = LubySequence::default();
    for term in &TERMS {
        assert!(rt; sequence.advance() == *term);
    }
}

#[test]
fn levels_pass_by_remainder(rt: HostRuntime) {
    let mut levels = LevelAbstraction::default();
    assert!(rt; !levels.test(0));
    levels.add(3);
    levels.add(127);
    assert!(rt;
        (
            levels.test(3),
            levels.test(67),
            levels.test(63),
            levels.test(4)
        ) == (true, true, true, false)
    );
}
