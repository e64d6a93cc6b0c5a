//! Activities of clauses, which are integers and are rescaled before they grow too large.
ghost use Rattle.std.specs.Prelude.{◌≡◌, ◌+◌, ◌*◌, ◌/◌, ◌^◌, ◌<◌, ◌≤◌};
ghost use Rattle.std.specs.List.{Contains};
ghost use Rattle.sat_store.specs.clause.Buffer.{header_at};
ghost use Rattle.sat_parts.specs.clause.Db.{DbMatchesBuffer, PutsHeader, live_refs};
ghost use Rattle.sat_parts.specs.clause.Activity.{PutsHeaders, BumpsIfBelowLimit, RescalesIfLimitReached};
ghost use Rattle.sat_parts.specs.clause.Activity.{DecaysAndRescales, decayed_scale};
ghost use Rattle.sat_parts.specs.clause.Activity.{initial_scale, decayed_bump, with_activity, rescaled_header};

use crate::clause::db::{ClauseDb, put_header};
use sat_store::{ClauseAlloc, ClauseRef};
use std::marker::Model;

/// Activities and the bump are rescaled when one of them reaches this limit.
const LIMIT: u64 = 1 << 30;

/// The scale of activities: how much a bump adds, and the decay factor in thousandths. Contracts see a `ActivityScale`.
#[derive(Drop)]
pub struct ClauseActivity {
    bump: u64,
    decay: u64,
}

impl Model for ClauseActivity {
    ghost use Rattle.std.specs.Prelude.{◌<◌, ◌≤◌, ◌^◌};
    ghost use Rattle.sat_parts.specs.clause.Activity.{ActivityScale};

    ghost Value = { ActivityScale };

    ghost view = { λ a. record { bump = a.bump; decay = a.decay } };

    ghost invariant = { λ a. (0 < a.bump) × (a.bump < 2 ^ 30) × (500 ≤ a.decay) × (a.decay ≤ 999) };
}

impl Default for ClauseActivity {
    ghost use Rattle.std.specs.Prelude.{◌≡◌};
    ghost use Rattle.sat_parts.specs.clause.Activity.{initial_scale};

    ghost is_default = { λ a. a ≡ initial_scale };

    /// Returns a scale with a bump of 1024 and a decay factor of 999 thousandths.
    fn default() -> ClauseActivity {
        ClauseActivity {
            bump: 1024,
            decay: 999,
        }
    }
}

impl ClauseActivity {
    /// Sets the decay factor, in thousandths.
    pub fn set_decay(&mut self, decay: u32)
        requires low { 500 ≤ decay }
        requires high { decay ≤ 999 }
        ensures { self.new ≡ record self.old { decay = decay } }
    {
        self.decay = u64::from(decay);
    }

    /// Returns how much the next bump adds, which is never 0.
    pub fn bump(&self) -> u64
        ensures value { result ≡ self.now.bump }
        ensures some { 0 < result }
    {
        self.bump
    }
}

/// Rescales the activities of all clauses.
fn rescale_clause_activities(clauses: &mut ClauseAlloc, db: &ClauseDb)
    requires { DbMatchesBuffer clauses.old db.now }
    ensures headers { PutsHeaders clauses.old clauses.new db.now.refs (rescaled_header clauses.old) }
    ensures db { DbMatchesBuffer clauses.new db.now }
    ensures live { live_refs clauses.new db.now.refs ≡ live_refs clauses.old db.now.refs }
{
    for at in 0..db.len() {
        let cref = db.cref(at);
        let mut header = clauses.header(cref);
        header.set_activity(header.activity() / 65536);
        put_header(clauses, cref, header);
    }
}

/// Sets the activity of a clause.
fn put_activity(clauses: &mut ClauseAlloc, _db: &ClauseDb, cref: ClauseRef, activity: u32)
    requires db { DbMatchesBuffer clauses.old _db.now }
    requires there { Contains _db.now.refs cref }
    ensures put { PutsHeader clauses.old clauses.new _db.now.refs cref
        (with_activity (header_at clauses.old cref) activity) }
    ensures db { DbMatchesBuffer clauses.new _db.now }
    ensures live { live_refs clauses.new _db.now.refs ≡ live_refs clauses.old _db.now.refs }
{
    clauses.set_activity(cref, activity);
}

/// Raises the activity of a clause. If the activity reaches 2^30, all activities and the bump are rescaled.
pub fn bump_clause_activity(
    activity: &mut ClauseActivity,
    clauses: &mut ClauseAlloc,
    db: &ClauseDb,
    cref: ClauseRef,
)
    requires db { DbMatchesBuffer clauses.old db.now }
    requires there { Contains db.now.refs cref }
    ensures raised { BumpsIfBelowLimit clauses.old clauses.new db.now.refs cref activity.old activity.new }
    ensures rescaled { RescalesIfLimitReached clauses.old clauses.new db.now.refs cref activity.old activity.new }
    ensures db { DbMatchesBuffer clauses.new db.now }
    ensures live { live_refs clauses.new db.now.refs ≡ live_refs clauses.old db.now.refs }
{
    let sum = u64::from(clauses.header(cref).activity()) + activity.bump;
    let held = sum.min(4294967295) as u32;
    put_activity(clauses, db, cref, held);
    if u64::from(held) >= LIMIT {
        rescale_clause_activities(clauses, db);
        activity.bump = (activity.bump / 65536).max(1);
    }
}

/// Lets all activities decay, by making later bumps add more. If the bump reaches 2^30, the bump and all activities
/// are rescaled.
pub fn decay_clause_activities(
    activity: &mut ClauseActivity,
    clauses: &mut ClauseAlloc,
    db: &ClauseDb,
)
    requires db { DbMatchesBuffer clauses.old db.now }
    ensures later { decayed_bump activity.old < 2 ^ 30
        → (activity.new ≡ decayed_scale activity.old) × (clauses.new ≡ clauses.old) }
    ensures rescaled { 2 ^ 30 ≤ decayed_bump activity.old
        → DecaysAndRescales clauses.old clauses.new db.now.refs activity.old activity.new }
    ensures db { DbMatchesBuffer clauses.new db.now }
    ensures live { live_refs clauses.new db.now.refs ≡ live_refs clauses.old db.now.refs }
{
    let later = (activity.bump * 1000 + activity.decay - 1) / activity.decay;
    if later >= LIMIT {
        rescale_clause_activities(clauses, db);
        activity.bump = (later / 65536).max(1);
        return;
    }
    activity.bump = later;
}
