//! When restarts are due.
ghost use Rattle.std.specs.Prelude.{◌≡◌, ◌+◌, ◌-◌, ◌^◌, min};
ghost use Rattle.sat_store.specs.schedule.Luby.{luby, wrapped_term_number};
ghost use Rattle.sat_solver.specs.schedule.Gaps.{gap_end};

use sat_store::LubySequence;

/// The schedule of restarts. The numbers of rounds between restarts are the Luby sequence times a scale.
#[derive(Drop)]
pub struct Restarts {
    pub sequence: LubySequence,
    pub scale: u64,
    /// The round before which the next restart is due.
    pub next: u64,
    /// The number of restarts; it saturates at 2^64-1.
    pub count: u64,
}

/// Counts a restart before round `round`, and determines when the next restart is due.
pub fn begin_gap(restarts: &mut Restarts, round: u64)
    ensures given { restarts.new.sequence ≡ wrapped_term_number (restarts.old.sequence + 1) }
    ensures scale { restarts.new.scale ≡ restarts.old.scale }
    ensures next { restarts.new.next ≡ gap_end round (luby (restarts.old.sequence + 1)) restarts.old.scale }
    ensures count { restarts.new.count ≡ min (restarts.old.count + 1) (2 ^ 64 - 1) }
{
    let gap = restarts.sequence.advance().saturating_mul(restarts.scale);
    restarts.next = round.saturating_add(gap);
    restarts.count = restarts.count.saturating_add(1);
}
