//! The tiers of clauses.
ghost use Rattle.std.specs.Prelude.{◌≡◌, ◌≤◌, MatchOption};
ghost use Rattle.sat_store.specs.clause.Header.{tier_index};

/// The tier of a clause, which determines how long the clause is kept.
#[derive(Clone, Copy, Debug, PartialEq, Eq)]
pub enum Tier {
    /// An irredundant clause, which is not removed by reductions.
    Irred = 0,
    /// A learned clause with a low glue, which is not removed by reductions.
    Core = 1,
    /// A learned clause that becomes `Local` if it is not used for a while.
    Mid = 2,
    /// A learned clause that a reduction removes if its activity is low.
    Local = 3,
}

impl Tier {
    /// Returns the number of tiers.
    pub const fn count() -> usize
        ensures { result ≡ 4 }
    {
        4
    }

    /// Returns the tier with this number, or `None` if there is none. Tiers are numbered from 0.
    pub fn from_index(index: usize) -> Option<Tier>
        ensures { MatchOption result (4 ≤ index) (λ tier. tier_index tier ≡ index) }
    {
        match index {
            0 => Some(Tier::Irred),
            1 => Some(Tier::Core),
            2 => Some(Tier::Mid),
            3 => Some(Tier::Local),
            _ => None,
        }
    }

    /// Returns the number of the tier. Tiers are numbered from 0.
    pub fn index(self) -> usize
        ensures { result ≡ tier_index self }
    {
        match self {
            Tier::Irred => 0,
            Tier::Core => 1,
            Tier::Mid => 2,
            Tier::Local => 3,
        }
    }
}
