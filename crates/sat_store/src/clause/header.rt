//! The header of a long clause: all of its data except for the literals.
ghost use Rattle.std.specs.Prelude.{◌≡◌, ◌<◌, ◌^◌, min};
ghost use Rattle.sat_store.specs.clause.Header.{header_of, no_header, is_learned};

use crate::clause::tier::Tier;
use std::marker::Model;

/// The activity, tier, flags, glue and length of a clause, packed into three words. Contracts see a `Header` with
/// these fields.
#[derive(Clone, Copy)]
pub struct ClauseHeader {
    activity: u32,
    /// From the lowest bit: two bits for the tier, one for `deleted`, one for `mark`, six for the glue, and one
    /// for `active`.
    flags: u32,
    len: u32,
}

impl Model for ClauseHeader {
    ghost use Rattle.std.specs.Prelude.{◌<◌, ◌^◌};
    ghost use Rattle.sat_store.specs.clause.Header.{Header, header_of, flags_of};
    ghost use Rattle.sat_store.specs.clause.HeaderBack.{inverse_flags};

    ghost Value = { Header };

    ghost view = { λ h. header_of h.activity h.flags h.len };

    ghost invariant = { λ h. h.flags < 2 ^ 11 };

    ghost inverse = { λ h. record { activity = h.activity; flags = flags_of h; len = h.len } };

    ghost inverse_ok = { inverse_flags };
}

impl Default for ClauseHeader {
    ghost use Rattle.std.specs.Prelude.{◌≡◌};
    ghost use Rattle.sat_store.specs.clause.Header.{no_header};

    ghost is_default = { λ h. h ≡ no_header };

    /// Returns the same header as `new`.
    fn default() -> ClauseHeader {
        ClauseHeader {
            activity: 0,
            flags: 0,
            len: 0,
        }
    }
}

impl ClauseHeader {
    /// Returns the header of an irredundant clause without literals. All flags are false, and glue and activity are 0.
    pub fn new() -> ClauseHeader
        ensures { result ≡ no_header }
    {
        ClauseHeader::default()
    }

    /// Returns the header that is packed into these words.
    #[inline(always)] // read for each clause that an inner loop looks at
    pub(crate) fn from_words(activity: u32, flags: u32, len: u32) -> ClauseHeader
        requires { flags < 2 ^ 11 }
        ensures value { result ≡ header_of activity flags len }
        ensures bound { result.len < 2 ^ 32 }
    {
        ClauseHeader {
            activity,
            flags,
            len,
        }
    }

    /// Returns the word that holds the tier, the flags and the glue.
    pub(crate) fn flags(&self) -> u32
        ensures value { header_of self.now.activity result self.now.len ≡ self.now }
        ensures bound { result < 2 ^ 11 }
    {
        self.flags
    }

    /// Returns the number of literals of the clause.
    pub fn len(&self) -> usize
        ensures value { result ≡ self.now.len }
        ensures bound { result < 2 ^ 32 }
    {
        self.len as usize
    }

    /// Sets the number of literals of the clause.
    pub fn set_len(&mut self, len: usize)
        requires { len < 2 ^ 32 }
        ensures { self.new ≡ record self.old { len = len } }
    {
        self.len = len as u32;
    }

    /// Returns `true` if the clause was deleted. A deleted clause stays in the buffer until garbage is collected.
    pub fn deleted(&self) -> bool
        ensures { result ≡ self.now.deleted }
    {
        self.flags / 4 % 2 == 1
    }

    /// Sets whether the clause was deleted.
    pub fn set_deleted(&mut self, deleted: bool)
        ensures { self.new ≡ record self.old { deleted = deleted } }
    {
        self.flags = self.flags / 8 * 8 + u32::from(deleted) * 4 + self.flags % 4;
    }

    /// Returns the tier of the clause.
    pub fn tier(&self) -> Tier
        ensures { result ≡ self.now.tier }
    {
        match self.flags % 4 {
            0 => Tier::Irred,
            1 => Tier::Core,
            2 => Tier::Mid,
            _ => Tier::Local,
        }
    }

    /// Sets the tier of the clause.
    pub fn set_tier(&mut self, tier: Tier)
        ensures { self.new ≡ record self.old { tier = tier } }
    {
        self.flags = self.flags / 4 * 4 + tier.index() as u32;
    }

    /// Returns `true` if the clause is learned: its tier is not `Irred`.
    pub fn redundant(&self) -> bool
        ensures { result ≡ is_learned self.now.tier }
    {
        self.flags % 4 != 0
    }

    /// Returns `true` if the clause is marked. The mark is for use in passes over all clauses.
    pub fn mark(&self) -> bool
        ensures { result ≡ self.now.mark }
    {
        self.flags / 8 % 2 == 1
    }

    /// Marks the clause, or clears its mark.
    pub fn set_mark(&mut self, mark: bool)
        ensures { self.new ≡ record self.old { mark = mark } }
    {
        self.flags = self.flags / 16 * 16 + u32::from(mark) * 8 + self.flags % 8;
    }

    /// Returns `true` if the clause has been used since this flag was last cleared.
    pub fn active(&self) -> bool
        ensures { result ≡ self.now.active }
    {
        self.flags / 1024 % 2 == 1
    }

    /// Sets whether the clause counts as used.
    pub fn set_active(&mut self, active: bool)
        ensures { self.new ≡ record self.old { active = active } }
    {
        self.flags = u32::from(active) * 1024 + self.flags % 1024;
    }

    /// Returns the glue, which is at most 63. In a solver, the glue of a new learned clause is one less than the number
    /// of distinct levels of its literals. When the clause is used again, its glue becomes the number of distinct
    /// levels at that time, if that is lower.
    pub fn glue(&self) -> usize
        ensures { result ≡ self.now.glue }
    {
        (self.flags / 16 % 64) as usize
    }

    /// Sets the glue to `glue`, or to 63 if `glue` is larger.
    pub fn set_glue(&mut self, glue: usize)
        ensures { self.new ≡ record self.old { glue = min glue 63 } }
    {
        let kept = glue.min(63) as u32;
        self.flags = self.flags / 1024 * 1024 + kept * 16 + self.flags % 16;
    }

    /// Returns the activity, which measures how much the clause has been used, on the scale of the current bump.
    pub fn activity(&self) -> u32
        ensures { result ≡ self.now.activity }
    {
        self.activity
    }

    /// Sets the activity.
    pub fn set_activity(&mut self, activity: u32)
        ensures { self.new ≡ record self.old { activity = activity } }
    {
        self.activity = activity;
    }
}
