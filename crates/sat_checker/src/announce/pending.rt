//! Announcements that are held until their step is accepted.
ghost use Rattle.std.specs.Prelude.{true, ◌≡◌, ◌<◌, ◌++◌, ◌∷◌, [], length, slice_index_or, take, OnOk, OnErr};
ghost use Rattle.std.specs.Option.{option_map};
ghost use Rattle.sat_checker.specs.announcements.Announcements as announcements;
ghost use Rattle.sat_checker.specs.announcements.Announcements.{Announcement};
ghost use Rattle.sat_checker.specs.listeners.AnnouncementView.{announcement_of, announced_user};
ghost use Rattle.sat_checker.specs.listeners.PendingView.{announcement_with};

use crate::announce::announcement::{CheckedProofStep, CheckedUserVar};
use sat_base::{FlatLists, Lit, Var};
use std::alloc::{AllocError, Global};
use std::marker::Model;

/// An announcement without its lists of literals and propagations.
#[derive(Clone, Copy)]
enum AnnouncementKind {
    UserVar(Var, Option<CheckedUserVar>),
    DeleteVar(Var),
    AddClause(u64),
    DuplicatedClause(u64, u64),
    TautologicalClause(u64),
    AtClause(u64, bool),
    MakeIrredundant(u64),
    DeleteClause(u64),
    DeleteAtClause(u64, bool),
    Model,
    Assumptions,
    FailedAssumptions,
}

impl AnnouncementKind {
    /// Returns the announcement with the literals `literals` and the propagations `ids`.
    fn lend<'a>(self, literals: &'a [Lit], ids: &'a [u64]) -> CheckedProofStep<'a>
        ensures { announcement_of result ≡ announcement_with self literals.now ids.now }
    {
        match self {
            AnnouncementKind::UserVar(var, user_var) => CheckedProofStep::UserVar { var, user_var },
            AnnouncementKind::DeleteVar(var) => CheckedProofStep::DeleteVar { var },
            AnnouncementKind::AddClause(id) => CheckedProofStep::AddClause {
                id,
                clause: literals,
            },
            AnnouncementKind::DuplicatedClause(id, same_as_id) =>
                CheckedProofStep::DuplicatedClause {
                    id,
                    same_as_id,
                    clause: literals,
                },
            AnnouncementKind::TautologicalClause(id) => CheckedProofStep::TautologicalClause {
                id,
                clause: literals,
            },
            AnnouncementKind::AtClause(id, redundant) => CheckedProofStep::AtClause {
                id,
                redundant,
                clause: literals,
                propagations: ids,
            },
            AnnouncementKind::MakeIrredundant(id) => CheckedProofStep::MakeIrredundant {
                id,
                clause: literals,
            },
            AnnouncementKind::DeleteClause(id) => CheckedProofStep::DeleteClause {
                id,
                clause: literals,
            },
            AnnouncementKind::DeleteAtClause(id, keep_as_redundant) =>
                CheckedProofStep::DeleteAtClause {
                    id,
                    keep_as_redundant,
                    clause: literals,
                    propagations: ids,
                },
            AnnouncementKind::Model => CheckedProofStep::Model {
                assignment: literals,
            },
            AnnouncementKind::Assumptions => CheckedProofStep::Assumptions {
                assumptions: literals,
            },
            AnnouncementKind::FailedAssumptions => CheckedProofStep::FailedAssumptions {
                failed_core: literals,
                propagations: ids,
            },
        }
    }
}

/// An announcement, with the indices of its literals and its propagations in the lists of `PendingAnnouncements`.
#[derive(Clone, Copy)]
struct Item {
    kind: AnnouncementKind,
    literals: usize,
    ids: usize,
}

/// Announcements in order, with copies of their literals and propagations. In contracts, the value is the list
/// of announcements.
#[derive(Drop)]
pub(crate) struct PendingAnnouncements {
    items: Vec<Item>,
    literals: FlatLists<Lit>,
    ids: FlatLists<u64>,
}

impl Model for PendingAnnouncements {
    ghost use Rattle.std.specs.Prelude.{List, map};
    ghost use Rattle.std.specs.List.{All};
    ghost use Rattle.sat_checker.specs.announcements.Announcements.{Announcement};
    ghost use Rattle.sat_checker.specs.listeners.PendingView.{announcement_at, IsItem};

    ghost Value = { List Announcement };

    ghost view = { λ s. map (announcement_at s.literals s.ids) s.items.items };

    ghost invariant = { λ s. All (IsItem s.literals s.ids) s.items.items };
}

impl PendingAnnouncements {
    /// Creates an empty list of announcements. Never allocates.
    pub fn new(alloc: Global) -> PendingAnnouncements
        ensures { result ≡ [] }
    {
        PendingAnnouncements {
            items: Vec::new(alloc),
            literals: FlatLists::new(alloc),
            ids: FlatLists::new(alloc),
        }
    }

    /// Removes all announcements, but keeps the allocated memory.
    pub fn clear(&mut self)
        ensures { self.new ≡ [] }
    {
        self.items.clear();
        self.literals.clear();
        self.ids.clear();
    }

    /// Returns the number of announcements.
    pub fn len(&self) -> usize
        ensures { result ≡ length self.now }
    {
        self.items.len()
    }

    /// Returns `true` if there are no announcements.
    pub fn is_empty(&self) -> bool
        ensures { result ≡ true → self.now ≡ [] }
    {
        self.items.is_empty()
    }

    /// Removes all announcements after the first `len`.
    pub fn truncate(&mut self, len: usize)
        ensures { self.new ≡ take len self.old }
    {
        self.items.truncate(len);
    }

    /// Returns the announcement at `index`, which must be below the number of announcements.
    pub fn get(&self, index: usize) -> CheckedProofStep<'_>
        requires { index < length self.now }
        ensures { (d : Announcement) → announcement_of result ≡ slice_index_or self.now index d }
    {
        let item = self.items[index];
        item.kind
            .lend(self.literals.get(item.literals), self.ids.get(item.ids))
    }

    /// Adds an announcement of the kind `kind`, with copies of `literals` and `ids`.
    #[inline(never)]
    fn push(
        &mut self,
        kind: AnnouncementKind,
        literals: &[Lit],
        ids: &[u64],
    ) -> Result<(), AllocError>
        ensures ok { OnOk result (self.new ≡ self.old ++ announcement_with kind literals.now ids.now ∷ []) }
        ensures err { OnErr result (self.new ≡ self.old) }
    {
        let item = Item {
            kind,
            literals: self.literals.len(),
            ids: self.ids.len(),
        };
        self.literals.push(literals)?;
        self.ids.push(ids)?;
        self.items.push(item)?;
        Ok(())
    }

    /// Adds a `UserVar` announcement.
    pub fn user_var(&mut self, var: Var, user: Option<CheckedUserVar>) -> Result<(), AllocError>
        ensures ok { OnOk result (self.new ≡ self.old ++ announcements.UserVar var (option_map announced_user user) ∷ []) }
        ensures err { OnErr result (self.new ≡ self.old) }
    {
        self.push(AnnouncementKind::UserVar(var, user), &[], &[])
    }

    /// Adds a `DeleteVar` announcement.
    pub fn delete_var(&mut self, var: Var) -> Result<(), AllocError>
        ensures ok { OnOk result (self.new ≡ self.old ++ announcements.DeleteVar var ∷ []) }
        ensures err { OnErr result (self.new ≡ self.old) }
    {
        self.push(AnnouncementKind::DeleteVar(var), &[], &[])
    }

    /// Adds an `AddClause` announcement.
    pub fn add_clause(&mut self, id: u64, clause: &[Lit]) -> Result<(), AllocError>
        ensures ok { OnOk result (self.new ≡ self.old ++ announcements.AddClause id clause.now ∷ []) }
        ensures err { OnErr result (self.new ≡ self.old) }
    {
        self.push(AnnouncementKind::AddClause(id), clause, &[])
    }

    /// Adds a `DuplicatedClause` announcement.
    pub fn duplicated_clause(
        &mut self,
        id: u64,
        same_as: u64,
        clause: &[Lit],
    ) -> Result<(), AllocError>
        ensures ok { OnOk result (self.new ≡ self.old ++ announcements.DuplicatedClause id same_as clause.now ∷ []) }
        ensures err { OnErr result (self.new ≡ self.old) }
    {
        self.push(AnnouncementKind::DuplicatedClause(id, same_as), clause, &[])
    }

    /// Adds a `TautologicalClause` announcement.
    pub fn tautological_clause(&mut self, id: u64, clause: &[Lit]) -> Result<(), AllocError>
        ensures ok { OnOk result (self.new ≡ self.old ++ announcements.TautologicalClause id clause.now ∷ []) }
        ensures err { OnErr result (self.new ≡ self.old) }
    {
        self.push(AnnouncementKind::TautologicalClause(id), clause, &[])
    }

    /// Adds an `AtClause` announcement.
    pub fn at_clause(
        &mut self,
        id: u64,
        redundant: bool,
        clause: &[Lit],
        propagations: &[u64],
    ) -> Result<(), AllocError>
        ensures ok { OnOk result (self.new ≡ self.old ++ announcements.AtClause id redundant clause.now propagations.now ∷ []) }
        ensures err { OnErr result (self.new ≡ self.old) }
    {
        self.push(
            AnnouncementKind::AtClause(id, redundant),
            clause,
            propagations,
        )
    }

    /// Adds a `MakeIrredundant` announcement.
    pub fn make_irredundant(&mut self, id: u64, clause: &[Lit]) -> Result<(), AllocError>
        ensures ok { OnOk result (self.new ≡ self.old ++ announcements.MakeIrredundant id clause.now ∷ []) }
        ensures err { OnErr result (self.new ≡ self.old) }
    {
        self.push(AnnouncementKind::MakeIrredundant(id), clause, &[])
    }

    /// Adds a `DeleteClause` announcement.
    pub fn delete_clause(&mut self, id: u64, clause: &[Lit]) -> Result<(), AllocError>
        ensures ok { OnOk result (self.new ≡ self.old ++ announcements.DeleteClause id clause.now ∷ []) }
        ensures err { OnErr result (self.new ≡ self.old) }
    {
        self.push(AnnouncementKind::DeleteClause(id), clause, &[])
    }

    /// Adds a `DeleteAtClause` announcement.
    pub fn delete_at_clause(
        &mut self,
        id: u64,
        keep_as_redundant: bool,
        clause: &[Lit],
        propagations: &[u64],
    ) -> Result<(), AllocError>
        ensures ok { OnOk result
            (self.new ≡ self.old ++ announcements.DeleteAtClause id keep_as_redundant clause.now propagations.now ∷ []) }
        ensures err { OnErr result (self.new ≡ self.old) }
    {
        self.push(
            AnnouncementKind::DeleteAtClause(id, keep_as_redundant),
            clause,
            propagations,
        )
    }

    /// Adds a `Model` announcement.
    pub fn model(&mut self, assignment: &[Lit]) -> Result<(), AllocError>
        ensures ok { OnOk result (self.new ≡ self.old ++ announcements.Model assignment.now ∷ []) }
        ensures err { OnErr result (self.new ≡ self.old) }
    {
        self.push(AnnouncementKind::Model, assignment, &[])
    }

    /// Adds an `Assumptions` announcement.
    pub fn assumptions(&mut self, assumptions: &[Lit]) -> Result<(), AllocError>
        ensures ok { OnOk result (self.new ≡ self.old ++ announcements.Assumptions assumptions.now ∷ []) }
        ensures err { OnErr result (self.new ≡ self.old) }
    {
        self.push(AnnouncementKind::Assumptions, assumptions, &[])
    }

    /// Adds a `FailedAssumptions` announcement.
    pub fn failed_assumptions(
        &mut self,
        core: &[Lit],
        propagations: &[u64],
    ) -> Result<(), AllocError>
        ensures ok { OnOk result (self.new ≡ self.old ++ announcements.FailedAssumptions core.now propagations.now ∷ []) }
        ensures err { OnErr result (self.new ≡ self.old) }
    {
        self.push(AnnouncementKind::FailedAssumptions, core, propagations)
    }
}
