//! Listeners that expect a list of announcements, or of steps of a transcript, and return a fault for any other.

use crate::calls::{Answered, answers};
use crate::kinds::NO_MORE;
use anyhow::anyhow;
use sat_base::{Lit, Var};
use sat_checker::variables::Variables;
use sat_checker::{
    CheckedProofStep, CheckedSamplingMode, CheckedUserVar, Checker, CheckerData, Processors,
    ProofProcessor, ProofTranscriptProcessor, ProofTranscriptStep, ResolutionPropagations,
};
use std::alloc::Global;

/// The numbers of at most three literals, padded with zeros.
type Numbers = [i64; 3];

/// At most four ids, padded with `NO`.
type Ids = [u64; 4];

/// No id.
pub(crate) const NO: u64 = u64::MAX;

/// An announcement. Variables, names and literals are DIMACS numbers.
#[derive(Clone, Copy)]
pub(crate) enum Notice {
    /// A variable, its name, whether it is a sampling variable, and whether it was unknown.
    UserVar(i64, i64, bool, bool),
    /// A variable that no longer has a name.
    NoName(i64),
    DeleteVar(i64),
    AddClause(u64, Numbers),
    /// An id, and the earlier id of the same clause.
    DuplicatedClause(u64, u64, Numbers),
    TautologicalClause(u64, Numbers),
    /// An id, whether the clause is redundant, the clause, and its propagations.
    AtClause(u64, bool, Numbers, Ids),
    MakeIrredundant(u64, Numbers),
    DeleteClause(u64, Numbers),
    /// An id, whether the clause remains as redundant, the clause, and its propagations.
    DeleteAtClause(u64, bool, Numbers, Ids),
    Model(Numbers),
    Assumptions(Numbers),
    FailedAssumptions(Numbers, Ids),
}

pub(crate) const SAMPLE: bool = true;

pub(crate) const WITNESS: bool = false;

pub(crate) const NEW: bool = true;

pub(crate) const KNOWN: bool = false;

pub(crate) const REDUNDANT: bool = true;

pub(crate) const IRREDUNDANT: bool = false;

pub(crate) const KEPT: bool = true;

pub(crate) const GONE: bool = false;

/// A step of a transcript, with DIMACS numbers.
#[derive(Clone, Copy)]
pub(crate) enum Said {
    WitnessVar(i64),
    SampleVar(i64),
    HideVar(i64),
    ObserveInternalVar(i64),
    AddClause(Numbers),
    Unsat,
    Model(Numbers),
    Assume(Numbers),
    FailedAssumptions(Numbers),
}

/// Returns the DIMACS number of the literal at position `place`, or 0.
fn number_at(lits: &[Lit], place: usize) -> i64 {
    match lits.get(place) {
        Some(lit) => lit.to_dimacs(),
        None => 0,
    }
}

fn are_numbers(lits: &[Lit], numbers: Numbers) -> bool {
    let found = [number_at(lits, 0), number_at(lits, 1), number_at(lits, 2)];
    lits.len() <= 3 && found == numbers
}

/// Returns the id at position `place`, or `NO`.
fn id_at(ids: &[u64], place: usize) -> u64 {
    match ids.get(place) {
        Some(id) => *id,
        None => NO,
    }
}

fn are_ids(ids: &[u64], wanted: Ids) -> bool {
    let found = [id_at(ids, 0), id_at(ids, 1), id_at(ids, 2), id_at(ids, 3)];
    ids.len() <= 4 && found == wanted
}

fn samples(mode: CheckedSamplingMode) -> bool {
    match mode {
        CheckedSamplingMode::Sample => true,
        CheckedSamplingMode::Witness => false,
    }
}

fn is_named(notice: Notice, var: Var, user: CheckedUserVar) -> bool {
    match notice {
        Notice::UserVar(number, name, sampling, new_var) => {
            var.to_dimacs() == number
                && user.user_var.to_dimacs() == name
                && samples(user.sampling_mode) == sampling
                && user.new_var == new_var
        }
        _ => false,
    }
}

fn is_unnamed(notice: Notice, var: Var) -> bool {
    match notice {
        Notice::NoName(number) => var.to_dimacs() == number,
        _ => false,
    }
}

fn is_user_var(notice: Notice, var: Var, user_var: Option<CheckedUserVar>) -> bool {
    match user_var {
        Some(user) => is_named(notice, var, user),
        None => is_unnamed(notice, var),
    }
}

/// Kinds of announcements.
const NAMED: u8 = 0;

const ADDED: u8 = 1;

const DUPLICATED: u8 = 2;

const TAUTOLOGICAL: u8 = 3;

const DERIVED: u8 = 4;

const MADE_IRREDUNDANT: u8 = 5;

const DELETED: u8 = 6;

const DELETED_BY: u8 = 7;

const MODEL: u8 = 8;

const ASSUMED: u8 = 9;

const FAILED: u8 = 10;

const FORGOTTEN: u8 = 12;

/// Any other announcement: a variable's name, which `is_user_var` compares, or one that no test expects.
const OTHER: u8 = 11;

const NONE: Ids = [NO; 4];

/// The kind of an announcement, its id, another id, a flag, its literals and its propagations.
type Found<'a> = (u8, u64, u64, bool, &'a [Lit], &'a [u64]);

/// The corresponding parts of an expected announcement.
type Awaited = (u8, u64, u64, bool, Numbers, Ids);

fn parts_of<'a>(step: &CheckedProofStep<'a>) -> Found<'a> {
    match *step {
        CheckedProofStep::DeleteVar { var } => (
            FORGOTTEN,
            var.index() as u64 + 1,
            0,
            false,
            &[],
            &[],
        ),
        CheckedProofStep::AddClause { id, clause } => (ADDED, id, 0, false, clause, &[]),
        CheckedProofStep::DuplicatedClause {
            id,
            same_as_id,
            clause,
        } => (DUPLICATED, id, same_as_id, false, clause, &[]),
        CheckedProofStep::TautologicalClause { id, clause } => {
            (TAUTOLOGICAL, id, 0, false, clause, &[])
        }
        CheckedProofStep::AtClause {
            id,
            redundant,
            clause,
            propagations,
        } => (DERIVED, id, 0, redundant, clause, propagations),
        CheckedProofStep::MakeIrredundant { id, clause } => {
            (MADE_IRREDUNDANT, id, 0, false, clause, &[])
        }
        CheckedProofStep::DeleteClause { id, clause } => (DELETED, id, 0, false, clause, &[]),
        CheckedProofStep::DeleteAtClause {
            id,
            keep_as_redundant,
            clause,
            propagations,
        } => (DELETED_BY, id, 0, keep_as_redundant, clause, propagations),
        CheckedProofStep::Model { assignment } => (MODEL, 0, 0, false, assignment, &[]),
        CheckedProofStep::Assumptions { assumptions } => (ASSUMED, 0, 0, false, assumptions, &[]),
        CheckedProofStep::FailedAssumptions {
            failed_core,
            propagations,
        } => (FAILED, 0, 0, false, failed_core, propagations),
        CheckedProofStep::UserVar { .. } | CheckedProofStep::DeleteRatClause { .. } => {
            (OTHER, 0, 0, false, &[], &[])
        }
    }
}

fn awaited_parts(notice: Notice) -> Awaited {
    match notice {
        Notice::UserVar(..) | Notice::NoName(_) => (NAMED, 0, 0, false, [0; 3], NONE),
        Notice::DeleteVar(var) => (FORGOTTEN, var.unsigned_abs(), 0, false, [0; 3], NONE),
        Notice::AddClause(id, clause) => (ADDED, id, 0, false, clause, NONE),
        Notice::DuplicatedClause(id, same, clause) => (DUPLICATED, id, same, false, clause, NONE),
        Notice::TautologicalClause(id, clause) => (TAUTOLOGICAL, id, 0, false, clause, NONE),
        Notice::AtClause(id, redundant, clause, ids) => (DERIVED, id, 0, redundant, clause, ids),
        Notice::MakeIrredundant(id, clause) => (MADE_IRREDUNDANT, id, 0, false, clause, NONE),
        Notice::DeleteClause(id, clause) => (DELETED, id, 0, false, clause, NONE),
        Notice::DeleteAtClause(id, kept, clause, ids) => (DELETED_BY, id, 0, kept, clause, ids),
        Notice::Model(assignment) => (MODEL, 0, 0, false, assignment, NONE),
        Notice::Assumptions(assumptions) => (ASSUMED, 0, 0, false, assumptions, NONE),
        Notice::FailedAssumptions(core, ids) => (FAILED, 0, 0, false, core, ids),
    }
}

fn are_same(found: Found<'_>, awaited: Awaited) -> bool {
    let (what, id, same, flag, lits, ids) = found;
    let (wanted, wanted_id, wanted_same, wanted_flag, numbers, wanted_ids) = awaited;
    (what, id, same, flag) == (wanted, wanted_id, wanted_same, wanted_flag)
        && are_numbers(lits, numbers)
        && are_ids(ids, wanted_ids)
}

/// Returns `true` if the announcement `step` is the expected one, `notice`.
fn is_reported(step: &CheckedProofStep<'_>, notice: Notice) -> bool {
    match *step {
        CheckedProofStep::UserVar { var, user_var } => is_user_var(notice, var, user_var),
        _ => are_same(parts_of(step), awaited_parts(notice)),
    }
}

/// Returns the kind of a transcript's step, as its position in the list below, its variable and its literals.
fn said_parts<'a>(step: &ProofTranscriptStep<'a>) -> (u8, i64, &'a [Lit]) {
    match *step {
        ProofTranscriptStep::WitnessVar { var } => (0, var.to_dimacs(), &[]),
        ProofTranscriptStep::SampleVar { var } => (1, var.to_dimacs(), &[]),
        ProofTranscriptStep::HideVar { var } => (2, var.to_dimacs(), &[]),
        ProofTranscriptStep::ObserveInternalVar { var } => (3, var.to_dimacs(), &[]),
        ProofTranscriptStep::AddClause { clause } => (4, 0, clause),
        ProofTranscriptStep::Unsat => (5, 0, &[]),
        ProofTranscriptStep::Model { assignment } => (6, 0, assignment),
        ProofTranscriptStep::Assume { assumptions } => (7, 0, assumptions),
        ProofTranscriptStep::FailedAssumptions { failed_core } => (8, 0, failed_core),
    }
}

/// Returns the corresponding parts of an expected step.
fn awaited_said(said: Said) -> (u8, i64, Numbers) {
    match said {
        Said::WitnessVar(number) => (0, number, [0; 3]),
        Said::SampleVar(number) => (1, number, [0; 3]),
        Said::HideVar(number) => (2, number, [0; 3]),
        Said::ObserveInternalVar(number) => (3, number, [0; 3]),
        Said::AddClause(clause) => (4, 0, clause),
        Said::Unsat => (5, 0, [0; 3]),
        Said::Model(assignment) => (6, 0, assignment),
        Said::Assume(assumptions) => (7, 0, assumptions),
        Said::FailedAssumptions(core) => (8, 0, core),
    }
}

/// Returns `true` if the step of a transcript is the expected one, `said`.
fn is_said(step: &ProofTranscriptStep<'_>, said: Said) -> bool {
    let (what, number, lits) = said_parts(step);
    let (wanted, wanted_number, numbers) = awaited_said(said);
    what == wanted && number == wanted_number && are_numbers(lits, numbers)
}

const ANOTHER: &str = "another one is awaited";

/// A processor that expects the announcements `awaited`.
#[derive(Drop)]
pub(crate) struct Listener {
    awaited: &'static [Notice],
}

impl Listener {
    pub(crate) fn new(awaited: &'static [Notice]) -> Listener {
        Listener { awaited }
    }

    pub(crate) fn is_done(&self) -> bool {
        self.awaited.is_empty()
    }

    /// Accepts the next expected announcement. Returns a fault for any other announcement.
    fn fault(&mut self, step: &CheckedProofStep<'_>) -> Option<&'static str> {
        let Some((first, rest)) = self.awaited.split_first() else {
            return Some(NO_MORE);
        };
        if !is_reported(step, *first) {
            return Some(ANOTHER);
        }
        self.awaited = rest;
        None
    }
}

impl ProofProcessor for Listener {
    ghost use Rattle.std.specs.Prelude.{⊤};

    ghost takes = { λ _ _ _ _. ⊤ };

    fn process_step(
        &mut self,
        step: &CheckedProofStep<'_>,
        _names: CheckerData<'_>,
    ) -> anyhow::Result<()> {
        match self.fault(step) {
            None => Ok(()),
            Some(fault) => Err(anyhow!(fault)),
        }
    }
}

/// A transcript that expects the steps `awaited`.
#[derive(Drop)]
pub(crate) struct Reader {
    awaited: &'static [Said],
}

impl Reader {
    pub(crate) fn new(awaited: &'static [Said]) -> Reader {
        Reader { awaited }
    }

    fn is_done(&self) -> bool {
        self.awaited.is_empty()
    }

    /// Accepts the next expected step. Returns a fault for any other step.
    fn fault(&mut self, step: &ProofTranscriptStep<'_>) -> Option<&'static str> {
        let Some((first, rest)) = self.awaited.split_first() else {
            return Some(NO_MORE);
        };
        if !is_said(step, *first) {
            return Some(ANOTHER);
        }
        self.awaited = rest;
        None
    }
}

impl ProofTranscriptProcessor for Reader {
    ghost use Rattle.std.specs.Prelude.{⊤};

    ghost reads = { λ _ _ _ _. ⊤ };

    fn process_step(&mut self, step: &ProofTranscriptStep<'_>) -> anyhow::Result<()> {
        match self.fault(step) {
            None => Ok(()),
            Some(fault) => Err(anyhow!(fault)),
        }
    }
}

/// A checker whose processors and transcripts have expectations.
pub(crate) type Heard = Checker<Listener, Reader>;

/// Adds a processor that expects the announcements `awaited`. Returns `false` if memory runs out.
pub(crate) fn add_listener(checker: &mut Heard, awaited: &'static [Notice]) -> bool {
    checker.add_processor(Listener::new(awaited)).is_ok()
}

/// Adds a transcript that expects the steps `awaited`. Returns `false` if memory runs out.
pub(crate) fn add_reader(checker: &mut Heard, awaited: &'static [Said]) -> bool {
    checker.add_transcript(Reader::new(awaited)).is_ok()
}

fn processors_are_done(processors: &[Listener]) -> bool {
    for processor in processors {
        if !processor.is_done() {
            return false;
        }
    }
    true
}

fn transcripts_are_done(transcripts: &[Reader]) -> bool {
    for transcript in transcripts {
        if !transcript.is_done() {
            return false;
        }
    }
    true
}

/// Returns `true` if there are `count` processors and `count` transcripts, and each of them received all that it
/// expects.
pub(crate) fn are_done(given_back: Processors<Listener, Reader>, count: usize) -> bool {
    given_back.processors.len() == count
        && given_back.transcripts.len() == count
        && processors_are_done(&given_back.processors)
        && transcripts_are_done(&given_back.transcripts)
}

/// Returns `true` if calls of a new checker have the given results, a processor is notified of exactly `notices`, and a
/// transcript of exactly `said`.
pub(crate) fn are_heard(
    alloc: Global,
    notices: &'static [Notice],
    said: &'static [Said],
    calls: &[Answered],
) -> bool {
    let mut checker = Heard::notifying(alloc);
    let right = add_listener(&mut checker, notices)
        && add_reader(&mut checker, said)
        && answers(alloc, &mut checker, calls);
    let left = are_done(checker.into_processors(), 1);
    right && left
}

/// The name of a test, its announcements and its transcript, and its calls.
pub(crate) type HeardCalls = (
    &'static str,
    &'static [Notice],
    &'static [Said],
    &'static [Answered],
);

/// Returns the name of the first test in which a call has another result or something else is announced, or `None`.
pub(crate) fn first_unheard(alloc: Global, rows: &[HeardCalls]) -> Option<&'static str> {
    for row in rows {
        if !are_heard(alloc, row.1, row.2, row.3) {
            return Some(row.0);
        }
    }
    None
}
