//! Tests of a proof's target that accepts four bytes and no more.

use crate::calls::{Call, FieldsAfter, Kind, Part, done, first_of, plain};
use crate::driver::{Made, Play, played};
use sat_base::Counted;
use sat_solver::{ProofFormat, Solver, SolverError};
use std::alloc::Global;
use std::io;
use std::io::{ErrorKind, Write};

/// A writer that accepts `room` more bytes.
#[derive(Drop)]
struct Short {
    room: usize,
}

impl Write for Short {
    fn write(&mut self, piece: &[u8]) -> io::Result<usize> {
        let taken = piece.len().min(self.room);
        self.room = self.room.saturating_sub(taken);
        Ok(taken)
    }

    fn flush(&mut self) -> io::Result<()> {
        Ok(())
    }
}

impl Made for Counted<Short> {
    fn made(_alloc: Global) -> Counted<Short> {
        Counted::new(Short { room: 4 })
    }
}

const CLAUSES: &[Part<'static>] = &[(
    Kind::Right,
    &[Call::Formula(&[&[1, 2], &[1, -2], &[-1, 2], &[-1, -2]])],
)];

/// Returns `true` if a target has accepted no byte of a piece.
fn is_full(answer: Result<bool, SolverError>) -> bool {
    match answer {
        Err(SolverError::ProofIoError { cause }) => cause.kind() == ErrorKind::WriteZero,
        _ => false,
    }
}

/// A play that opens a proof, adds clauses, and asks. It returns the first kind that isn't `Right` of the calls before
/// the ask, and whether the ask finds the target full.
#[derive(Drop)]
struct Fills;

impl Play<Solver<Counted<Short>>, (Kind, bool)> for Fills {
    fn play(self, alloc: Global, solver: &mut Solver<Counted<Short>>) -> (Kind, bool) {
        let target = Counted::<Short>::made(alloc);
        let opened = done(solver.write_proof(target, ProofFormat::Varisat));
        let added = plain(CLAUSES).play(alloc, solver);
        (first_of(&[opened, added]), is_full(solver.solve()))
    }
}

/// Plays `Fills`. Also returns whether every call fails afterwards, and how many bytes the target has left.
fn filled(alloc: Global) -> (((Kind, bool), bool), Option<usize>) {
    let (found, left) = played::<
        Option<Counted<Short>>,
        Solver<Counted<Short>>,
        ((Kind, bool), bool),
        FieldsAfter<Fills>,
    >(alloc, FieldsAfter(Fills));
    (found, left.map(|target| target.into_inner().room))
}

#[test]
fn a_short_target_is_reported(rt: HostRuntime) {
    let (found, left) = filled(rt.alloc());
    assert!(rt; found == ((Kind::Right, true), true));
    assert!(rt; left == Some(0));
}
