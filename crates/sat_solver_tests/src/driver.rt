//! Solvers that tests play on. They are created only here, and borrowed elsewhere, since each function that owns a
//! solver takes long to prove.

use sat_base::{Counted, CountedWrite};
use sat_checker::{Checker, Nobody, ProofProcessor};
use sat_solver::{ProofFormat, ReturnedParts, Solver, SolverError};
use std::alloc::Global;

/// A target that stores what it receives.
pub(crate) type Bytes = Counted<Vec<u8>>;

/// A value that calls create when they need one.
pub(crate) trait Made: Drop {
    fn made(alloc: Global) -> Self;
}

impl Made for Bytes {
    fn made(alloc: Global) -> Bytes {
        Counted::new(Vec::new(alloc))
    }
}

impl Made for Nobody {
    fn made(_alloc: Global) -> Nobody {
        Nobody {}
    }
}

/// A value that can be created, and finally returns the values of others that are left in it. In a function that owns
/// such a value, the prover need not look at the solver that it is.
pub(crate) trait Fresh<B>: Drop {
    fn fresh(alloc: Global) -> Self;

    fn left(self) -> B;
}

impl<W: CountedWrite + Drop, P: ProofProcessor> Fresh<ReturnedParts<W, P>> for Solver<W, P> {
    fn fresh(alloc: Global) -> Solver<W, P> {
        Solver::notifying(alloc)
    }

    fn left(self) -> ReturnedParts<W, P> {
        self.into_processors()
    }
}

impl<W: CountedWrite + Drop> Fresh<Option<W>> for Solver<W> {
    fn fresh(alloc: Global) -> Solver<W> {
        Solver::new(alloc)
    }

    fn left(self) -> Option<W> {
        self.into_target()
    }
}

/// What a test does with a solver, and what it returns.
pub(crate) trait Play<S, R>: Drop {
    fn play(self, alloc: Global, solver: &mut S) -> R;
}

/// Plays on a new value. Returns what the play returns, and what is left in the value.
pub(crate) fn played<B, S: Fresh<B>, R, A: Play<S, R>>(alloc: Global, act: A) -> (R, B) {
    let mut solver = S::fresh(alloc);
    let result = act.play(alloc, &mut solver);
    (result, solver.left())
}

/// Plays on a new solver without a proof, and returns what the play returns.
pub(crate) fn result_of<R, A: Play<Solver<Bytes>, R>>(alloc: Global, act: A) -> R {
    let (result, _target) = played::<Option<Bytes>, Solver<Bytes>, R, A>(alloc, act);
    result
}

/// A play while a proof is written, which is closed afterwards.
#[derive(Drop)]
pub(crate) struct Proved<W, A> {
    pub(crate) target: W,
    pub(crate) format: ProofFormat,
    pub(crate) act: A,
}

/// The result of closing a proof.
pub(crate) type Closed<W> = Result<Option<W>, SolverError>;

impl<W: CountedWrite + Drop, P: ProofProcessor, R: Drop, A: Play<Solver<W, P>, R>> Play<
    Solver<W, P>,
    (R, Closed<W>),
> for Proved<W, A> {
    fn play(self, alloc: Global, solver: &mut Solver<W, P>) -> (R, Closed<W>) {
        let Proved {
            target,
            format,
            act,
        } = self;
        let opened = solver.write_proof(target, format);
        let result = act.play(alloc, solver);
        match opened {
            Ok(()) => (result, solver.close_proof()),
            Err(error) => (result, Err(error)),
        }
    }
}

/// Returns what a play returns and its proof's text, or `None` if the proof isn't opened or closed.
pub(crate) fn written<R: Drop, A: Play<Solver<Bytes>, R>>(
    alloc: Global,
    format: ProofFormat,
    act: A,
) -> Option<(R, Vec<u8>)> {
    let target = Bytes::made(alloc);
    let proved = Proved {
        target,
        format,
        act,
    };
    match result_of::<(R, Closed<Bytes>), Proved<Bytes, A>>(alloc, proved) {
        (result, Ok(left)) => match left {
            Some(target) => Some((result, target.into_inner())),
            None => None,
        },
        (_, Err(_)) => None,
    }
}

/// Returns `true` if the checker accepts a proof.
pub(crate) fn is_accepted(alloc: Global, text: &[u8]) -> bool {
    let mut checker = Checker::new(alloc);
    let accepted = checker.check_proof(&mut Counted::new(text)).is_ok();
    drop(checker);
    accepted
}
