//! Tests of sessions whose asks make the search learn: they are answered, and confirmed.

use crate::confirm::is_confirmed;
use crate::devices::fails_at;
use crate::hints::is_proved;
use crate::written::AMPLE;
use certify::run::run;
use certify::summary::{Answer, AskReport};
use sat_base::Counted;
use std::alloc::Global;

/// All clauses of three of five names, with both signs; the positive ones also contain a sixth name. One ask assumes
/// the negation of the sixth name, and one assumes nothing; then the sixth name is false.
const SESSION: &[u8] =
    b"1 2 3 6 0 1 2 4 6 0 1 2 5 6 0 1 3 4 6 0 1 3 5 6 0 1 4 5 6 0 2 3 4 6 0 2 3 5 6 0 2 4 5 6 0 3 4 5 6 0
-1 -2 -3 0 -1 -2 -4 0 -1 -2 -5 0 -1 -3 -4 0 -1 -3 -5 0 -1 -4 -5 0 -2 -3 -4 0 -2 -3 -5 0 -2 -4 -5 0 -3 -4 -5 0
a -6 0 a 0
-6 0
a 0
";

/// The clauses of `SESSION`, but the sixth name is true and is hidden before it is introduced again for
/// another variable.
const HIDDEN_SESSION: &[u8] =
    b"1 2 3 6 0 1 2 4 6 0 1 2 5 6 0 1 3 4 6 0 1 3 5 6 0 1 4 5 6 0 2 3 4 6 0 2 3 5 6 0 2 4 5 6 0 3 4 5 6 0
-1 -2 -3 0 -1 -2 -4 0 -1 -2 -5 0 -1 -3 -4 0 -1 -3 -5 0 -1 -4 -5 0 -2 -3 -4 0 -2 -3 -5 0 -2 -4 -5 0 -3 -4 -5 0
a -6 0 a 0
6 0 h 6 0 -6 0
a 0
";

/// Returns `true` if the asks have the answers `answers`, in order.
fn are(asks: &[AskReport], answers: &[Answer]) -> bool {
    if asks.len() != answers.len() {
        return false;
    }
    for at in 0..asks.len() {
        if asks[at].answer != answers[at] {
            return false;
        }
    }
    true
}

/// Returns `true` if a run answers the asks of a script with `answers`.
fn is_answered(alloc: Global, script: &[u8], answers: &[Answer]) -> bool {
    let mut written = fails_at(b"", 0);
    let mut certificate = fails_at(b"", 0);
    let mut script = Counted::new(script);
    match run(alloc, &mut script, &mut written, &mut certificate, AMPLE) {
        Ok(summary) => are(&summary.asks, answers),
        Err(_) => false,
    }
}

/// Scripts, their answers, and whether an empty clause is derived. Each first ask has a core.
static SESSIONS: [(&[u8], [Answer; 3], bool); 2] = [
    (SESSION, [Answer::Unsat, Answer::Sat, Answer::Unsat], true),
    (
        HIDDEN_SESSION,
        [Answer::Unsat, Answer::Sat, Answer::Sat],
        false,
    ),
];

/// Returns `true` if the asks of a session have the answers `answers`, they are confirmed, and its hint text is proved.
fn is_right(alloc: Global, (script, answers, empty): (&[u8], [Answer; 3], bool)) -> bool {
    is_answered(alloc, script, &answers)
        && is_confirmed(alloc, script, AMPLE)
        && is_proved(alloc, script, (empty, 1))
}

#[test]
fn sessions_are_answered_confirmed_and_hinted(rt: HostRuntime) {
    for &session in &SESSIONS {
        assert!(rt; is_right(rt.alloc(), session));
    }
}
