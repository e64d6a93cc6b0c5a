//! Reads the arguments of the program.
ghost use Rattle.std.specs.Prelude.{ℕ, [], ◌∷◌, map, MatchOption};
ghost use Rattle.std.specs.String.{string_bytes};
ghost use Rattle.certify.specs.program.Calls.{AllowsRequest, IsParsedAs, IsRoundCount, run_request};

/// The paths of a script, its answers and their certificate.
#[derive(Clone, Copy)]
pub(super) struct RunFiles<'a> {
    pub(super) script: &'a str,
    pub(super) answers: &'a str,
    pub(super) certificate: &'a str,
}

/// A call of the program.
#[derive(Clone, Copy)]
pub(super) enum Call<'a> {
    /// Without arguments.
    Standard,
    /// `run S A C [STEPS]`
    Run {
        files: RunFiles<'a>,
        budget: u64,
    },
    /// `confirm S A C`
    Confirm {
        files: RunFiles<'a>,
    },
    /// `hints C H`
    Hints {
        certificate: &'a str,
        hints: &'a str,
    },
    /// `check H`
    Check {
        hints: &'a str,
    },
}

/// Returns the number that `word` spells, if it consists of decimal digits and the number is below 2^64.
fn rounds_of(word: &str) -> Option<u64>
    ensures { MatchOption result ((n : ℕ) → IsRoundCount word.now n → ⊥) (IsRoundCount word.now) }
{
    for byte in word.as_bytes() {
        if !byte.is_ascii_digit() {
            return None;
        }
    }
    word.parse::<u64>().ok()
}

/// Returns a run, or `None` if it would overwrite its script.
fn run_of(files: RunFiles<'_>, budget: u64) -> Option<Call<'_>>
    ensures { AllowsRequest result (run_request files.entry budget) }
{
    if files.answers == files.script || files.certificate == files.script {
        return None;
    }
    Some(Call::Run { files, budget })
}

/// Reads `check H`.
fn check_of<'a>(name: &str, hints: &'a str) -> Option<Call<'a>>
    ensures { IsParsedAs (name.now ∷ hints.now ∷ []) result }
{
    if name != "check" {
        return None;
    }
    Some(Call::Check { hints })
}

/// Reads `hints C H`. Returns `None` if this would overwrite the certificate.
fn hints_of<'a>(name: &str, certificate: &'a str, hints: &'a str) -> Option<Call<'a>>
    ensures { IsParsedAs (name.now ∷ certificate.now ∷ hints.now ∷ []) result }
{
    if name != "hints" || hints == certificate {
        return None;
    }
    Some(Call::Hints { certificate, hints })
}

/// Reads `run S A C` or `confirm S A C`.
fn call_on<'a>(name: &str, files: RunFiles<'a>) -> Option<Call<'a>>
    ensures { IsParsedAs (name.now ∷ files.entry.script.now ∷ files.entry.answers.now ∷ files.entry.certificate.now ∷ [])
        result }
{
    match name {
        "run" => run_of(files, u64::MAX),
        "confirm" => Some(Call::Confirm { files }),
        _ => None,
    }
}

/// Reads `run S A C STEPS`.
fn limited_run<'a>(name: &str, files: RunFiles<'a>, steps: &str) -> Option<Call<'a>>
    ensures { IsParsedAs (name.now ∷ files.entry.script.now ∷ files.entry.answers.now ∷ files.entry.certificate.now
        ∷ steps.now ∷ []) result }
{
    if name != "run" {
        return None;
    }
    match rounds_of(steps) {
        Some(budget) => run_of(files, budget),
        None => None,
    }
}

/// Returns the call that the arguments `words` spell, or `None`. If an output is the same word as the input, they don't
/// spell a call.
pub(super) fn call_of(words: &[String]) -> Option<Call<'_>>
    ensures { IsParsedAs (map string_bytes words.now) result }
{
    match words {
        [] => Some(Call::Standard),
        [name, hints] => check_of(name.as_str(), hints.as_str()),
        [name, certificate, hints] => {
            hints_of(name.as_str(), certificate.as_str(), hints.as_str())
        }
        [name, script, answers, certificate] => {
            let files = RunFiles {
                script: script.as_str(),
                answers: answers.as_str(),
                certificate: certificate.as_str(),
            };
            call_on(name.as_str(), files)
        }
        [name, script, answers, certificate, steps] => {
            let files = RunFiles {
                script: script.as_str(),
                answers: answers.as_str(),
                certificate: certificate.as_str(),
            };
            limited_run(name.as_str(), files, steps.as_str())
        }
        _ => None,
    }
}
