//! Builds clauses from tokens.
ghost use Rattle.std.specs.Prelude.{◌≡◌, None, MatchResult};
ghost use Rattle.sat_base.specs.values.Formulas.{no_formula, with_at_least_vars};
ghost use Rattle.sat_base.specs.dimacs.Dimacs.{EndsClause, literals_in};
ghost use Rattle.sat_base.specs.declared.dimacs.clauses.Refusal.TheVariants.{OutOfMemory};
ghost use Rattle.sat_base.specs.dimacs.Collecting.{token_of, partial_clause_in, is_literal, SameClausesAndHeader};
ghost use Rattle.sat_base.specs.dimacs.Collecting.{AppliesTokenEffect};
ghost use Rattle.sat_base.specs.dimacs.Collecting.{CollectsToken, IsUnfinishedFlag};

use crate::var::MAX_COUNT;
use crate::{CnfFormula, ExtendFormula, FormulaError, Lit, Token};
use std::alloc::{AllocFailed, Global};
use std::mem;
use thiserror::Error;

/// The largest variable number in DIMACS.
pub(crate) const LARGEST: u64 = MAX_COUNT as u64;

/// Why a token was refused.
#[derive(Clone, Copy, Debug, Drop, Error)]
pub(crate) enum Refusal {
    #[error("a word is malformed")]
    Malformed,
    #[error("a number is past the limit")]
    Limit,
    #[error("out of memory")]
    OutOfMemory,
}

impl From<FormulaError> for Refusal {
    ghost use Rattle.std.specs.Prelude.{◌≡◌};
    ghost use Rattle.sat_base.specs.declared.dimacs.clauses.Refusal.TheVariants.{OutOfMemory};

    ghost from_gives = { λ _ e. e ≡ OutOfMemory };

    fn from(_e: FormulaError) -> Refusal {
        Refusal::OutOfMemory
    }
}

impl<T: Drop> From<AllocFailed<T>> for Refusal {
    ghost use Rattle.std.specs.Prelude.{◌≡◌};
    ghost use Rattle.sat_base.specs.declared.dimacs.clauses.Refusal.TheVariants.{OutOfMemory};

    ghost from_gives = { λ _ e. e ≡ OutOfMemory };

    fn from(_e: AllocFailed<T>) -> Refusal {
        Refusal::OutOfMemory
    }
}

/// The header and the clauses that were read, and the literals of the unfinished clause.
#[derive(Drop)]
pub(crate) struct Clauses {
    /// The clauses that have not been taken yet. The number of variables of this formula covers all clauses that
    /// were read.
    pub(crate) formula: CnfFormula,
    pub(crate) unfinished: Vec<Lit>,
    /// The number of clauses read, capped at 2^64-1.
    pub(crate) count: u64,
    /// The numbers of variables and clauses in the header, capped at 2^64-1.
    pub(crate) header: Option<(u64, u64)>,
}

/// Returns `true` if a token is a literal: a number from 1 to 2^28, with either sign.
pub(crate) fn is_literal(token: Token) -> bool
    ensures { result ≡ is_literal (token_of token) }
{
    match token {
        Token::Number { value, .. } => value != 0 && value <= LARGEST,
        _ => false,
    }
}

impl Clauses {
    /// Returns empty `Clauses`. Never allocates.
    pub(crate) fn new(alloc: Global) -> Clauses
        ensures formula { result.formula ≡ no_formula }
        ensures unfinished { partial_clause_in result ≡ None }
        ensures count { result.count ≡ 0 }
        ensures header { result.header ≡ None }
    {
        Clauses {
            formula: CnfFormula::new(alloc),
            unfinished: Vec::new(alloc),
            count: 0,
            header: None,
        }
    }

    /// Ends the unfinished clause, after the `0` that ends it.
    fn end_clause(&mut self) -> Result<(), Refusal>
        ensures { MatchResult result (λ _. AppliesTokenEffect (EndsClause (literals_in (partial_clause_in self.old))) self.old self.new
            × (self.new.header ≡ self.old.header)) (λ e. (e ≡ OutOfMemory) × SameClausesAndHeader self.old self.new) }
    {
        self.formula.add_clause(&self.unfinished)?;
        self.unfinished.clear();
        self.count = self.count.saturating_add(1);
        Ok(())
    }

    // Every token is passed to this function, and functions that return a `Result` are inlined only with the attribute.
    /// Receives the next token.
    #[inline(always)]
    pub(crate) fn take(&mut self, token: Token) -> Result<(), Refusal>
        ensures { CollectsToken result self.old (token_of token) self.new }
    {
        match token {
            Token::Number { negative, value } => {
                if value == 0 {
                    return self.end_clause();
                }
                if value > LARGEST {
                    return Err(Refusal::Limit);
                }
                self.unfinished
                    .push(Lit::from_index((value - 1) as usize, !negative))?;
                Ok(())
            }
            Token::Header { vars, clauses } => {
                self.header = Some((vars, clauses));
                Ok(())
            }
            Token::Letter(_) => Err(Refusal::Malformed),
            Token::Wrong => Err(Refusal::Malformed),
        }
    }

    /// Returns `true` if a clause has begun.
    pub(crate) fn is_inside(&self) -> bool
        ensures { IsUnfinishedFlag result (partial_clause_in self.now) }
    {
        !self.unfinished.is_empty()
    }

    /// Returns the clauses that have been read, and removes them. Later clauses are collected in a formula that starts
    /// with the same number of variables.
    pub(crate) fn take_formula(&mut self, alloc: Global) -> CnfFormula
        ensures formula { result ≡ self.old.formula }
        ensures rest { self.new ≡ record self.old { formula = with_at_least_vars self.old.formula.var_count no_formula } }
    {
        let mut next = CnfFormula::new(alloc);
        next.set_var_count(self.formula.var_count());
        mem::replace(&mut self.formula, next)
    }
}
