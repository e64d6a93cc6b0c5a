//! Compares lists of literals as sets.
//!
//! In literals over names, each name stands for its variable.
ghost use Rattle.std.specs.Prelude.{IfOk, ◌≡◌, [], true};
ghost use Rattle.sat_checker.specs.LiteralSets.{is_among};
ghost use Rattle.sat_checker.specs.matching.Expected.{EachHasItsLiteral, IsSameLiteralSet, IsLiteralOf};
ghost use Rattle.certify.specs.answers.AnswerForms.{named_literal, named_literals};
ghost use Rattle.certify.specs.confirm.SpeltLiterals.{AllAmong, AreSpelt, DecidesSpelling, Decides};
ghost use Rattle.certify.specs.confirm.Variables.{variable_in};

use crate::confirm::variables::NamedVars;
use sat_base::Lit;
use sat_checker::sorted_lits::{copy_canonical, is_subset};
use std::alloc::{AllocError, Global};

/// Lists of at most this many literals are compared as sets without being sorted.
const SHORT: usize = 8;

/// Buffers for comparisons. Their contents don't matter between comparisons.
#[derive(Drop)]
pub(crate) struct LitScratch {
    spelt: Vec<Lit>,
    sets: Sets,
}

/// Two sorted sets of literals.
#[derive(Drop)]
pub(crate) struct Sets {
    first: Vec<Lit>,
    second: Vec<Lit>,
}

impl LitScratch {
    /// Returns empty buffers. Never allocates.
    pub fn new(alloc: Global) -> LitScratch
        ensures spelt { result.spelt.items ≡ [] }
        ensures first { result.sets.first.items ≡ [] }
        ensures second { result.sets.second.items ≡ [] }
    {
        LitScratch {
            spelt: Vec::new(alloc),
            sets: Sets {
                first: Vec::new(alloc),
                second: Vec::new(alloc),
            },
        }
    }
}

/// Returns `true` if all of `literals` are among `others`.
fn are_among(literals: &[Lit], others: &[Lit], sets: &mut Sets) -> Result<bool, AllocError>
    ensures { IfOk result (λ yes. Decides yes (AllAmong literals.now others.now)) }
{
    copy_canonical(&mut sets.first, literals)?;
    copy_canonical(&mut sets.second, others)?;
    Ok(is_subset(&sets.first, &sets.second, false))
}

/// Returns `true` if `lits` contains `lit`. Compares `lit` with all of them, without branches.
#[inline(always)]
fn is_in(lit: Lit, lits: &[Lit]) -> bool
    ensures { result ≡ is_among lits.now lit }
{
    let mut found = false;
    for other in lits {
        found = found | (*other == lit);
    }
    found
}

/// Returns `true` if `others` contains all of `literals`. Compares all pairs, without branches.
fn are_all_in(literals: &[Lit], others: &[Lit]) -> bool
    ensures { Decides result (AllAmong literals.now others.now) }
{
    let mut all = true;
    for lit in literals {
        all = all & is_in(*lit, others);
    }
    all
}

/// Returns `true` if both lists contain the same literals. Meant for short lists.
fn are_same_short(xs: &[Lit], ys: &[Lit]) -> bool
    ensures { Decides result (AllAmong xs.now ys.now × AllAmong ys.now xs.now) }
{
    if !are_all_in(xs, ys) {
        return false;
    }
    are_all_in(ys, xs)
}

/// Returns `true` if both lists contain the same literals.
fn are_same(xs: &[Lit], ys: &[Lit], sets: &mut Sets) -> Result<bool, AllocError>
    ensures { IfOk result (λ yes. Decides yes (AllAmong xs.now ys.now × AllAmong ys.now xs.now)) }
{
    if xs.len() <= SHORT && ys.len() <= SHORT {
        return Ok(are_same_short(xs, ys));
    }
    copy_canonical(&mut sets.first, xs)?;
    copy_canonical(&mut sets.second, ys)?;
    if !is_subset(&sets.first, &sets.second, false) {
        return Ok(false);
    }
    Ok(is_subset(&sets.second, &sets.first, false))
}

/// Returns `true` if `line` contains all of `literals`.
pub(crate) fn has_all(
    line: &[Lit],
    literals: &[Lit],
    room: &mut LitScratch,
) -> Result<bool, AllocError>
    ensures { IfOk result (λ yes. Decides yes (AllAmong literals.now line.now)) }
{
    are_among(literals, line, &mut room.sets)
}

/// Writes `literals` to `spelt`, with every name replaced by its variable. Returns `true` if every name has a variable.
fn spell(variables: &NamedVars, literals: &[Lit], spelt: &mut Vec<Lit>) -> Result<bool, AllocError>
    ensures { IfOk result
        (λ yes. DecidesSpelling yes (variable_in variables.now) (named_literals literals.now) spelt.new.items) }
{
    spelt.clear();
    for lit in literals {
        let Some(variable) = variables.get(lit.var()) else {
            return Ok(false);
        };
        spelt.push(variable.lit(lit.is_positive()))?;
    }
    Ok(true)
}

/// Returns `true` if `code` is `literal` with its name replaced by the variable of that name.
fn is_spelt(variables: &NamedVars, literal: Lit, code: Lit) -> bool
    ensures { result ≡ true → IsLiteralOf (variable_in variables.now) (named_literal literal) code }
{
    match variables.get(literal.var()) {
        Some(variable) => variable.lit(literal.is_positive()) == code,
        None => false,
    }
}

/// Returns `true` if `codes` are, in order, the literals in `literals` with every name replaced by its variable.
fn are_spelt(variables: &NamedVars, literals: &[Lit], codes: &[Lit]) -> bool
    ensures { result ≡ true → AreSpelt (variable_in variables.now) (named_literals literals.now) codes.now }
{
    if literals.len() != codes.len() {
        return false;
    }
    for at in 0..literals.len() {
        if !is_spelt(variables, literals[at], codes[at]) {
            return false;
        }
    }
    true
}

/// Returns `true` if all of `literals`, with every name replaced by its variable, are among `codes`.
pub(crate) fn are_spelt_in(
    variables: &NamedVars,
    literals: &[Lit],
    codes: &[Lit],
    room: &mut LitScratch,
) -> Result<bool, AllocError>
    ensures { IfOk result
        (λ yes. Decides yes (EachHasItsLiteral (variable_in variables.now) (named_literals literals.now) codes.now)) }
{
    if are_spelt(variables, literals, codes) {
        return Ok(true);
    }
    if spell(variables, literals, &mut room.spelt)? {
        are_among(&room.spelt, codes, &mut room.sets)
    } else {
        Ok(false)
    }
}

/// Returns `true` if `literals`, with every name replaced by its variable, and `codes` are equal as sets.
pub(crate) fn are_spelt_by(
    variables: &NamedVars,
    literals: &[Lit],
    codes: &[Lit],
    room: &mut LitScratch,
) -> Result<bool, AllocError>
    ensures { IfOk result
        (λ yes. Decides yes (IsSameLiteralSet (variable_in variables.now) (named_literals literals.now) codes.now)) }
{
    if are_spelt(variables, literals, codes) {
        return Ok(true);
    }
    if spell(variables, literals, &mut room.spelt)? {
        are_same(&room.spelt, codes, &mut room.sets)
    } else {
        Ok(false)
    }
}
