//! Functions whose contracts follow from the laws about what is stored.
ghost use Rattle.std.specs.Prelude.{ℕ, ◌≡◌, ◌<◌, ◌≤◌, ◌++◌, Bool, true, false, List, [], ◌∷◌, length, map};
ghost use Rattle.std.specs.List.{AllByRecursion};
ghost use Rattle.sat_base.specs.steps.Steps.{AddClause, AtClause, DeleteClause, Redundant, Step};
ghost use Rattle.sat_base.specs.steps.StepText.{SpellsSteps};
ghost use Rattle.sat_checker.specs.Accepts.{AcceptsAll, IsStrictSubset, PassesByHashes, ready_after, stored_after};
ghost use Rattle.sat_checker.specs.Contents.{contents};
ghost use Rattle.sat_checker.specs.ConflictPropagation.{IsStoredByHash};
ghost use Rattle.sat_checker.specs.ProofView.{most_bytes, steps_after};
ghost use Rattle.sat_checker.specs.Counters.{ExhaustsCounters};
ghost use Rattle.sat_checker.specs.Stored.{Stored};
ghost use Rattle.sat_checker.specs.Storing.{last_literals};

use sat_checker::law_stored::{
    bytes_bound_ids, contents_follow_steps, last_was_derived, named_clauses_pass, stored_is_tidy,
};

/// States that [1] passes under the hashes of [1,2] and [1,-2], whichever other clauses have these hashes.
fn resolvent_passes()
    ensures { (f : Stored) (g h : ℕ) → IsStoredByHash f (0 ∷ 2 ∷ []) g → IsStoredByHash f (0 ∷ 3 ∷ []) h
        → PassesByHashes f (0 ∷ []) (g ∷ h ∷ []) }
{
    named_clauses_pass();
}

/// States that no count changes if a redundant clause is derived and deleted.
fn counts_return()
    ensures { (earlier : List Step) (hashes : List ℕ) (side : Bool) (set : List ℕ)
        → (contents (ready_after (DeleteClause (0 ∷ 2 ∷ []) Redundant ∷ AtClause true (0 ∷ 2 ∷ []) hashes
        ∷ earlier))).state.counts side set ≡ (contents (ready_after earlier)).state.counts side set }
{
    contents_follow_steps();
}

/// States that the ids of stored clauses are below the next id.
fn ids_were_given()
    ensures { (steps : List Step) → AcceptsAll steps
        → AllByRecursion (λ id. id < (ready_after steps).next_id) (map (λ c. c.id) (ready_after steps).clauses) }
{
    stored_is_tidy();
}

/// States that a derived clause [1,2] becomes the last clause, which is a strict subset of [1,2,3].
fn derived_is_part()
    ensures { (steps : List Step) (hashes : List ℕ) → AcceptsAll (AtClause false (0 ∷ 2 ∷ []) hashes ∷ steps)
        → let f = ready_after (AtClause false (0 ∷ 2 ∷ []) hashes ∷ steps) in IsStrictSubset (last_literals f.last f)
        (0 ∷ 2 ∷ 4 ∷ []) }
{
    last_was_derived();
}

/// States that ids are not exhausted when a clause is read from a text of at most `most_bytes` bytes.
fn clause_has_an_id()
    ensures { (steps : List Step) (clause text : List ℕ) → SpellsSteps (steps ++ AddClause clause ∷ []) text
        → length text ≤ most_bytes → ExhaustsCounters (AddClause clause) (stored_after (steps_after steps [])) → ⊥ }
{
    bytes_bound_ids();
}

#[test]
fn laws_are_called(_rt: HostRuntime) {
    resolvent_passes();
    counts_return();
    ids_were_given();
    derived_is_part();
    clause_has_an_id();
}
