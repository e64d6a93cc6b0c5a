//! A search over a few clauses, and the names of its variables.
ghost use Rattle.std.specs.Prelude.{MatchOption};
ghost use Rattle.sat_solver.specs.solver.Joined.{NamesSearchInvariant};
ghost use Rattle.sat_solver.specs.solver.AddingToSearch.{NamesSearchInvariantOrUnsat};

use sat_base::{CountedWrite, Lit};
use sat_parts::parts::sorting::new_sorting;
use sat_solver::inner;
use sat_solver::inner::{
    Context, Loading, MappedLits, Restarts, Variables, add_clause_to_search, leftmost_witness,
};
use sat_store::LubySequence;
use std::alloc::Global;

/// Scratch memory for reading clauses.
#[derive(Drop)]
pub struct ClauseScratch {
    lits: Vec<Lit>,
    loading: Loading,
}

/// Returns empty scratch memory.
pub fn no_room(alloc: Global) -> ClauseScratch {
    ClauseScratch {
        lits: Vec::new(alloc),
        loading: Loading {
            taken: MappedLits::new(alloc),
            sorting: new_sorting(alloc),
        },
    }
}

/// Reads literals from their codes. Returns `false` if a code is too large or memory runs out.
fn read(codes: &[usize], lits: &mut Vec<Lit>) -> bool {
    lits.clear();
    for code in codes {
        if *code >= 1000 {
            return false;
        }
        if lits.push(Lit::from_code(*code)).is_err() {
            return false;
        }
    }
    true
}

/// Adds a clause. Returns whether the clauses may still be satisfiable, or `None` if a call fails.
fn add<W: CountedWrite + Drop>(
    core: &mut Context<W>,
    names: &mut Variables,
    lits: &[Lit],
    loading: &mut Loading,
) -> Option<bool>
    requires { NamesSearchInvariant names.old core.old }
    ensures { MatchOption result (Unit {0}) (λ left. NamesSearchInvariantOrUnsat left names.new core.new) }
{
    if leftmost_witness(names, lits).is_some() {
        return None;
    }
    match add_clause_to_search(core, names, lits, loading) {
        Ok(left) => Some(left),
        Err(_) => None,
    }
}

/// Adds the clauses, given by the codes of their literals. Returns whether the clauses may still be satisfiable.
fn add_all<W: CountedWrite + Drop>(
    core: &mut Context<W>,
    names: &mut Variables,
    clauses: &[&[usize]],
    room: &mut ClauseScratch,
) -> Option<bool>
    requires { NamesSearchInvariant names.old core.old }
    ensures { MatchOption result (Unit {0}) (λ left. NamesSearchInvariantOrUnsat left names.new core.new) }
{
    for codes in clauses {
        if !read(*codes, &mut room.lits) {
            return None;
        }
        let left = add(core, names, &room.lits, &mut room.loading)?;
        if !left {
            return Some(false);
        }
    }
    Some(true)
}

/// Makes rounds up to an answer. Returns whether there is one.
fn answer<W: CountedWrite + Drop>(core: &mut Context<W>, names: &mut Variables) -> bool
    requires { NamesSearchInvariant names.old core.old }
{
    let mut restarts = Restarts {
        sequence: LubySequence::default(),
        scale: 128,
        next: 0,
        count: 0,
    };
    let mut steps = 0;
    match inner::search(core, names, &mut restarts, &mut steps, u64::MAX) {
        Ok(found) => found.is_some(),
        Err(_) => false,
    }
}

/// Searches for a model of the clauses. Returns whether there is an answer.
pub fn search<W: CountedWrite + Drop>(
    core: &mut Context<W>,
    names: &mut Variables,
    clauses: &[&[usize]],
    room: &mut ClauseScratch,
) -> bool
    requires { NamesSearchInvariant names.old core.old }
{
    match add_all(core, names, clauses, room) {
        Some(true) => answer(core, names),
        Some(false) => true,
        None => false,
    }
}
