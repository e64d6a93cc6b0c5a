//! Tests of clauses in a buffer.
ghost use Rattle.std.specs.Prelude.{◌≡◌, ◌≢◌, ◌≤◌, ◌<◌, ◌^◌, [], ◌∷◌, length, IfOk};
ghost use Rattle.sat_store.specs.clause.Buffer.{IsClause, HoldsClauses, lits_at, swapped};
ghost use Rattle.sat_store_tests.specs.Two.{HasTwo};

use sat_base::Lit;
use sat_store::{ClauseAlloc, ClauseHeader, ClauseRef, Lits, StoreError, Tier};

/// Adds two clauses to an empty buffer.
fn store_two(
    buffer: &mut ClauseAlloc,
    first: &[Lit],
    second: &[Lit],
) -> Result<(ClauseRef, ClauseRef), StoreError>
    requires empty { buffer.old ≡ [] }
    requires first_long { 3 ≤ length first.now }
    requires first_fits { length first.now < 2 ^ 32 }
    requires second_long { 3 ≤ length second.now }
    requires second_fits { length second.now < 2 ^ 32 }
    ensures { IfOk result (λ refs. HasTwo buffer.new refs.0 refs.1 first.now second.now) }
{
    let mut header = ClauseHeader::new();
    let a = buffer.add_clause(header, first)?;
    header.set_tier(Tier::Local);
    let b = buffer.add_clause(header, second)?;
    Ok((a, b))
}

/// Returns `true` if the clause has the literals with the DIMACS numbers `numbers`.
fn reads(buffer: &ClauseAlloc, cref: ClauseRef, numbers: &[i64]) -> bool
    requires { IsClause buffer.now cref }
{
    let lits = buffer.clause(cref).lits();
    if lits.len() != numbers.len() {
        return false;
    }
    for (at, number) in numbers.iter().enumerate() {
        if lits.get(at).to_dimacs() != *number {
            return false;
        }
    }
    true
}

/// Reverses a clause of three literals. The other clause is unchanged.
fn reverse_three(buffer: &mut ClauseAlloc, cref: ClauseRef, other: ClauseRef)
    requires live { HoldsClauses buffer.old (cref ∷ other ∷ []) }
    requires differ { other ≢ cref }
    requires three { length (lits_at buffer.old cref) ≡ 3 }
    ensures live { HoldsClauses buffer.new (cref ∷ other ∷ []) }
    ensures reversed { lits_at buffer.new cref ≡ swapped (lits_at buffer.old cref) 0 2 }
    ensures kept { lits_at buffer.new other ≡ lits_at buffer.old other }
{
    let mut clause = buffer.clause_mut(cref);
    clause.lits_mut().swap(0, 2);
}

/// Exchanges two literals of a clause of four literals through its view. The other clause is unchanged.
fn exchange(buffer: &mut ClauseAlloc, other: ClauseRef, cref: ClauseRef, i: usize, j: usize)
    requires live { HoldsClauses buffer.old (other ∷ cref ∷ []) }
    requires differ { other ≢ cref }
    requires four { length (lits_at buffer.old cref) ≡ 4 }
    requires places { (i < 4) × (j < 4) }
    ensures live { HoldsClauses buffer.new (other ∷ cref ∷ []) }
    ensures kept { lits_at buffer.new other ≡ lits_at buffer.old other }
    ensures four { length (lits_at buffer.new cref) ≡ 4 }
{
    let mut clause = buffer.clause_mut(cref);
    clause.lits_mut().swap(i, j);
}

/// Keeps the first three literals of a clause of four literals, through its view. The other clause is unchanged.
fn cut_to_three(buffer: &mut ClauseAlloc, other: ClauseRef, cref: ClauseRef)
    requires live { HoldsClauses buffer.old (other ∷ cref ∷ []) }
    requires differ { other ≢ cref }
    requires four { length (lits_at buffer.old cref) ≡ 4 }
    ensures live { HoldsClauses buffer.new (other ∷ cref ∷ []) }
    ensures kept { lits_at buffer.new other ≡ lits_at buffer.old other }
{
    let mut clause = buffer.clause_mut(cref);
    clause.header_mut().set_len(3);
}

fn reversed_row(buffer: &mut ClauseAlloc) -> Result<bool, StoreError>
    requires { buffer.old ≡ [] }
{
    let first = [
        Lit::from_index(0, true),
        Lit::from_index(1, true),
        Lit::from_index(2, true),
    ];
    let second = [
        Lit::from_index(3, true),
        Lit::from_index(4, false),
        Lit::from_index(5, true),
        Lit::from_index(6, true),
    ];
    let (a, b) = store_two(buffer, &first, &second)?;
    if !reads(buffer, a, &[1, 2, 3]) || !reads(buffer, b, &[4, -5, 6, 7]) {
        return Ok(false);
    }
    reverse_three(buffer, a, b);
    exchange(buffer, a, b, 0, 3);
    exchange(buffer, a, b, 1, 2);
    cut_to_three(buffer, a, b);
    Ok(reads(buffer, a, &[3, 2, 1]) && reads(buffer, b, &[7, 6, -5]))
}

#[test]
fn clauses_read_back_and_reversed(rt: HostRuntime) {
    let mut buffer = ClauseAlloc::new(rt.alloc());
    assert!(rt; reversed_row(&mut buffer) == Ok(true));
    assert!(rt; buffer.buffer_size() == 13);
}

/// Sets each field of a clause's header, and returns the header.
fn set_all(buffer: &mut ClauseAlloc, cref: ClauseRef) -> ClauseHeader
    requires { IsClause buffer.old cref }
    ensures { IsClause buffer.new cref }
{
    let mut clause = buffer.clause_mut(cref);
    let fields = clause.header_mut();
    fields.set_deleted(true);
    fields.set_tier(Tier::Core);
    fields.set_mark(true);
    fields.set_active(true);
    fields.set_glue(70);
    fields.set_activity(8);
    fields.set_len(0);
    clause.header()
}

/// Sets the first literal through the buffer, and the second one through the view of the clause. Returns the codes of
/// the first, the second and the last literal, and the length.
fn set_first(buffer: &mut ClauseAlloc, cref: ClauseRef) -> [usize; 4]
    requires clause { IsClause buffer.old cref }
    requires some { 3 ≤ length (lits_at buffer.old cref) }
    ensures { IsClause buffer.new cref }
{
    buffer.set_lit(cref, 0, Lit::from_code(20));
    let first = buffer.lit(cref, 0).code();
    let mut clause = buffer.clause_mut(cref);
    clause.lits_mut().set(1, Lit::from_code(22));
    let second = clause.get(1).code();
    let last = clause.iter().last().map_or(0, |lit| lit.code());
    [first, second, last, clause.len()]
}

/// Sets the activity and then the flags of a clause of three literals. Returns whether the header has both of these,
/// and still the length.
fn set_words(buffer: &mut ClauseAlloc, cref: ClauseRef) -> bool
    requires { IsClause buffer.old cref }
    ensures { IsClause buffer.new cref }
{
    let mut header = ClauseHeader::new();
    header.set_glue(5);
    header.set_activity(9);
    buffer.set_activity(cref, 7);
    buffer.set_flags(cref, header);
    let now = buffer.header(cref);
    (now.activity(), now.glue(), now.len()) == (7, 5, 3)
}

fn other_calls(buffer: &mut ClauseAlloc) -> Result<bool, StoreError> {
    let lits = [
        Lit::from_index(0, true),
        Lit::from_index(1, true),
        Lit::from_index(2, true),
    ];
    let cref = buffer.add_clause(ClauseHeader::new(), &lits)?;
    if set_first(buffer, cref) != [20, 22, 4, 3] || !set_words(buffer, cref) {
        return Ok(false);
    }
    let header = set_all(buffer, cref);
    let marks = (
        header.deleted(),
        header.mark(),
        header.active(),
        header.redundant(),
    );
    if marks != (true, true, true, true)
        || (header.glue(), header.activity(), header.len()) != (63, 8, 0)
    {
        return Ok(false);
    }
    buffer.set_header(cref, ClauseHeader::new());
    Ok(
        buffer.header_mut(cref).len() == 0
            && buffer.clause(cref).header().len() == 0
            && buffer.clause(cref).lits().is_empty()
            && cref.offset() == 0,
    )
}

#[test]
fn views_and_methods_by_index(rt: HostRuntime) {
    if let Ok(mut buffer) = ClauseAlloc::with_capacity(rt.alloc(), 16) {
        assert!(rt; other_calls(&mut buffer) == Ok(true));
    } else {
        panic!(rt; "no memory");
    }
}

/// Copies a clause to the end of another buffer, and returns whether the copy has its header and literals.
fn is_copied(from: &ClauseAlloc, cref: ClauseRef, to: &mut ClauseAlloc) -> Result<bool, StoreError>
    requires { IsClause from.now cref }
{
    let copy = to.copy_clause(from, cref)?;
    let header = to.header(copy);
    Ok(header.tier() == Tier::Core && header.glue() == 4 && reads(to, copy, &[1, -2, 3]))
}

fn copy_row(from: &mut ClauseAlloc, to: &mut ClauseAlloc) -> Result<bool, StoreError> {
    let lits = [
        Lit::from_index(0, true),
        Lit::from_index(1, false),
        Lit::from_index(2, true),
    ];
    let mut header = ClauseHeader::new();
    header.set_tier(Tier::Core);
    header.set_glue(4);
    let cref = from.add_clause(header, &lits)?;
    Ok(is_copied(from, cref, to)? && is_copied(from, cref, to)?)
}

#[test]
fn clause_is_copied(rt: HostRuntime) {
    let mut from = ClauseAlloc::new(rt.alloc());
    let mut to = ClauseAlloc::new(rt.alloc());
    assert!(rt; copy_row(&mut from, &mut to) == Ok(true));
    assert!(rt; (from.buffer_size(), to.buffer_size()) == (6, 12));
}

/// Returns the sizes of the buffer with two clauses, without the second one, and without both.
fn sizes(buffer: &mut ClauseAlloc) -> Result<[usize; 3], StoreError> {
    let lits = [
        Lit::from_index(0, true),
        Lit::from_index(1, true),
        Lit::from_index(2, true),
    ];
    let first = buffer.add_clause(ClauseHeader::new(), &lits)?;
    let second = buffer.add_clause(ClauseHeader::new(), &lits)?;
    let full = buffer.buffer_size();
    buffer.truncate(second);
    let one = buffer.buffer_size();
    buffer.truncate(first);
    Ok([full, one, buffer.buffer_size()])
}

#[test]
fn last_clauses_are_taken_out(rt: HostRuntime) {
    let mut buffer = ClauseAlloc::new(rt.alloc());
    assert!(rt; sizes(&mut buffer) == Ok([12, 6, 0]));
}

/// Returns each field of a header, read through the view of the clause.
fn view_fields(buffer: &mut ClauseAlloc, cref: ClauseRef) -> (Tier, [bool; 4], usize, u32)
    requires { IsClause buffer.old cref }
{
    let clause = buffer.clause_mut(cref);
    let flags = [
        clause.deleted(),
        clause.redundant(),
        clause.mark(),
        clause.active(),
    ];
    (clause.tier(), flags, clause.glue(), clause.activity())
}

fn view_row(buffer: &mut ClauseAlloc) -> Result<(Tier, [bool; 4], usize, u32), StoreError> {
    let lits = [
        Lit::from_index(0, true),
        Lit::from_index(1, true),
        Lit::from_index(2, true),
    ];
    let mut header = ClauseHeader::new();
    header.set_tier(Tier::Mid);
    header.set_active(true);
    header.set_glue(9);
    header.set_activity(7);
    let cref = buffer.add_clause(header, &lits)?;
    Ok(view_fields(buffer, cref))
}

#[test]
fn fields_are_read_through_the_view(rt: HostRuntime) {
    let mut buffer = ClauseAlloc::new(rt.alloc());
    let wanted = (Tier::Mid, [false, true, false, true], 9, 7);
    assert!(rt; view_row(&mut buffer) == Ok(wanted));
}

#[test]
fn too_much_room_is_refused(rt: HostRuntime) {
    assert!(rt; ClauseAlloc::with_capacity(rt.alloc(), 1 << 62).is_err());
}

/// Returns the lengths of a view of a clause of three literals, of the view without its first literal, and of an empty
/// view; and the first literal of the shortened view.
fn views(buffer: &mut ClauseAlloc) -> Result<([usize; 3], Lit), StoreError> {
    let codes = [Lit::from_code(4), Lit::from_code(7), Lit::from_code(8)];
    let cref = buffer.add_clause(ClauseHeader::new(), &codes)?;
    let lits = buffer.clause(cref).lits();
    let rest = lits.without_first();
    Ok(([lits.len(), rest.len(), Lits::none().len()], rest.get(0)))
}

#[test]
fn view_without_its_first_literal(rt: HostRuntime) {
    let mut buffer = ClauseAlloc::new(rt.alloc());
    assert!(rt; views(&mut buffer) == Ok(([3, 2, 0], Lit::from_code(7))));
}

#[test]
fn errors_are_printed(rt: HostRuntime) -> Result<(), StoreError> {
    for (error, text) in [
        (StoreError::StoreFull, "no room for another clause"),
        (StoreError::OutOfMemory, "out of memory"),
    ] {
        assert!(rt;
            format!(in rt.alloc(); "{error}")?.as_str() == text,
            "{text}"
        );
    }
    Ok(())
}
