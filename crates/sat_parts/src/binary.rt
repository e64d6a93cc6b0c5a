//! The binary clauses.
ghost use Rattle.std.specs.Prelude.{ℕ, ◌≡◌, ◌+◌, ◌-◌, ◌*◌, ◌/◌, ◌<◌, ◌≤◌, ◌⊎◌, ◌∷◌, ◌++◌, [], length, take, drop};
ghost use Rattle.std.specs.Prelude.{replicate, OnOk, OnErr};
ghost use Rattle.std.specs.Prelude.{slice_index, slice_index_or, slice_set, vec_capacity};
ghost use Rattle.sat_base.specs.values.Literals.{var_limit, negated};
ghost use Rattle.sat_parts.specs.prop.Values.{is_unassigned_var};
ghost use Rattle.sat_parts.specs.prop.Binaries.{implied_by, with_implied, without_last_implied, with_binary};
ghost use Rattle.sat_parts.specs.prop.Binaries.{with_binary_lists};
ghost use Rattle.sat_parts.specs.prop.Binaries.{unassigned_among, implications, RemovesAssigned};
ghost use Rattle.sat_parts.specs.prop.Places.{no_place, place_at, lits_at_place, lists_of, ArePlaces, CopiesPadded};

use crate::prop::assignment::Assignment;
use sat_base::Lit;
use std::alloc::{AllocError, Global};
use std::marker::Model;

/// The part of the common list that holds the literals that one literal implies. It has `len` literals, and capacity
/// for `room` literals.
#[derive(Clone, Copy)]
struct Place {
    start: u32,
    len: u32,
    room: u32,
}

/// Returns `true` if the variable with this index has no value.
fn is_unset(assignment: &Assignment, index: usize) -> bool
    ensures { result ≡ is_unassigned_var assignment.now.current index }
{
    match assignment.assignment().get(index) {
        Some(value) => value.is_none(),
        None => true,
    }
}

/// Changes the number of places. New places have no capacity.
fn resize(places: &mut Vec<Place>, count: usize) -> Result<(), AllocError>
    ensures done { OnOk result (places.new.items
        ≡ take count places.old.items ++ replicate (count - length places.old.items) no_place) }
    ensures same { OnErr result (places.new.items ≡ places.old.items) }
{
    let more = count.saturating_sub(places.len());
    places.reserve(more)?;
    places.truncate(count);
    for _added in 0..more {
        places.push_reserved(Place {
            start: 0,
            len: 0,
            room: 0,
        });
    }
    Ok(())
}

/// Copies a part of the list to the end of the list, and pads the copy to `room` literals.
fn copy_padded(lits: &mut Vec<Lit>, start: usize, len: usize, room: usize) -> Result<(), AllocError>
    requires within { start + len ≤ length lits.old.items }
    requires fits { len ≤ room }
    ensures copied { OnOk result (CopiesPadded start len room lits.old.items lits.new.items) }
    ensures same { OnErr result (lits.new.items ≡ lits.old.items) }
{
    lits.reserve(room)?;
    push_part(lits, start, len);
    for _free in len..room {
        lits.push_reserved(Lit::from_code(0));
    }
    Ok(())
}

/// Copies a part of the list to the end of the list. Capacity for the copy must have been reserved.
fn push_part(lits: &mut Vec<Lit>, start: usize, len: usize)
    requires within { start + len ≤ length lits.old.items }
    requires room { length lits.old.items + len ≤ vec_capacity lits.old }
    ensures copied { CopiesPadded start len len lits.old.items lits.new.items }
    ensures capacity { vec_capacity lits.new ≡ vec_capacity lits.old }
{
    for at in start..start + len {
        let lit = lits[at];
        lits.push_reserved(lit);
    }
}

/// Moves a literal's list to the end of the common list, and doubles its capacity.
///
/// Positions have 32 bits. If the common list would become too long for them, returns an error.
fn move_list(places: &mut Vec<Place>, lits: &mut Vec<Lit>, code: usize) -> Result<(), AllocError>
    requires places { ArePlaces places.old.items (length lits.old.items) }
    requires below { code < length places.old.items }
    ensures places { ArePlaces places.new.items (length lits.new.items) }
    ensures same { lists_of places.new.items lits.new.items ≡ lists_of places.old.items lits.old.items }
    ensures size { length places.new.items ≡ length places.old.items }
    ensures room { OnOk result ((place_at places.new.items code).len < (place_at places.new.items code).room) }
{
    let place = places[code];
    let start = lits.len();
    let room = (2 * place.room as usize).max(1);
    if start.saturating_add(room) > u32::MAX as usize {
        return Err(AllocError);
    }
    copy_padded(lits, place.start as usize, place.len as usize, room)?;
    places[code] = Place {
        start: start as u32,
        len: place.len,
        room: room as u32,
    };
    Ok(())
}

/// Makes room for one more literal in the list of the literal with this code.
fn make_room(places: &mut Vec<Place>, lits: &mut Vec<Lit>, code: usize) -> Result<(), AllocError>
    requires places { ArePlaces places.old.items (length lits.old.items) }
    requires below { code < length places.old.items }
    ensures places { ArePlaces places.new.items (length lits.new.items) }
    ensures same { lists_of places.new.items lits.new.items ≡ lists_of places.old.items lits.old.items }
    ensures size { length places.new.items ≡ length places.old.items }
    ensures room { OnOk result ((place_at places.new.items code).len < (place_at places.new.items code).room) }
{
    let place = places[code];
    if place.len < place.room {
        return Ok(());
    }
    move_list(places, lits, code)
}

/// Appends `implied` to the list of the literal with this code. The list must have room for one more literal.
fn push(places: &mut Vec<Place>, lits: &mut Vec<Lit>, code: usize, implied: Lit)
    requires places { ArePlaces places.old.items (length lits.old.items) }
    requires below { code < length places.old.items }
    requires room { (place_at places.old.items code).len < (place_at places.old.items code).room }
    ensures places { ArePlaces places.new.items (length lits.new.items) }
    ensures pushed { lists_of places.new.items lits.new.items
        ≡ with_implied code implied (lists_of places.old.items lits.old.items) }
{
    let place = places[code];
    lits[place.start as usize + place.len as usize] = implied;
    places[code] = Place {
        start: place.start,
        len: place.len + 1,
        room: place.room,
    };
}

/// Removes the last literal from the list of the literal with this code.
fn pop(places: &mut Vec<Place>, lits: &Vec<Lit>, code: usize)
    requires places { ArePlaces places.old.items (length lits.now.items) }
    requires below { code < length places.old.items }
    ensures places { ArePlaces places.new.items (length lits.now.items) }
    ensures popped { lists_of places.new.items lits.now.items
        ≡ without_last_implied code (lists_of places.old.items lits.now.items) }
{
    let place = places[code];
    places[code] = Place {
        start: place.start,
        len: place.len.saturating_sub(1),
        room: place.room,
    };
}

/// Moves the unassigned literals of a place to its start, and returns how many there are.
///
/// Returns 0 if the variable with this index has a value.
fn open_part(lits: &mut Vec<Lit>, place: Place, assignment: &Assignment, index: usize) -> u32
    requires { place.start + place.len ≤ length lits.old.items }
    ensures few { result ≤ place.len }
    ensures size { length lits.new.items ≡ length lits.old.items }
    ensures kept { take result (drop place.start lits.new.items)
        ≡ unassigned_among assignment.now.current index (lits_at_place lits.old.items place) }
    ensures rest { (k : ℕ) → (k < place.start) ⊎ (place.start + place.len ≤ k)
        → slice_index lits.new.items k ≡ slice_index lits.old.items k }
{
    if !is_unset(assignment, index) {
        return 0;
    }
    let start = place.start as usize;
    let mut left: u32 = 0;
    for at in 0..place.len {
        let lit = lits[start + at as usize];
        if is_unset(assignment, lit.index()) {
            lits[start + left as usize] = lit;
            left += 1;
        }
    }
    left
}

/// Removes the assigned literals from the list of the literal with this code. Returns how many literals are left.
///
/// Removes all literals from the list if the literal with this code is assigned.
fn keep_open(
    places: &mut Vec<Place>,
    lits: &mut Vec<Lit>,
    assignment: &Assignment,
    code: usize,
) -> usize
    requires places { ArePlaces places.old.items (length lits.old.items) }
    requires below { code < length places.old.items }
    ensures places { ArePlaces places.new.items (length lits.new.items) }
    ensures size { length places.new.items ≡ length places.old.items }
    ensures kept { lists_of places.new.items lits.new.items ≡ slice_set (lists_of places.old.items lits.old.items) code
        (unassigned_among assignment.now.current (code / 2) (implied_by (lists_of places.old.items lits.old.items) code)) }
    ensures left { result ≡ length (implied_by (lists_of places.new.items lits.new.items) code) }
{
    let place = places[code];
    let left = open_part(lits, place, assignment, code / 2);
    places[code] = Place {
        start: place.start,
        len: left,
        room: place.room,
    };
    left as usize
}

/// The binary clauses, each stored as two implications.
///
/// Contracts see the list of implied literals for every literal, indexed by literal code, and the number of clauses.
#[derive(Drop)]
pub struct BinaryClauses {
    by_lit: Vec<Place>,
    /// The literals of all lists. When a list is full, it is moved to the end.
    lits: Vec<Lit>,
    count: usize,
}

impl Model for BinaryClauses {
    ghost use Rattle.std.specs.Prelude.{length};
    ghost use Rattle.sat_parts.specs.prop.Binaries.{Binaries};
    ghost use Rattle.sat_parts.specs.prop.Places.{lists_of, ArePlaces};

    ghost Value = { Binaries };

    ghost view = { λ b. record { implied = lists_of b.by_lit.items b.lits.items; count = b.count } };

    ghost invariant = { λ b. ArePlaces b.by_lit.items (length b.lits.items) };
}

impl BinaryClauses {
    /// Returns an empty set of binary clauses without variables. Never allocates.
    pub fn new(alloc: Global) -> BinaryClauses
        ensures implied { result.implied ≡ [] }
        ensures count { result.count ≡ 0 }
    {
        BinaryClauses {
            by_lit: Vec::new(alloc),
            lits: Vec::new(alloc),
            count: 0,
        }
    }

    /// Sets the number of variables. New literals imply nothing.
    pub fn set_var_count(&mut self, count: usize) -> Result<(), AllocError>
        requires { count ≤ var_limit }
        ensures done { OnOk result (self.new ≡ with_binary_lists (2 * count) self.old) }
        ensures same { OnErr result (self.new ≡ self.old) }
    {
        resize(&mut self.by_lit, 2 * count)?;
        Ok(())
    }

    /// Returns the literals that `lit` implies through binary clauses, as a slice.
    pub fn implied(&self, lit: Lit) -> &[Lit]
        requires { lit < length self.now.implied }
        ensures { result.now ≡ implied_by self.now.implied lit }
    {
        let place = self.by_lit[lit.code()];
        let start = place.start as usize;
        &self.lits[start..start + place.len as usize]
    }

    /// Returns the number of clauses. The number saturates at 2^64 - 1.
    pub fn count(&self) -> usize
        ensures { result ≡ self.now.count }
    {
        self.count
    }

    /// Returns the number of implications, which is two for every clause. The number saturates at 2^64 - 1.
    pub fn implications(&self) -> usize
        ensures { result ≡ implications self.now.implied }
    {
        let mut all: usize = 0;
        for code in 0..self.by_lit.len() {
            let place = self.by_lit[code];
            all = all.saturating_add(place.len as usize);
        }
        all
    }

    /// Appends `implied` to the literals that `lit` implies.
    fn add_implied(&mut self, lit: Lit, implied: Lit) -> Result<(), AllocError>
        requires { lit < length self.old.implied }
        ensures done { OnOk result (self.new
            ≡ record self.old { implied = with_implied lit implied self.old.implied }) }
        ensures same { OnErr result (self.new ≡ self.old) }
    {
        make_room(&mut self.by_lit, &mut self.lits, lit.code())?;
        push(&mut self.by_lit, &mut self.lits, lit.code(), implied);
        Ok(())
    }

    /// Removes the last of the literals that `lit` implies.
    fn pop_implied(&mut self, lit: Lit)
        requires { lit < length self.old.implied }
        ensures { self.new ≡ record self.old { implied = without_last_implied lit self.old.implied } }
    {
        pop(&mut self.by_lit, &self.lits, lit.code());
    }

    /// Adds the binary clause with these literals. If memory runs out, nothing changes.
    pub fn add_binary_clause(&mut self, lits: [Lit; 2]) -> Result<(), AllocError>
        requires first { negated (slice_index_or lits 0 0) < length self.old.implied }
        requires second { negated (slice_index_or lits 1 0) < length self.old.implied }
        ensures done { OnOk result (self.new ≡ with_binary (slice_index_or lits 0 0)
            (slice_index_or lits 1 0) self.old) }
        ensures same { OnErr result (self.new ≡ self.old) }
    {
        let [first, second] = lits;
        self.add_implied(!first, second)?;
        if let Err(error) = self.add_implied(!second, first) {
            self.pop_implied(!first);
            return Err(error);
        }
        self.count = self.count.saturating_add(1);
        Ok(())
    }

    /// Removes the clauses that contain an assigned variable. The other clauses keep their order.
    pub fn remove_assigned(&mut self, assignment: &Assignment)
        ensures { RemovesAssigned assignment.now.current self.old self.new }
    {
        let mut implications: usize = 0;
        let end = self.by_lit.len();
        for code in 0..end {
            let left = keep_open(&mut self.by_lit, &mut self.lits, assignment, code);
            implications = implications.saturating_add(left);
        }
        self.count = implications / 2;
    }
}
