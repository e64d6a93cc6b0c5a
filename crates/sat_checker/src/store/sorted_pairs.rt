//! Pairs of a hash and a place, in order of their places. The hashes have to be mixed, because a search starts from their
//! top bits, which should be evenly distributed.
ghost use Rattle.std.specs.Prelude.{All, ℕ, true, ◌≡◌, ◌+◌, ◌∷◌, ◌++◌, ◌<◌, ◌≤◌, [], length, OnOk, OnErr, IfOk};
ghost use Rattle.std.specs.List.{AllByRecursion};
ghost use Rattle.sat_checker.specs.LiteralSets.{is_among};
ghost use Rattle.sat_checker.specs.inner.PairView.{AreInOrder, without_pair, places_in, first_of};
ghost use Rattle.sat_checker.specs.inner.PairView.{places_after};
ghost use Rattle.sat_checker.specs.inner.LinkView.{listed_pairs, PairListsInvariant, LinksListPairs, no_place, no_pair};

use crate::store::links::{
    GONE, Link, NOWHERE, Pair, first_from, link_all, link_before, list_all, put, top, unlink,
};
use sat_base::ClauseHash;
use std::alloc::{AllocError, Global};
use std::marker::Model;

/// The smallest number of hash bits that do not select the head. With this number, there are 2^31 heads.
const LEAST_SHIFT: u32 = 33;

/// Returns the number of hash bits that do not select the head. Up to the limit of 2^31 heads, there are at least twice
/// as many heads as places.
fn shift_for(places: usize) -> u32
    ensures few { 33 ≤ result }
    ensures below { result < 64 }
{
    (places as u64)
        .leading_zeros()
        .saturating_sub(1)
        .min(58)
        .max(LEAST_SHIFT)
}

/// Creates heads of empty lists. `shift` is the number of hash bits that do not select the head.
fn no_heads(alloc: Global, shift: u32) -> Result<Vec<u32>, AllocError>
    requires few { 33 ≤ shift }
    requires below { shift < 64 }
    ensures none { IfOk result (λ heads. All (λ h. h ≡ no_place) heads.items) }
    ensures some { IfOk result (λ heads. 0 < length heads.items) }
{
    let mut heads = Vec::new(alloc);
    heads.resize(1usize << (64 - shift), NOWHERE)?;
    Ok(heads)
}

/// Empties the lists of all heads.
fn clear_heads(heads: &mut [u32])
    ensures none { All (λ h. h ≡ no_place) heads.new }
    ensures count { length heads.new ≡ length heads.old }
{
    heads.fill(NOWHERE);
}

/// Removes the pairs of all links.
fn clear_links(links: &mut [Link])
    ensures none { All (λ l. l.next ≡ no_pair) links.new }
    ensures count { length links.new ≡ length links.old }
{
    links.fill(Link {
        hash: 0,
        next: GONE,
    });
}

/// Creates new heads for the current number of places, and links all pairs again. Returns the new number of hash bits
/// that do not select the head.
fn grow(
    alloc: Global,
    heads: &mut Vec<u32>,
    links: &mut [Link],
    shift: u32,
) -> Result<u32, AllocError>
    requires { PairListsInvariant heads.old.items links.old shift }
    ensures ok { IfOk result (λ s. LinksListPairs heads.new.items links.new s (listed_pairs links.old)) }
    ensures some { OnOk result (0 < length heads.new.items) }
    ensures few { IfOk result (λ s. 33 ≤ s) }
    ensures below { IfOk result (λ s. s < 64) }
    ensures count { length links.new ≡ length links.old }
    ensures err { OnErr result ((heads.new.items ≡ heads.old.items) × (links.new ≡ links.old)) }
{
    let less = shift_for(links.len());
    *heads = no_heads(alloc, less)?;
    link_all(heads, links, less);
    Ok(less)
}

/// Creates new heads if there are none, or if there are at most twice as many heads as places and fewer heads than the
/// limit. Returns the resulting number of hash bits that do not select the head.
fn make_heads(
    alloc: Global,
    heads: &mut Vec<u32>,
    links: &mut [Link],
    shift: u32,
) -> Result<u32, AllocError>
    requires { PairListsInvariant heads.old.items links.old shift }
    ensures ok { IfOk result (λ s. LinksListPairs heads.new.items links.new s (listed_pairs links.old)) }
    ensures some { OnOk result (0 < length heads.new.items) }
    ensures few { IfOk result (λ s. 33 ≤ s) }
    ensures below { IfOk result (λ s. s < 64) }
    ensures count { length links.new ≡ length links.old }
    ensures err { OnErr result ((heads.new.items ≡ heads.old.items) × (links.new ≡ links.old)) }
{
    if heads.is_empty() {
        return grow(alloc, heads, links, shift);
    }
    if shift > LEAST_SHIFT && links.len() >= heads.len() / 2 {
        return grow(alloc, heads, links, shift);
    }
    Ok(shift)
}

/// Pairs in order of their places. In contracts, the value consists of the list of pairs and the number of places.
#[derive(Drop)]
pub struct SortedPairs {
    alloc: Global,
    heads: Vec<u32>,
    links: Vec<Link>,
    shift: u32,
}

impl Model for SortedPairs {
    ghost use Rattle.std.specs.Prelude.{length};
    ghost use Rattle.sat_checker.specs.inner.PairView.{Indexed};
    ghost use Rattle.sat_checker.specs.inner.LinkView.{listed_pairs, PairListsInvariant};

    ghost Value = { Indexed };

    ghost view = { λ s. record { pairs = listed_pairs s.links.items; places = length s.links.items } };

    ghost invariant = { λ s. PairListsInvariant s.heads.items s.links.items s.shift };
}

impl SortedPairs {
    /// Creates an empty list of pairs.
    pub fn new(alloc: Global) -> SortedPairs
        ensures { result ≡ record { pairs = []; places = 0 } }
    {
        SortedPairs {
            alloc,
            heads: Vec::new(alloc),
            links: Vec::new(alloc),
            shift: LEAST_SHIFT,
        }
    }

    /// Returns the number of places that have been assigned.
    pub fn places(&self) -> usize
        ensures count { result ≡ self.now.places }
        ensures few { self.now.places ≤ no_pair }
        ensures order { AreInOrder self.now.pairs }
    {
        self.links.len()
    }

    /// Returns the first place whose hash is `hash`.
    #[inline(always)]
    pub fn first(&self, hash: ClauseHash) -> Option<usize>
        ensures { result ≡ first_of (places_in hash self.now.pairs) }
    {
        if self.heads.is_empty() {
            return None;
        }
        let top = top(hash, self.shift, self.heads.len());
        first_from(&self.links, self.heads[top], hash)
    }

    /// Returns the first place after `place` whose hash is `hash`, which must also be the hash of `place`.
    #[inline(always)]
    pub fn next(&self, hash: ClauseHash, place: usize) -> Option<usize>
        requires { is_among (places_in hash self.now.pairs) place ≡ true }
        ensures { result ≡ first_of (places_after place (places_in hash self.now.pairs)) }
    {
        first_from(&self.links, self.links[place].next, hash)
    }

    /// Appends all pairs to `pairs`, in order of their places.
    pub fn list(&self, pairs: &mut Vec<Pair>) -> Result<(), AllocError>
        ensures { OnOk result (pairs.new.items ≡ pairs.old.items ++ self.now.pairs) }
    {
        list_all(&self.links, pairs)
    }

    /// Returns the hash of the pair at `place`, if there is a pair. Otherwise, the result is unspecified.
    pub fn hash(&self, place: usize) -> ClauseHash
        requires { place < self.now.places }
        ensures { (h : ℕ) → is_among (places_in h self.now.pairs) place ≡ true → result ≡ h }
    {
        self.links[place].hash
    }

    /// Adds a pair of the hash `hash` and the next place.
    pub fn push(&mut self, hash: ClauseHash) -> Result<(), AllocError>
        ensures ok { OnOk result (self.new ≡ record {
          pairs = self.old.pairs ++ (record { hash = hash; place = self.old.places }) ∷ [];
          places = self.old.places + 1;
        }) }
        ensures err { OnErr result (self.new ≡ self.old) }
    {
        if self.links.len() >= GONE as usize {
            return Err(AllocError);
        }
        self.shift = make_heads(self.alloc, &mut self.heads, &mut self.links, self.shift)?;
        put(&mut self.heads, &mut self.links, self.shift, hash)?;
        Ok(())
    }

    /// Removes the pair at `place`. The place is not reused.
    pub fn remove(&mut self, place: usize)
        requires { place < self.old.places }
        ensures { self.new ≡ record self.old { pairs = without_pair place self.old.pairs } }
    {
        if self.heads.is_empty() {
            return;
        }
        unlink(&mut self.heads, &mut self.links, self.shift, place);
    }

    /// Removes all pairs, but keeps the places.
    pub fn clear(&mut self)
        ensures { self.new ≡ record { pairs = []; places = self.old.places } }
    {
        clear_heads(&mut self.heads);
        clear_links(&mut self.links);
    }

    /// Adds a pair at `place`, which must be before all places that have pairs.
    #[inline(always)]
    pub fn file_before(&mut self, place: usize, hash: ClauseHash)
        requires inside { place < self.old.places }
        requires above { AllByRecursion (λ q. place < q.place) self.old.pairs }
        ensures { self.new ≡ record self.old { pairs = (record { hash = hash; place = place }) ∷ self.old.pairs } }
    {
        link_before(&mut self.heads, &mut self.links, self.shift, hash, place);
    }
}

/// Returns an index with `places` places and no pairs.
pub(crate) fn with_places(alloc: Global, places: usize) -> Result<SortedPairs, AllocError>
    ensures { IfOk result (λ s. s ≡ record { pairs = []; places = places }) }
{
    if places > GONE as usize {
        return Err(AllocError);
    }
    let shift = shift_for(places);
    let heads = no_heads(alloc, shift)?;
    let mut links = Vec::new(alloc);
    links.resize(
        places,
        Link {
            hash: 0,
            next: GONE,
        },
    )?;
    Ok(SortedPairs {
        alloc,
        heads,
        links,
        shift,
    })
}
