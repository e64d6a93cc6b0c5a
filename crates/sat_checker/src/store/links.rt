//! Pairs of a hash and a place, in linked lists. For each value of the top bits of a hash, a head gives the first place
//! of a list, which is in order of places.
ghost use Rattle.std.specs.Prelude.{All, ℕ, ◌≡◌, ◌≢◌, ◌+◌, ◌<◌, ◌≤◌, ◌∷◌, ◌++◌, [], length, slice_set, OnOk, OnErr};
ghost use Rattle.std.specs.Prelude.{None};
ghost use Rattle.sat_checker.specs.inner.PairView.{without_pair, places_in, first_of};
ghost use Rattle.sat_checker.specs.inner.LinkView.{linked_from, listed_pairs, top_of, LinksEnd, AreLinked};
ghost use Rattle.sat_checker.specs.inner.LinkView.{AreLinkedFrom};
ghost use Rattle.sat_checker.specs.inner.LinkView.{LinksListPairs, SetsLink};
ghost use Rattle.sat_checker.specs.inner.LinkView.{last_place_or, place_before, no_place, no_pair};

use sat_base::ClauseHash;
use std::alloc::AllocError;

/// A hash and a place.
#[derive(Clone, Copy)]
pub struct Pair {
    pub hash: ClauseHash,
    pub place: usize,
}

/// The value that represents no place.
pub(crate) const NOWHERE: u32 = u32::MAX;

/// The `next` of a place that has no pair. All places are below this value.
pub(crate) const GONE: u32 = u32::MAX - 1;

/// The hash at a place, and the next place in the list.
#[derive(Clone, Copy)]
pub(crate) struct Link {
    pub(crate) hash: ClauseHash,
    pub(crate) next: u32,
}

/// Returns the index of the head for a hash: the top bits of the hash, or `count - 1` if they are not below `count`.
#[inline(always)]
pub(crate) fn top(hash: ClauseHash, shift: u32, count: usize) -> usize
    requires some { 0 < count }
    requires shift { shift < 64 }
    ensures is { result ≡ top_of shift count hash }
    ensures within { result < count }
{
    let top = (hash >> shift) as usize;
    top.min(count - 1)
}

/// Returns the first place whose hash is `hash`, in the list that starts at `from`.
#[inline(always)]
pub(crate) fn first_from(links: &[Link], from: u32, hash: ClauseHash) -> Option<usize>
    requires { LinksEnd links.now from }
    ensures { result ≡ first_of (places_in hash (linked_from links.now from)) }
{
    let mut at = from;
    while at != NOWHERE {
        let link = links[at as usize];
        if link.hash == hash {
            return Some(at as usize);
        }
        at = link.next;
    }
    None
}

/// Returns the last place of the list that starts at `from`, if the list is not empty.
fn last_from(links: &[Link], from: u32) -> Option<usize>
    requires { LinksEnd links.now from }
    ensures { result ≡ last_place_or None (linked_from links.now from) }
{
    let mut last = None;
    let mut at = from;
    while at != NOWHERE {
        last = Some(at as usize);
        at = links[at as usize].next;
    }
    last
}

/// Returns the place before `place`, in the list that starts at `from`.
fn place_before(links: &[Link], from: u32, place: usize) -> Option<usize>
    requires walk { LinksEnd links.now from }
    requires inside { place < length links.now }
    ensures { result ≡ place_before place (linked_from links.now from) }
{
    let mut at = from;
    while at != NOWHERE {
        let next = links[at as usize].next;
        if next as usize == place {
            return Some(at as usize);
        }
        at = next;
    }
    None
}

/// Adds a pair of the hash `hash` and the next unused place.
pub(crate) fn put(
    heads: &mut [u32],
    links: &mut Vec<Link>,
    shift: u32,
    hash: ClauseHash,
) -> Result<(), AllocError>
    requires linked { AreLinked heads.old links.old.items shift }
    requires some { 0 < length heads.old }
    requires few { length links.old.items < no_pair }
    requires shift { shift < 64 }
    ensures ok { OnOk result (LinksListPairs heads.new links.new.items shift
        (listed_pairs links.old.items ++ (record { hash = hash; place = length links.old.items }) ∷ [])) }
    ensures longer { OnOk result (length links.new.items ≡ length links.old.items + 1) }
    ensures err { OnErr result ((heads.new ≡ heads.old) × (links.new.items ≡ links.old.items)) }
{
    let place = links.len();
    let top = top(hash, shift, heads.len());
    let last = last_from(links, heads[top]);
    links.push(Link {
        hash,
        next: NOWHERE,
    })?;
    let Some(last) = last else {
        heads[top] = place as u32;
        return Ok(());
    };
    links[last] = Link {
        hash: links[last].hash,
        next: place as u32,
    };
    Ok(())
}

/// Removes the pair at `place`, if there is one.
pub(crate) fn unlink(heads: &mut [u32], links: &mut [Link], shift: u32, place: usize)
    requires linked { AreLinked heads.old links.old shift }
    requires some { 0 < length heads.old }
    requires inside { place < length links.old }
    requires shift { shift < 64 }
    ensures { LinksListPairs heads.new links.new shift (without_pair place (listed_pairs links.old)) }
{
    let link = links[place];
    let top = top(link.hash, shift, heads.len());
    let first = heads[top];
    if first as usize == place {
        heads[top] = link.next;
        links[place] = Link {
            hash: link.hash,
            next: GONE,
        };
        return;
    }
    if let Some(before) = place_before(links, first, place) {
        links[before] = Link {
            hash: links[before].hash,
            next: link.next,
        };
        links[place] = Link {
            hash: link.hash,
            next: GONE,
        };
    }
}

/// Appends all pairs to `list`, in order of their places.
pub(crate) fn list_all(links: &[Link], list: &mut Vec<Pair>) -> Result<(), AllocError>
    ensures { OnOk result (list.new.items ≡ list.old.items ++ listed_pairs links.now) }
{
    for place in 0..links.len() {
        let link = links[place];
        if link.next == GONE {
            continue;
        }
        list.push(Pair {
            hash: link.hash,
            place,
        })?;
    }
    Ok(())
}

/// Links all pairs again, from the last to the first, to new heads of empty lists.
pub(crate) fn link_all(heads: &mut [u32], links: &mut [Link], shift: u32)
    requires few { length links.old ≤ no_pair }
    requires none { All (λ h. h ≡ no_place) heads.old }
    requires some { 0 < length heads.old }
    requires shift { shift < 64 }
    ensures lists { LinksListPairs heads.new links.new shift (listed_pairs links.old) }
    ensures count { length links.new ≡ length links.old }
{
    let count = links.len();
    for done in 0..count {
        let place = count - 1 - done;
        let link = links[place];
        if link.next == GONE {
            continue;
        }
        link_before(heads, links, shift, link.hash, place);
    }
}

/// Links a pair of the hash `hash` and the place `place` to the head of its list. Only pairs at later places may
/// already be linked.
#[inline(always)]
pub(crate) fn link_before(
    heads: &mut [u32],
    links: &mut [Link],
    shift: u32,
    hash: ClauseHash,
    place: usize,
)
    requires linked { AreLinkedFrom (place + 1) heads.old links.old shift }
    requires some { 0 < length heads.old }
    requires inside { place < length links.old }
    requires shift { shift < 64 }
    ensures linked { AreLinkedFrom place heads.new links.new shift }
    ensures set { SetsLink place hash links.old links.new }
    ensures heads { length heads.new ≡ length heads.old }
{
    let top = top(hash, shift, heads.len());
    links[place] = Link {
        hash,
        next: heads[top],
    };
    heads[top] = place as u32;
}
