//! Places by hashes.
ghost use Rattle.std.specs.Prelude.{◌≡◌, ◌≤◌, ◌<◌, ◌+◌, ◌++◌, ◌∷◌, [], ℕ, IfOk, IsOk, List, OnErr, OnOk, length};
ghost use Rattle.insertion_map.specs.Hashes.{ArePlaces, IsFoundOf, IsFoundFrom, MayFindPlace, MayFindFrom};

use crate::last_places::LastPlaces;
use std::alloc::{AllocError, Global};
use std::marker::Model;

/// How many places 32 bits tell.
const MOST_PLACES: usize = 1 << 32;

/// Places, counted from 0, each with a hash. The places of a hash are found by it, whatever else is kept of them. Each takes four bytes, so that there are no more
/// than 2^32: one more is refused as if memory had run out.
#[derive(Drop)]
pub struct HashPlaces {
    /// The last place of each hash.
    last: LastPlaces,
    /// For each place the one before it that has the same hash; the place itself if none has.
    before: Vec<u32>,
}

impl Model for HashPlaces {
    ghost use Rattle.std.specs.Prelude.{◌-◌, ◌^◌};
    ghost use Rattle.std.specs.Vec.{vec_capacity, vec_len};
    ghost use Rattle.insertion_map.specs.Hashes.{PlacesOf, less_of};

    ghost Value = { PlacesOf };

    ghost view = { λ p. record {
      last = p.last;
      before = p.before.items;
      room = less_of (less_of (vec_capacity p.before - vec_len p.before) p.last.room)
          (2 ^ 32 - vec_len p.before);
    } };
}

/// Returns a place on which `test` is true, `place` or one before it that has its hash.
fn find_from<F: Fn(usize) -> bool>(before: &[u32], place: usize, test: &F) -> Option<usize>
    requires { MayFindFrom (F.pre test.now) before.now place }
    ensures { IsFoundFrom (F.post test.now) before.now place result }
{
    if test(place) {
        return Some(place);
    }
    let earlier = before[place] as usize;
    if earlier < place {
        return find_from(before, earlier, test);
    }
    None
}

impl HashPlaces {
    /// Returns no places.
    pub fn new(alloc: Global) -> HashPlaces
        ensures { ArePlaces result [] }
    {
        HashPlaces {
            last: LastPlaces::new(alloc),
            before: Vec::new(alloc),
        }
    }

    /// Returns no places, with room for `places` of them.
    pub fn with_capacity(alloc: Global, places: usize) -> Result<HashPlaces, AllocError>
        ensures places { IfOk result (λ made. ArePlaces made []) }
        ensures room { IfOk result (λ made. places ≤ made.room) }
    {
        if places > MOST_PLACES {
            return Err(AllocError);
        }
        let last = LastPlaces::with_capacity(alloc, places)?;
        let before = Vec::with_capacity(alloc, places)?;
        Ok(HashPlaces { last, before })
    }

    /// Returns how many places there are.
    pub fn len(&self) -> usize
        ensures { (hashes : List ℕ) → ArePlaces self.now hashes → result ≡ length hashes }
    {
        self.before.len()
    }

    /// Returns one of the places of a hash on which `test` is true, or `None` if it is true on none of them.
    #[inline(always)]
    pub fn find<F: Fn(usize) -> bool>(&self, hash: u32, test: F) -> Option<usize>
        requires { MayFindPlace (F.pre test) self.now hash }
        ensures { (hashes : List ℕ) → ArePlaces self.now hashes
            → IsFoundOf (F.post test) hashes hash result }
    {
        match self.last.get(hash) {
            Some(last) => find_from(self.before.as_slice(), last as usize, &test),
            None => None,
        }
    }

    /// Appends a place that has this hash.
    pub fn push(&mut self, hash: u32) -> Result<(), AllocError>
        requires { (hashes : List ℕ) × ArePlaces self.old hashes }
        ensures pushed { OnOk result ((hashes : List ℕ) → ArePlaces self.old hashes
            → ArePlaces self.new (hashes ++ hash ∷ [])) }
        ensures refused { OnErr result ((hashes : List ℕ) → ArePlaces self.old hashes
            → ArePlaces self.new hashes) }
        ensures succeeds { 0 < self.old.room → IsOk result }
        ensures room { self.old.room ≤ self.new.room + 1 }
    {
        let count = self.before.len();
        if count >= MOST_PLACES {
            return Err(AllocError);
        }
        let place = count as u32;
        let earlier = self.last.get(hash).unwrap_or(place);
        self.before.push(earlier)?;
        match self.last.put(hash, place) {
            Ok(()) => Ok(()),
            Err(refused) => {
                let _earlier = self.before.pop();
                Err(refused)
            }
        }
    }
}
