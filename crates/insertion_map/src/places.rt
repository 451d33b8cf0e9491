//! The places of keys.
ghost use Rattle.std.specs.Prelude.{◌≡◌, ◌≤◌, ◌<◌, ◌+◌, ◌++◌, ◌∷◌, [], false, IfOk, IsOk, OnErr, OnOk, is_some, length, not, position, slice_index_or};
ghost use Rattle.std.specs.Hash as fed;
ghost use Rattle.std.specs.List.{list_any};
ghost use Rattle.insertion_map.specs.Places.{hash_value, insert_key};

use crate::hash_places::HashPlaces;
use std::alloc::{AllocError, Global};
use std::hash::{FoldHasher, Hash, Hasher};
use std::marker::Model;

/// Keys in the order in which they came, and the place of each.
#[derive(Drop)]
pub struct KeyPlaces<K: Eq + Hash> {
    keys: Vec<K>,
    places: HashPlaces,
}

impl<K: Eq + Hash> Model for KeyPlaces<K> {
    ghost use Rattle.std.specs.Prelude.{◌-◌};
    ghost use Rattle.std.specs.Vec.{vec_capacity, vec_len};
    ghost use Rattle.insertion_map.specs.Hashes.{less_of};
    ghost use Rattle.insertion_map.specs.Places.{KeysOf, keys_of_code, hash_value, ArePlaced};

    ghost Value = { KeysOf K };

    ghost coded = { keys_of_code K.code };

    ghost view = { λ k. record {
      keys = k.keys.items;
      room = less_of (vec_capacity k.keys - vec_len k.keys) k.places.room;
    } };

    ghost invariant = { λ k. ArePlaced K.eq (λ key. hash_value (K.hash_input key)) k.keys.items k.places };
}

/// Returns the hash of a key.
fn hash_of<K: Hash>(key: &K) -> u32
    ensures { result ≡ hash_value (K.hash_input key.now) }
{
    let mut hasher = FoldHasher::default();
    key.hash(&mut hasher);
    (hasher.finish() / 0x1_0000_0000) as u32
}

/// Returns the hash of a list of keys.
pub fn hash_of_items<K: Hash>(items: &[K]) -> u32
    ensures { result ≡ hash_value (fed.slice K.hash_input items.now) }
{
    let mut hasher = FoldHasher::default();
    items.hash(&mut hasher);
    (hasher.finish() / 0x1_0000_0000) as u32
}

impl<K: Eq + Hash> KeyPlaces<K> {
    /// Returns no keys.
    pub fn new(alloc: Global) -> KeyPlaces<K>
        ensures { result.keys ≡ [] }
    {
        KeyPlaces {
            keys: Vec::new(alloc),
            places: HashPlaces::new(alloc),
        }
    }

    /// Returns no keys, with room for `keys` of them.
    pub fn with_capacity(alloc: Global, keys: usize) -> Result<KeyPlaces<K>, AllocError>
        ensures keys { IfOk result (λ made. made.keys ≡ []) }
        ensures room { IfOk result (λ made. keys ≤ made.room) }
    {
        let places = HashPlaces::with_capacity(alloc, keys)?;
        let keys = Vec::with_capacity(alloc, keys)?;
        Ok(KeyPlaces { keys, places })
    }

    /// Returns the place of a key, if it is among those with this hash.
    fn place_of(&self, key: &K, hash: u32) -> Option<usize>
        requires { hash ≡ hash_value (K.hash_input key.now) }
        ensures place { result ≡ position (K.eq key.now) self.now.keys }
        ensures found { is_some result ≡ list_any (K.eq key.now) self.now.keys }
    {
        let keys = self.keys.as_slice();
        let is_key = |place: usize| -> bool
            requires { place < length keys.now }
            ensures { result ≡ K.eq key.entry.now (slice_index_or keys.entry.now place key.entry.now) }
        { *key == keys[place] };
        self.places.find(hash, is_key)
    }

    /// Puts a key after the others, if it is equal to none of them; whether it was put there.
    pub fn insert(&mut self, key: K) -> Result<bool, AllocError>
    where
        K: Drop,
        ensures added { IfOk result (λ added. added ≡ not (list_any (K.eq key) self.old.keys)) }
        ensures keys { OnOk result (self.new.keys ≡ insert_key K.eq self.old.keys key) }
        ensures err { OnErr result (self.new.keys ≡ self.old.keys) }
        ensures succeeds { 0 < self.old.room → IsOk result }
        ensures room { self.old.room ≤ self.new.room + 1 }
    {
        let hash = hash_of(&key);
        if self.place_of(&key, hash).is_some() {
            return Ok(false);
        }
        self.push(key, hash)?;
        Ok(true)
    }

    /// Puts a key with its hash after the others, which are not equal to it.
    fn push(&mut self, key: K, hash: u32) -> Result<(), AllocError>
    where
        K: Drop,
        requires hash { hash ≡ hash_value (K.hash_input key) }
        requires new { list_any (K.eq key) self.old.keys ≡ false }
        ensures keys { OnOk result (self.new.keys ≡ self.old.keys ++ key ∷ []) }
        ensures err { OnErr result (self.new.keys ≡ self.old.keys) }
        ensures succeeds { 0 < self.old.room → IsOk result }
        ensures room { self.old.room ≤ self.new.room + 1 }
    {
        self.keys.push(key)?;
        match self.places.push(hash) {
            Ok(()) => Ok(()),
            Err(refused) => {
                let _key = self.keys.pop();
                Err(refused)
            }
        }
    }

    /// Returns how many keys there are.
    pub fn len(&self) -> usize
        ensures { result ≡ length self.now.keys }
    {
        self.keys.len()
    }

    /// Returns true if a key is among them.
    pub fn contains(&self, key: &K) -> bool
        ensures { result ≡ list_any (K.eq key.now) self.now.keys }
    {
        self.place(key).is_some()
    }

    /// Returns the place of a key.
    pub fn place(&self, key: &K) -> Option<usize>
        ensures place { result ≡ position (K.eq key.now) self.now.keys }
        ensures found { is_some result ≡ list_any (K.eq key.now) self.now.keys }
    {
        self.place_of(key, hash_of(key))
    }
}
