//! The places of keys among the edits, found by their digests. The keys themselves stand in the edits alone.

ghost use Rattle.std.specs.Prelude.{◌≡◌, OnOk, OnErr, IfOk, [], true, not};
ghost use Rattle.lrs_inventory.specs.Prelude.{each_two, same_name};
ghost use Rattle.lrs_inventory.specs.Keys.{digest, place_among, IsIndex, IsNewPlace, IsKeyPutIn, HaveSameKeys};
ghost use Rattle.lrs_inventory.specs.declared.keys.KeyIndex.{KeyIndex as KeyPlaces};

use lrs_machine::{Edit, Key};
use std::alloc::{AllocError, Global};
use std::collections::BTreeMap;
use std::hash::{DefaultHasher, Hasher};

/// Where among the edits a key may be, by its digest. Two keys may have one digest: a look-up compares with
/// the keys of the edits themselves.
#[derive(Drop)]
pub struct KeyIndex {
    // for a digest the last place of a key that has it
    newest: BTreeMap<u64, u64>,
    // for a place the last one before it of the same digest; there is hardly ever one
    earlier: BTreeMap<u64, u64>,
}

// The digest of a key. Whoever chooses keys should not be able to choose it.
fn digest_of(key: &Key) -> u64
    ensures { result ≡ digest key.now }
{
    let mut hasher = DefaultHasher::new();
    hasher.write(key.bytes());
    hasher.finish()
}

impl KeyIndex {
    /// Without keys. It takes no memory.
    pub fn new(alloc: Global) -> KeyIndex
        ensures { IsIndex result [] }
    {
        KeyIndex {
            newest: BTreeMap::new(alloc),
            earlier: BTreeMap::new(alloc),
        }
    }

    /// The places of the keys of edits.
    ///
    /// # Errors
    /// When memory runs out.
    pub fn of_edits(alloc: Global, edits: &[Edit]) -> Result<KeyIndex, AllocError>
        ensures { IfOk result (λ keys. IsIndex keys edits.now) }
    {
        let mut keys = KeyIndex::new(alloc);
        for (i, edit) in edits.iter().enumerate() {
            keys.insert(&edit.key, i as u64)?;
        }
        Ok(keys)
    }

    /// The place of a key among the edits, of which each has a key of its own.
    pub fn find(&self, key: &Key, edits: &[Edit]) -> Option<u64>
        requires index { IsIndex self.now edits.now }
        requires once { each_two (λ d e. not (same_name d.key e.key)) edits.now ≡ true }
        ensures { result ≡ place_among edits.now key.now }
    {
        let mut candidate = self.newest.get(&digest_of(key)).copied();
        while let Some(place) = candidate {
            if edits[place as usize].key == *key {
                return Some(place);
            }
            candidate = self.earlier.get(&place).copied();
        }
        None
    }

    /// Puts the key of one more edit in, with its place.
    ///
    /// # Errors
    /// When memory runs out; the same is found then.
    pub fn insert(&mut self, key: &Key, place: u64) -> Result<(), AllocError>
        requires new_place { IsNewPlace place self.old }
        ensures ok { OnOk result (IsKeyPutIn key.now place self.old self.new) }
        ensures err { OnErr result (HaveSameKeys self.old self.new) }
    {
        let digest = digest_of(key);
        if let Some(before) = self.newest.get(&digest).copied() {
            self.earlier.insert(place, before)?;
        }
        self.newest.insert(digest, place)?;
        Ok(())
    }

    /// Takes the key that was put in last out again. It takes no memory.
    pub fn remove(&mut self, key: &Key, place: u64)
        ensures { (before : KeyPlaces) → IsKeyPutIn key.now place before self.old
            → HaveSameKeys before self.new }
    {
        let digest = digest_of(key);
        match self.earlier.remove(&place) {
            Some(before) => {
                if let Some(newest) = self.newest.get_mut(&digest) {
                    *newest = before;
                }
            }
            None => {
                self.newest.remove(&digest);
            }
        }
    }
}
