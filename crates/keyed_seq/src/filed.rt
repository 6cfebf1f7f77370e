//! The list.
ghost use Rattle.std.specs.Prelude.{◌≡◌, ◌<◌, [], ◌∷◌, ◌++◌, length, filter, Option, All, IfOk, OnOk, OnErr};
ghost use Rattle.std.specs.List.{filter_map, list_any, slice_get};
ghost use Rattle.keyed_seq.specs.Positions.{has_first, has_second, places_passing};

use crate::places::{file_under, places_of};
use std::alloc::{AllocError, Global};
use std::collections::HashMap;
use std::hash::Hash;
use std::marker::Model;

/// An item that is filed under one key or under two.
pub trait FiledBy {
    /// What items are filed by.
    type Key: Ord + Hash + Copy;

    // The keys, as contracts see them.
    ghost first_key_of: { Self → Self.Key };

    ghost second_key_of: { Self → Option Self.Key };

    /// The key that each item has.
    fn first_key(&self) -> Self::Key
        ensures { result ≡ first_key_of self.now };

    /// The key that it has besides, if it has one. It may be equal to the first.
    fn second_key(&self) -> Option<Self::Key>
        ensures { result ≡ second_key_of self.now };
}

/// Items in order of receipt, filed by their keys. Contracts see it as the plain list of its items.
#[derive(Drop)]
pub struct Filed<T: FiledBy> {
    items: Vec<T>,
    by_first: HashMap<T::Key, Vec<usize>>,
    by_second: HashMap<T::Key, Vec<usize>>,
}

impl<T: FiledBy> Model for Filed<T> {
    ghost use Rattle.std.specs.Prelude.{List};
    ghost use Rattle.keyed_seq.specs.Positions.{AreFiled, has_first, has_second};

    ghost Value = { List T };

    ghost view = { λ f. f.items.items };

    ghost invariant = { λ f.
        AreFiled T.Key.eq (has_first T.Key.cmp T.first_key_of) f.items.items f.by_first
        × AreFiled T.Key.eq (has_second T.Key.cmp T.second_key_of) f.items.items f.by_second };
}

impl<T: FiledBy> Filed<T> {
    /// A list of no items. It takes no memory until the first is added.
    pub fn new(alloc: Global) -> Self
        ensures { result ≡ [] }
    {
        Self {
            items: Vec::new(alloc),
            by_first: HashMap::new(alloc),
            by_second: HashMap::new(alloc),
        }
    }

    /// The items, in order of receipt.
    pub fn as_slice(&self) -> &[T]
        ensures { result.now ≡ self.now }
    {
        self.items.as_slice()
    }

    /// The places of the items whose first key it is, in order of receipt, found by the key's hash.
    pub fn places_by_first(&self, key: T::Key) -> &[usize]
        ensures places { result.now
            ≡ places_passing (has_first T.Key.cmp T.first_key_of key) self.now }
        ensures within { All (λ place. place < length self.now) result.now }
        ensures picked { filter_map (slice_get self.now) result.now
            ≡ filter (has_first T.Key.cmp T.first_key_of key) self.now }
    {
        places_of(&self.by_first, key)
    }

    /// The places of the items whose second key it is, in order of receipt, found by the key's hash.
    pub fn places_by_second(&self, key: T::Key) -> &[usize]
        ensures places { result.now
            ≡ places_passing (has_second T.Key.cmp T.second_key_of key) self.now }
        ensures within { All (λ place. place < length self.now) result.now }
        ensures picked { filter_map (slice_get self.now) result.now
            ≡ filter (has_second T.Key.cmp T.second_key_of key) self.now }
    {
        places_of(&self.by_second, key)
    }

    /// Whether it is the first key of an item.
    pub fn has_first(&self, key: T::Key) -> bool
        ensures { result ≡ list_any (has_first T.Key.cmp T.first_key_of key) self.now }
    {
        !self.places_by_first(key).is_empty()
    }
}

impl<T: FiledBy + Copy> Filed<T> {
    /// The items whose first key it is, in order of receipt.
    pub fn by_first(&self, alloc: Global, key: T::Key) -> Result<Vec<T>, AllocError>
        ensures { IfOk result
            (λ found. found.items ≡ filter (has_first T.Key.cmp T.first_key_of key) self.now) }
    {
        items_at(alloc, self.as_slice(), self.places_by_first(key))
    }

    /// The items whose second key it is, in order of receipt.
    pub fn by_second(&self, alloc: Global, key: T::Key) -> Result<Vec<T>, AllocError>
        ensures { IfOk result
            (λ found. found.items ≡ filter (has_second T.Key.cmp T.second_key_of key) self.now) }
    {
        items_at(alloc, self.as_slice(), self.places_by_second(key))
    }
}

/// The items at the places.
fn items_at<T: Copy>(alloc: Global, items: &[T], places: &[usize]) -> Result<Vec<T>, AllocError>
    requires { All (λ place. place < length items.now) places.now }
    ensures { IfOk result (λ found. found.items ≡ filter_map (slice_get items.now) places.now) }
{
    let mut found = Vec::with_capacity(alloc, places.len())?;
    for place in places {
        found.push(items[*place])?;
    }
    Ok(found)
}

impl<T: FiledBy + Drop> Filed<T> {
    /// Adds an item at the end. With `AllocError`, where no memory is left for it, the list stays
    /// as it was and the item is dropped.
    pub fn push(&mut self, item: T) -> Result<(), AllocError>
        ensures ok { OnOk result (self.new ≡ self.old ++ item ∷ []) }
        ensures err { OnErr result (self.new ≡ self.old) }
    {
        let first = item.first_key();
        let second = item.second_key();
        let place = self.items.len();
        self.items.push(item)?;
        if let Err(error) = file_under(
            &mut self.by_first,
            &mut self.by_second,
            first,
            second,
            place,
        ) {
            let _ = self.items.pop();
            return Err(error);
        }
        Ok(())
    }
}
