//! A buffer of octets that is allocated once.

ghost use Rattle.std.specs.Prelude.{◌≡◌, ◌+◌, ◌≤◌, ◌++◌, [], IfOk, length, take, vec_len, vec_capacity};

use std::alloc::{AllocError, Global};
use std::marker::Model;
use std::mem::replace;

/// A buffer of octets that is allocated once and never grows. After [`ReservedOctets::clear`] new
/// octets overwrite the earlier ones, and are copied in one step. Its model in contracts is its
/// octets and its capacity.
#[derive(Drop)]
pub struct ReservedOctets {
    /// The octets in use, followed by unused elements.
    places: Vec<u8>,
    /// The number of octets in use.
    used: usize,
}

impl Model for ReservedOctets {
    ghost use Rattle.std.specs.Prelude.{◌≤◌, take, vec_len, vec_capacity};
    ghost use Rattle.iim_dataset.specs.States.Devices.{ReservedView};

    ghost Value = { ReservedView };

    ghost view = { λ b. record { items = take b.used b.places.items; room = vec_capacity b.places } };

    ghost invariant = { λ b. b.used ≤ vec_len b.places };
}

/// The number of elements of the vector that are initialised at once, if there is capacity for
/// them.
const STEP: usize = 512;

/// Appends `more` zeros to the vector. The function owns the vector, so that the compiler can write
/// all the zeros at once.
#[inline(always)]
fn with_more(places: Vec<u8>, more: usize) -> Vec<u8>
    requires { vec_len places + more ≤ vec_capacity places }
    ensures front { take (vec_len places) result.items ≡ places.items }
    ensures len { vec_len result ≡ vec_len places + more }
    ensures room { vec_capacity result ≡ vec_capacity places }
{
    let mut places = places;
    for _ in 0..more {
        places.push_reserved(0);
    }
    places
}

/// Appends at least `least` zeros to the vector, and up to [`STEP`] zeros, so that most elements
/// are already initialised for later octets.
fn open(places: &mut Vec<u8>, least: usize)
    requires { vec_len places.old + least ≤ vec_capacity places.old }
    ensures front { take (vec_len places.old) places.new.items ≡ places.old.items }
    ensures len { vec_len places.old + least ≤ vec_len places.new }
    ensures room { vec_capacity places.new ≡ vec_capacity places.old }
{
    let room = places.capacity() - places.len();
    let more = least.max(STEP).min(room);
    let none = Vec::new(*places.allocator());
    let owned = replace(places, none);
    *places = with_more(owned, more);
}

/// Overwrites initialised elements from position `from` on.
fn overwrite(places: &mut Vec<u8>, from: usize, octets: &[u8])
    requires { from + length octets.now ≤ vec_len places.old }
    ensures items { take (from + length octets.now) places.new.items ≡ take from places.old.items ++ octets.now }
    ensures len { vec_len places.new ≡ vec_len places.old }
    ensures room { vec_capacity places.new ≡ vec_capacity places.old }
{
    places[from..from + octets.len()].copy_from_slice(octets);
}

/// Writes octets from position `from` on: overwrites the initialised elements, and appends the
/// rest.
#[inline(always)]
fn write(places: &mut Vec<u8>, from: usize, octets: &[u8])
    requires within { from ≤ vec_len places.old }
    requires fits { from + length octets.now ≤ vec_capacity places.old }
    ensures items { take (from + length octets.now) places.new.items ≡ take from places.old.items ++ octets.now }
    ensures len { from + length octets.now ≤ vec_len places.new }
    ensures room { vec_capacity places.new ≡ vec_capacity places.old }
{
    if octets.len() <= places.len() - from {
        overwrite(places, from, octets);
        return;
    }
    lengthen(places, from, octets);
}

/// Writes octets from position `from` on, if they end after the last initialised element.
#[inline(never)]
fn lengthen(places: &mut Vec<u8>, from: usize, octets: &[u8])
    requires within { from ≤ vec_len places.old }
    requires longer { vec_len places.old ≤ from + length octets.now }
    requires fits { from + length octets.now ≤ vec_capacity places.old }
    ensures items { take (from + length octets.now) places.new.items ≡ take from places.old.items ++ octets.now }
    ensures len { from + length octets.now ≤ vec_len places.new }
    ensures room { vec_capacity places.new ≡ vec_capacity places.old }
{
    open(places, from + octets.len() - places.len());
    overwrite(places, from, octets);
}

impl ReservedOctets {
    /// Allocates an empty buffer with capacity for exactly `room` octets.
    ///
    /// **Errors:** the allocation fails.
    pub fn new(alloc: Global, room: usize) -> Result<ReservedOctets, AllocError>
        ensures items { IfOk result (λ reserved. reserved.items ≡ []) }
        ensures room { IfOk result (λ reserved. reserved.room ≡ room) }
    {
        let reserved = ReservedOctets {
            places: Vec::with_capacity(alloc, room)?,
            used: 0,
        };
        Ok(reserved)
    }

    /// Returns the capacity in octets.
    pub fn room(&self) -> usize
        ensures { result ≡ self.now.room }
    {
        self.places.capacity()
    }

    /// Returns the number of octets.
    pub fn len(&self) -> usize
        ensures { result ≡ length self.now.items }
    {
        self.used
    }

    /// Returns the octets.
    pub fn as_slice(&self) -> &[u8]
        ensures { result.now ≡ self.now.items }
    {
        &self.places[..self.used]
    }

    /// Removes the octets. The capacity is unchanged.
    pub fn clear(&mut self)
        ensures items { self.new.items ≡ [] }
        ensures room { self.new.room ≡ self.old.room }
    {
        self.used = 0;
    }

    /// Appends octets, for which the buffer must have capacity.
    #[inline(always)]
    pub fn take(&mut self, octets: &[u8])
        requires { length self.old.items + length octets.now ≤ self.old.room }
        ensures items { self.new.items ≡ self.old.items ++ octets.now }
        ensures room { self.new.room ≡ self.old.room }
    {
        write(&mut self.places, self.used, octets);
        self.used += octets.len();
    }
}
