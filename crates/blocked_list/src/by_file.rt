//! Who waits for which file.
ghost use Rattle.std.specs.Prelude.{◌≡◌, ◌<◌, ◌≤◌, ◌+◌, ◌∷◌, ◌++◌, ℕ, List, [], length, map, take, drop, IfOk};
ghost use Rattle.std.specs.Ordering.{is_lt, is_le};
ghost use Rattle.range_table.specs.File.{file_cmp};
ghost use Rattle.blocked_list.specs.ByFile.{AreByFile, IsIndex, IsPoint, below, file_at, moved_up, places_of, without_place};

use crate::waiter::Waiter;
use callbacks::MOST_SLOTS;
use range_table::FileId;
use std::alloc::{AllocError, Global};
use std::cmp::Ordering;
use std::marker::Model;

const NO_BYTES: &[u8] = &[];

/// The places of waiters, by file and then in the order of waiting, so that a file's are found by two binary searches.
/// A clause sees the places.
///
/// They are kept beside the list, in 2 bytes each. A waiter that comes or goes moves or renumbers those behind it.
#[derive(Drop)]
pub(crate) struct ByFile {
    places: Vec<u16>,
}

impl Model for ByFile {
    ghost use Rattle.std.specs.Prelude.{List, ℕ, ◌≤◌, vec_capacity};

    ghost Value = { List ℕ };

    ghost view = { λ b. b.places.items };

    ghost invariant = { λ b. 8192 ≤ vec_capacity b.places };
}

impl ByFile {
    /// Of nobody, with room for all.
    pub(crate) fn new(alloc: Global) -> Result<ByFile, AllocError>
        ensures { IfOk result (λ by_file. by_file ≡ []) }
    {
        Ok(ByFile {
            places: Vec::with_capacity(alloc, MOST_SLOTS)?,
        })
    }

    /// Where those stand who wait for this file, the first in front.
    pub(crate) fn part(&self, waiters: &[Waiter], file: &FileId) -> &[u16]
        requires { IsIndex (file_at waiters.now) (length waiters.now) self.now }
        ensures { result.now ≡ places_of (file_at waiters.now) file.now (below (length waiters.now)) }
    {
        let places = self.places.as_slice();
        let begin = places.partition_point(|place| is_before(waiters, *place, file));
        let rest = &places[begin..];
        &rest[..count_upto(rest, waiters, file)]
    }

    /// The waiter at this place, behind all that are known, is known too.
    pub(crate) fn add(&mut self, waiters: &[Waiter], place: usize)
        requires there { place < length waiters.now }
        requires few { length waiters.now ≤ MOST_SLOTS }
        requires before { IsIndex (file_at waiters.now) place self.old }
        ensures { IsIndex (file_at waiters.now) (place + 1) self.new }
    {
        let file = &waiters[place].wanted().file;
        let at = count_upto(self.places.as_slice(), waiters, file);
        self.places.push_reserved(place as u16);
        bring_last(self.places.as_mut_slice(), at);
    }

    /// Nobody stands at this place any more, and those behind it stand one place further in front.
    pub(crate) fn remove(&mut self, place: usize)
        ensures { self.new ≡ without_place place self.old }
    {
        self.places.retain(|other| usize::from(*other) != place);
        move_up(self.places.as_mut_slice(), place);
    }

    /// Some of so many waiters may be gone. Where one is, all are found anew.
    pub(crate) fn renew_after(&mut self, waiters: &[Waiter], before: usize)
        requires few { length waiters.now ≤ MOST_SLOTS }
        requires same { before ≤ length waiters.now → IsIndex (file_at waiters.now) (length waiters.now) self.old }
        ensures { IsIndex (file_at waiters.now) (length waiters.now) self.new }
    {
        if waiters.len() < before {
            self.renew(waiters);
        }
    }

    fn renew(&mut self, waiters: &[Waiter])
        requires { length waiters.now ≤ MOST_SLOTS }
        ensures { IsIndex (file_at waiters.now) (length waiters.now) self.new }
    {
        self.places.clear();
        for place in 0..waiters.len() {
            self.add(waiters, place);
        }
    }

    pub(crate) fn clear(&mut self)
        ensures { self.new ≡ [] }
    {
        self.places.clear();
    }
}

// The last place comes to stand here, in front of those that stood here.
fn bring_last(places: &mut [u16], at: usize)
    requires { at < length places.old }
    ensures { (ps : List ℕ) (p : ℕ) → places.old ≡ ps ++ p ∷ [] → places.new ≡ take at ps ++ p ∷ drop at ps }
{
    places[at..].rotate_right(1);
}

// The places behind this one are one less.
fn move_up(places: &mut [u16], place: usize)
    ensures { places.new ≡ map (moved_up place) places.old }
{
    for other in places.iter_mut() {
        *other = moved_up(*other, place);
    }
}

fn moved_up(other: u16, place: usize) -> u16
    ensures { result ≡ moved_up place other }
{
    if usize::from(other) > place {
        other - 1
    } else {
        other
    }
}

// How the file that the waiter at this place waits for stands to another. Where nobody stands, as one of no bytes.
#[tactic(auto, unfolding(range_table::specs::File::file_cmp))]
fn order_at(waiters: &[Waiter], place: u16, file: &FileId) -> Ordering
    ensures { result ≡ file_cmp (file_at waiters.now place) file.now }
{
    match waiters.get(usize::from(place)) {
        Some(waiter) => waiter.wanted().file.order(file),
        None => NO_BYTES.cmp(file.as_bytes()),
    }
}

fn is_before(waiters: &[Waiter], place: u16, file: &FileId) -> bool
    ensures { result ≡ is_lt (file_cmp (file_at waiters.now place) file.now) }
{
    order_at(waiters, place, file).is_lt()
}

fn is_upto(waiters: &[Waiter], place: u16, file: &FileId) -> bool
    ensures { result ≡ is_le (file_cmp (file_at waiters.now place) file.now) }
{
    order_at(waiters, place, file).is_le()
}

// How many in front wait for this file or for one before it. Often nobody does, and then only the first is looked at.
fn count_upto(places: &[u16], waiters: &[Waiter], file: &FileId) -> usize
    requires { AreByFile (file_at waiters.now) places.now }
    ensures bound { result ≤ length places.now }
    ensures point { IsPoint (λ p. is_le (file_cmp (file_at waiters.now p) file.now)) places.now result }
{
    match places.first() {
        Some(place) if is_upto(waiters, *place, file) => {
            places.partition_point(|place| is_upto(waiters, *place, file))
        }
        _ => 0,
    }
}
