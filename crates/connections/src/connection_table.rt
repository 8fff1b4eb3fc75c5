//! The connections that are open.
ghost use Rattle.std.specs.Prelude.{◌≡◌, ◌≤◌, ◌<◌, ◌+◌, ◌^◌, ◌⊎◌, true, false, length, map, not, count_by, position, IfOk, IfSome, IfNone};
ghost use Rattle.connections.specs.Seats.{is_free, is_of, is_from, lends, with_lent, taken_by, left_by, with_place, lent_at, place_of, HasPlace, count_from, is_full_for, with_one, closed, admitted};

use crate::connection::Connection;
use crate::peer_address::PeerAddress;
use std::alloc::{AllocError, Global};
use std::marker::Model;
use std::net::TcpStream;
use std::sync::Arc;
use std::time::Duration;

// A connection that has a place, and the address of its peer.
#[derive(Drop)]
struct Held {
    connection: Arc<Connection, Global>,
    peer: PeerAddress,
}

impl Model for Held {
    ghost use Rattle.connections.specs.Seats.{Holder};

    ghost Value = { Holder };

    ghost view = { λ h. record { number = h.connection.value; peer = h.peer } };
}

// A place, and what is lent to whoever serves its connection.
#[derive(Drop)]
struct ConnectionPlace<K> {
    held: Option<Held>,
    lent: Option<K>,
}

impl<K> Model for ConnectionPlace<K> {
    ghost use Rattle.connections.specs.Seats.{Seat};

    ghost Value = { Seat K };

    ghost view = { λ p. record { holder = p.held; lent = p.lent } };
}

impl<K> ConnectionPlace<K> {
    // Whether no connection has it.
    fn is_free(&self) -> bool
        ensures { result ≡ is_free self.now }
    {
        self.held.is_none()
    }

    // Whether a connection from this address has it.
    fn is_from(&self, peer: PeerAddress) -> bool
        ensures { result ≡ is_from peer self.now }
    {
        match &self.held {
            Some(held) => held.peer.bits() == peer.bits(),
            None => false,
        }
    }

    // Whether the connection of this number has it.
    fn is_of(&self, number: u64) -> bool
        ensures { result ≡ is_of number self.now }
    {
        match &self.held {
            Some(held) => held.connection.number() == number,
            None => false,
        }
    }

    // The connection of this number has ended. Another one keeps the place.
    fn leave(&mut self, number: u64)
        ensures { self.new ≡ left_by number self.old }
    {
        if self.is_of(number) {
            self.held = None;
        }
    }
}

/// The connections that are open, each at a place of its own, which lends something to whoever serves it. There are as many
/// places as it was made with, and of one address no more connections than it was made with, where that is limited. Contracts see
/// them: the number of the connection that has a place, the address of its peer, and what the place lends; the least number that a
/// further connection can have; how many of one address may be open; and whether the connection table is closed.
#[derive(Drop)]
pub struct ConnectionTable<K> {
    alloc: Global,
    places: Vec<ConnectionPlace<K>>,
    // A multiple of how many places there are. A connection's number is that and the index of its place.
    next: u64,
    is_closed: bool,
    most_of_one: Option<u16>,
}

impl<K> Model for ConnectionTable<K> {
    ghost use Rattle.connections.specs.Seats.{Seats, IsSeated, IsShared};

    ghost Value = { Seats K };

    ghost view = { λ r. record { next = r.next; is_closed = r.is_closed; most = r.most_of_one; places = r.places.items } };

    ghost invariant = { λ r. IsSeated r.next r.places.items × IsShared r.most_of_one r.places.items };
}

// The index of the first place that is free.
fn first_free<K>(places: &[ConnectionPlace<K>]) -> Option<usize>
    ensures { result ≡ position is_free places.now }
{
    places.iter().position(|place| place.is_free())
}

// How many connections from this address are open.
fn count_from<K>(places: &[ConnectionPlace<K>], peer: PeerAddress) -> usize
    ensures { result ≡ count_from peer places.now }
{
    places.iter().filter(|place| place.is_from(peer)).count()
}

// What the place of this index lends. It lends nothing then.
fn take_at<K>(places: &mut [ConnectionPlace<K>], index: usize) -> Option<K>
    ensures lent { result ≡ lent_at index places.old }
    ensures places { places.new ≡ with_place (with_lent None) index places.old }
{
    if index >= places.len() {
        return None;
    }
    let place = &mut places[index];
    place.lent.take()
}

// The place of this index lends this.
fn put_at<K: Drop>(places: &mut [ConnectionPlace<K>], index: usize, lent: K)
    ensures { places.new ≡ with_place (with_lent (Some lent)) index places.old }
{
    if index < places.len() {
        let place = &mut places[index];
        place.lent = Some(lent);
    }
}

// The connection of this number has ended, if it is the one at the place of this index.
fn leave_at<K>(places: &mut [ConnectionPlace<K>], index: usize, number: u64)
    ensures { places.new ≡ with_place (left_by number) index places.old }
{
    if index < places.len() {
        let place = &mut places[index];
        place.leave(number);
    }
}

// The place of this index is the connection's.
fn seat_at<K>(places: &mut [ConnectionPlace<K>], index: usize, held: Held)
    ensures { places.new ≡ with_place (taken_by held) index places.old }
{
    if index < places.len() {
        let place = &mut places[index];
        place.held = Some(held);
    }
}

// The connection, twice: for its place, and for whoever serves it.
fn open(
    alloc: Global,
    number: u64,
    stream: TcpStream,
    idle: Option<Duration>,
) -> Option<(Arc<Connection, Global>, Arc<Connection, Global>)>
    ensures { IfSome result (λ c. (c.0.value ≡ number) × (c.1.value ≡ number)) }
{
    let Ok(connection) = Connection::new(number, stream, idle) else {
        return None;
    };
    let ours = Arc::new(alloc, connection).ok()?;
    match Arc::try_clone(&ours) {
        Ok(theirs) => Some((ours, theirs)),
        Err(_) => None,
    }
}

impl<K: Drop> ConnectionTable<K> {
    /// With a place for each of these, which it lends. No place is added later: a connection is found by how many there are.
    /// `most_of_one` is how many connections from one address may be open; with `None` as many as there are places. Refused: there
    /// is no memory for the places.
    pub fn new(
        alloc: Global,
        lent: Vec<K>,
        most_of_one: Option<u16>,
    ) -> Result<ConnectionTable<K>, AllocError>
        ensures { IfOk result (λ connection_table. connection_table ≡ record { next = 0; is_closed = false; most = most_of_one; places = map lends lent.items }) }
    {
        let mut places = Vec::new(alloc);
        for lent in lent {
            places.push(ConnectionPlace {
                held: None,
                lent: Some(lent),
            })?;
        }
        Ok(ConnectionTable {
            alloc,
            places,
            next: 0,
            is_closed: false,
            most_of_one,
        })
    }

    /// How many places there are.
    pub fn places(&self) -> usize
        ensures { result ≡ length self.now.places }
    {
        self.places.len()
    }

    /// How many connections from this address are open.
    pub fn count_from(&self, peer: PeerAddress) -> usize
        ensures { result ≡ count_from peer self.now.places }
    {
        count_from(&self.places, peer)
    }

    // Whether as many are open from this address as may be.
    fn is_full_for(&self, peer: PeerAddress) -> bool
        ensures { result ≡ is_full_for peer self.now }
    {
        match self.most_of_one {
            Some(most) => self.count_from(peer) >= usize::from(most),
            None => false,
        }
    }

    // The first place that is free, the number that a connection from this address has there, and the least that a further one can
    // have. `None` also where numbers are used up.
    fn find_free(&self, peer: PeerAddress) -> Option<(usize, u64, u64)>
        ensures place { IfSome result (λ free. (self.now.is_closed ≡ false) × (position is_free self.now.places ≡ Some free.0)) }
        ensures shared { IfSome result (λ _. is_full_for peer self.now ≡ false) }
        ensures number { IfSome result (λ free. free.1 ≡ self.now.next + free.0) }
        ensures later { IfSome result (λ free. free.2 ≡ self.now.next + length self.now.places) }
        ensures none { IfNone result ((admitted peer self.now ≡ None) ⊎ (2 ^ 64 ≤ self.now.next + length self.now.places)) }
    {
        if self.is_closed || self.is_full_for(peer) {
            return None;
        }
        let place = first_free(&self.places)?;
        let later = self.next.checked_add(self.places.len() as u64)?;
        Some((place, self.next + place as u64, later))
    }

    /// Takes the stream of a peer at this address in, at the first place that is free and under a number that none had before.
    /// `None` where no place is free, as many connections from the address are open as may be, the connection table is closed, the
    /// socket fails, memory is wanting, or all numbers below 2^64 are used up; nothing changes, and the stream is closed then. `idle`
    /// is how long its reads wait.
    pub fn admit(
        &mut self,
        stream: TcpStream,
        peer: PeerAddress,
        idle: Option<Duration>,
    ) -> Option<Arc<Connection, Global>>
        ensures admitted { IfSome result (λ c. admitted peer self.old ≡ Some (c.value, self.new)) }
        ensures refused { IfNone result (self.new ≡ self.old) }
        ensures seated { IfSome result (λ c. HasPlace c.value self.new) }
        ensures fresh { IfSome result (λ c. (self.old.next ≤ c.value) × (c.value < self.new.next)) }
        ensures later { self.old.next ≤ self.new.next }
    {
        let Some((place, number, later)) = self.find_free(peer) else {
            drop(stream);
            return None;
        };
        match open(self.alloc, number, stream, idle) {
            Some((connection, theirs)) => {
                self.next = later;
                seat_at(&mut self.places, place, Held { connection, peer });
                Some(theirs)
            }
            None => None,
        }
    }

    // The index of the place that the connection of this number has or had.
    fn place_of(&self, number: u64) -> usize
        ensures { result ≡ place_of number self.now }
    {
        match number.checked_rem(self.places.len() as u64) {
            Some(place) => place as usize,
            // There is no place at all.
            None => number as usize,
        }
    }

    // The connection of this number, if it has its place.
    fn held(&self, number: u64) -> Option<&Arc<Connection, Global>>
        ensures held { IfSome result (λ c. (c.now.value ≡ number) × HasPlace number self.now) }
        ensures gone { IfNone result (¬ HasPlace number self.now) }
    {
        let index = self.place_of(number);
        let place = self.places.get(index)?;
        let found = place.held.as_ref()?;
        if found.connection.number() == number {
            Some(&found.connection)
        } else {
            None
        }
    }

    /// The connection of this number. `None` where it has no place any more, or one more reference to it can't be had.
    pub fn find(&self, number: u64) -> Option<Arc<Connection, Global>>
        ensures found { IfSome result (λ c. c.value ≡ number) }
        ensures seated { IfSome result (λ _. HasPlace number self.now) }
    {
        Arc::try_clone(self.held(number)?).ok()
    }

    /// How many connections have a place.
    pub fn count(&self) -> usize
        ensures { result ≡ count_by (λ s. not (is_free s)) self.now.places }
    {
        self.places.iter().filter(|place| !place.is_free()).count()
    }

    /// Lends what the place of the connection of this number lends, until that is given back: it lends nothing then.
    pub fn lend(&mut self, number: u64) -> Option<K>
        ensures lent { result ≡ lent_at (place_of number self.old) self.old.places }
        ensures after { self.new ≡ with_one (with_lent None) (place_of number self.old) self.old }
    {
        let index = self.place_of(number);
        take_at(&mut self.places, index)
    }

    /// The place of the connection of this number lends this from now on.
    pub fn give_back(&mut self, number: u64, lent: K)
        ensures { self.new ≡ with_one (with_lent (Some lent)) (place_of number self.old) self.old }
    {
        let index = self.place_of(number);
        put_at(&mut self.places, index, lent);
    }

    /// The connection of this number has ended, and its place is free. Where another one has that place by now it keeps it, so
    /// a late call takes nobody's place away.
    pub fn leave(&mut self, number: u64)
        ensures { self.new ≡ with_one (left_by number) (place_of number self.old) self.old }
    {
        let index = self.place_of(number);
        leave_at(&mut self.places, index, number);
    }

    /// Ends reading on every connection, and takes none in any more.
    pub fn close(&mut self)
        ensures { self.new ≡ closed self.old }
    {
        self.is_closed = true;
        for place in self.places.iter() {
            if let Some(held) = &place.held {
                held.connection.end_reading();
            }
        }
    }

    /// Takes what the place of this index lends, from 0, once nobody serves. It lends nothing then.
    pub fn take(&mut self, index: usize) -> Option<K>
        ensures lent { result ≡ lent_at index self.old.places }
        ensures after { self.new ≡ with_one (with_lent None) index self.old }
    {
        take_at(&mut self.places, index)
    }
}
