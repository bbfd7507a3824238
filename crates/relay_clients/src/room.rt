//! How many bytes of requests are open: the room that all connections share, each connection's
//! share of it, and what a connection has read beside its share.
//!
//! The room is two words that threads change in single steps: the sum of all shares, and whether
//! one of them goes beyond the room. What holds of them between any two steps is `IsKept`. A share
//! knows its own part of that by a token of `atomic_table`, which takes no bytes.
ghost use Rattle.std.specs.Prelude.{◌≡◌, ℕ, ◌+◌, ◌-◌, ◌^◌, ◌<◌, ◌≤◌, Bool, true, false, IfOk, IfSome, IsTrue, IsFalse, min, max, nat_lt};
ghost use Rattle.std.specs.Arc.{arc_value};
ghost use Rattle.relay_clients.specs.Room.{RoomView, ShareView, SumIsLimited, share_of, stake};
ghost use Rattle.relay_clients.specs.declared.room.TheConstants.{FREE, PIECE, PORTION, LARGEST};

use atomic_table::{Play, Seat, Table, TableRule};
use std::alloc::{AllocError, Global};
use std::marker::Model;
use std::sync::Arc;
use std::sync::atomic::{AtomicU64, Ordering};

/// As many bytes of each request take no room: its head, and the body of a small one.
pub const FREE: u64 = 16_384;

/// As many bytes may be read before there is room for them.
pub const PIECE: u64 = 8_192;

/// Room is taken in portions of so many bytes.
pub const PORTION: u64 = 65_536;

/// The largest share, in bytes. A request that takes more is refused: nothing else limits a chunked
/// body as it is sent, since the size of a chunk may begin with any number of zeros.
pub const LARGEST: u64 = 1_073_741_824;

// How often a share tries to grow while others change the sum. After that it finds no room, and is
// looked at again soon.
const TRIES: u32 = 64;

/// What the token of a share knows. No value of it is made.
pub struct Stake {
    /// How many bytes it has.
    pub bytes: u64,
    /// Whether it may grow although there is no room.
    pub is_beyond: bool,
    /// How many bytes the room has.
    pub most: u64,
}

// What holds of the room, whoever takes some of it and gives it back.
struct Shares;

impl TableRule<(), Stake, u64> for Shares {
    ghost use Rattle.relay_clients.specs.Room.{IsKept};

    ghost holds = { λ most s. IsKept LARGEST most s };

    ghost first = { λ most. stake 0 false most };
}

// What each step tells the share that makes it.
struct Looks;

impl Play<(), Stake> for Looks {
    ghost use Rattle.relay_clients.specs.Room.{looked};

    ghost then = { looked LARGEST };
}

struct Grows;

impl Play<(), Stake> for Grows {
    ghost use Rattle.relay_clients.specs.Room.{grown};

    ghost then = { grown };
}

struct Adds;

impl Play<(), Stake> for Adds {
    ghost use Rattle.relay_clients.specs.Room.{added};

    ghost then = { added };
}

struct GoesBeyond;

impl Play<(), Stake> for GoesBeyond {
    ghost use Rattle.relay_clients.specs.Room.{gone_beyond};

    ghost then = { gone_beyond };
}

struct Empties;

impl Play<(), Stake> for Empties {
    ghost use Rattle.relay_clients.specs.Room.{emptied};

    ghost then = { emptied };
}

struct ComesBack;

impl Play<(), Stake> for ComesBack {
    ghost use Rattle.relay_clients.specs.Room.{come_back};

    ghost then = { come_back };
}

#[derive(Drop)]
struct Counts {
    // The bytes of all shares, and whether one goes beyond the room.
    table: Table<(), Stake, u64, Shares, Global>,
    most: u64,
    // How many requests were refused.
    refused: AtomicU64,
    ghost words: { table.shared.table_id.words ≡ 2 },
    ghost key: { table.shared.key ≡ most },
    ghost fits: { most + LARGEST < 2 ^ 64 },
}

/// The room for the bytes of requests that were read and are not yet answered, on all connections,
/// beyond the first 16,384 of each request: so what is small is always read. Once the room is
/// taken, one connection at a time may take more, until its request is answered: so some request
/// always comes to its end. Contracts see how many bytes it has, and which room it is.
#[derive(Drop)]
pub struct Room {
    counts: Arc<Counts, Global>,
}

impl Model for Room {
    ghost Value = { RoomView };

    ghost view = { λ r. record { most = (arc_value r.counts).most; id = (arc_value r.counts).table.shared.table_id } };
}

// What a share has, and gives back once it is freed or dropped.
#[derive(Drop)]
struct Held {
    counts: Arc<Counts, Global>,
    seat: Seat<(), Stake>,
    bytes: u64,
    is_beyond: bool,
    ghost seated: { seat.table_id ≡ (arc_value counts).table.shared.table_id },
    ghost known: { seat.me.0 ≡ stake bytes is_beyond (arc_value counts).most },
    ghost small: { bytes ≤ LARGEST },
}

impl Model for Held {
    ghost Value = { ShareView };

    ghost view = { λ h. share_of (record { most = (arc_value h.counts).most; id = (arc_value h.counts).table.shared.table_id }) h.bytes h.is_beyond };
}

/// A connection's share of the room. It is free again once this is dropped. Contracts see it as a
/// `ShareView`.
pub struct Share {
    held: Held,
}

impl Model for Share {
    ghost Value = { ShareView };

    ghost view = { λ s. s.held };
}

impl Room {
    /// A room for `most` bytes, of which none is taken, or for as many as leave space for a largest
    /// share in 64 bits. `AllocError`: allocation failed.
    pub fn new(alloc: Global, most: u64) -> Result<Room, AllocError>
        ensures { IfOk result (λ r. r.most ≡ min most (2 ^ 64 - 1 - LARGEST)) }
    {
        let most = most.min(u64::MAX - LARGEST);
        let (table, _seat) = Table::of_words(alloc, &[0, 0], &most)?;
        let counts = Arc::new(
            alloc,
            Counts {
                table,
                most,
                refused: AtomicU64::new(0),
            },
        )?;
        Ok(Room { counts })
    }

    /// How many bytes all shares have: at most the room, and one largest share.
    pub fn open(&self) -> u64
        ensures { result ≤ self.now.most + LARGEST }
    {
        let (open, _seat) = self.counts.table.shared.load_new_seat::<Looks>(0);
        open
    }

    /// How many requests were refused since there was no room for long enough.
    pub fn refused(&self) -> u64 {
        self.counts.refused.load(Ordering::SeqCst)
    }

    /// One more handle. `AllocError`: there are too many.
    pub fn share(&self) -> Result<Room, AllocError>
        ensures { IfOk result (λ r. r ≡ self.now) }
    {
        Ok(Room {
            counts: Arc::try_clone(&self.counts)?,
        })
    }

    /// Whether a connection that waits may read on.
    pub(crate) fn has_some(&self) -> bool {
        let shared = &self.counts.table.shared;
        shared.peek(0).saturating_add(PORTION) <= self.counts.most || shared.peek(1) == 0
    }

    /// A share for one more connection, with no byte. `None`: there are too many.
    pub(crate) fn part(&self) -> Option<Share>
        ensures { IfSome result (λ s. s ≡ share_of self.now 0 false) }
    {
        let Ok(counts) = Arc::try_clone(&self.counts) else {
            return None;
        };
        let (_, seat) = counts.table.shared.load_new_seat::<Looks>(0);
        Some(Share {
            held: Held {
                counts,
                seat,
                bytes: 0,
                is_beyond: false,
            },
        })
    }
}

impl Held {
    // Takes so many bytes more of the room. Returns whether it did.
    fn grow(&mut self, more: u64) -> bool
        requires inside { self.old.is_beyond ≡ false }
        requires small { self.old.bytes + more ≤ LARGEST }
        ensures yes { IsTrue result → self.new ≡ share_of self.old.room (self.old.bytes + more) false }
        ensures no { IsFalse result → self.new ≡ self.old }
    {
        let most = self.counts.most;
        let mut seen = self.counts.table.shared.peek(0);
        for _ in 0..TRIES {
            if seen > most || more > most - seen {
                return false;
            }
            let found = self
                .counts
                .table
                .shared
                .compare_exchange::<Grows>(&mut self.seat, 0, seen, seen + more);
            if found == seen {
                self.bytes += more;
                return true;
            }
            seen = found;
        }
        false
    }

    // Takes so many bytes more beyond the room.
    fn grow_beyond(&mut self, more: u64)
        requires beyond { self.old.is_beyond ≡ true }
        requires small { self.old.bytes + more ≤ LARGEST }
        ensures { self.new ≡ share_of self.old.room (self.old.bytes + more) true }
    {
        self.counts
            .table
            .shared
            .fetch_add::<Adds>(&mut self.seat, 0, more);
        self.bytes += more;
    }

    // Goes beyond the room, if none does. Returns whether it does.
    fn go_beyond(&mut self) -> bool
        requires inside { self.old.is_beyond ≡ false }
        ensures { self.new ≡ share_of self.old.room self.old.bytes result }
    {
        let found = self
            .counts
            .table
            .shared
            .swap::<GoesBeyond>(&mut self.seat, 1, 1);
        self.is_beyond = found == 0;
        self.is_beyond
    }

    // Gives all of it back.
    fn free(&mut self)
        ensures { self.new ≡ share_of self.old.room 0 false }
    {
        if self.bytes > 0 {
            self.counts
                .table
                .shared
                .fetch_sub::<Empties>(&mut self.seat, 0, self.bytes);
            self.bytes = 0;
        }
        if self.is_beyond {
            self.come_back();
        }
    }

    // Goes beyond the room no more.
    fn come_back(&mut self)
        requires none { self.old.bytes ≡ 0 }
        requires beyond { self.old.is_beyond ≡ true }
        ensures { self.new ≡ share_of self.old.room 0 false }
    {
        self.counts
            .table
            .shared
            .store::<ComesBack>(&mut self.seat, 1, 0);
        self.is_beyond = false;
    }
}

impl Share {
    /// Has the share grow to so many bytes, if there is room, or else if it may go beyond. Returns
    /// whether it has as many.
    pub(crate) fn reach(&mut self, bytes: u64) -> bool
        requires { bytes ≤ LARGEST }
        ensures yes { IsTrue result → self.new.bytes ≡ max self.old.bytes bytes }
        ensures no { IsFalse result → self.new ≡ self.old }
        ensures same { self.new.room ≡ self.old.room }
    {
        let more = bytes.saturating_sub(self.held.bytes);
        if more == 0 {
            return true;
        }
        if !self.held.is_beyond {
            if self.held.grow(more) {
                return true;
            }
            if !self.held.go_beyond() {
                return false;
            }
        }
        self.held.grow_beyond(more);
        true
    }

    /// Gives all of it back.
    pub(crate) fn free(&mut self)
        ensures { self.new ≡ share_of self.old.room 0 false }
    {
        self.held.free();
    }

    /// A request is refused, since there was no room for long enough.
    pub(crate) fn refuse(&self) {
        self.held.counts.refused.fetch_add(1, Ordering::SeqCst);
    }
}

impl Drop for Share {
    fn drop(self) {
        let Share { mut held } = self;
        held.free();
    }
}

/// A law: whatever shares connections have, what they add up to is at most the room and one largest
/// share.
pub fn sum_is_limited()
    ensures { SumIsLimited }
{}

// So many bytes, rounded up to whole portions.
fn portions(bytes: u64) -> u64
    requires { bytes ≤ LARGEST }
    ensures { (bytes ≤ result) × (result < bytes + PORTION) × (result ≤ LARGEST) }
{
    bytes.div_ceil(PORTION) * PORTION
}

/// How many bytes were read of the request that has begun, with their share of the room: never more
/// than the share, `FREE` and a
/// `PIECE`.
#[derive(Drop)]
pub(crate) struct Intake {
    taken: u64,
    share: Share,
    ghost within: { taken ≤ FREE + PIECE + share.bytes },
    ghost small: { share.bytes ≤ LARGEST },
}

impl Intake {
    /// Nothing was read.
    pub(crate) fn new(share: Share) -> Intake
        ensures { (result.taken ≡ 0) × (result.share ≡ share_of share.room 0 false) }
    {
        let mut share = share;
        share.free();
        Intake { taken: 0, share }
    }

    /// Whether more was read than a share may have.
    pub(crate) fn is_too_large(&self) -> bool
        ensures { result ≡ nat_lt (FREE + LARGEST) self.now.taken }
    {
        self.taken > FREE + LARGEST
    }

    /// Takes room for what was read, in portions, and not for what is read next. Returns whether
    /// there is room: then a piece at least may be read.
    pub(crate) fn reach(&mut self) -> bool
        requires { self.old.taken ≤ FREE + LARGEST }
        ensures yes { IsTrue result → self.new.taken ≤ FREE + self.new.share.bytes }
        ensures portions { IsTrue result → self.new.share.bytes < max (self.old.share.bytes + 1) (self.old.taken + PORTION) }
        ensures no { IsFalse result → self.new ≡ self.old }
        ensures same { (self.new.taken ≡ self.old.taken) × (self.new.share.room ≡ self.old.share.room) }
    {
        let bytes = portions(self.taken.saturating_sub(FREE));
        self.share.reach(bytes)
    }

    /// How many bytes may be read now.
    pub(crate) fn ahead(&self) -> u64
        ensures { self.now.taken + result ≡ FREE + PIECE + self.now.share.bytes }
    {
        FREE + PIECE + self.share.held.bytes - self.taken
    }

    /// So many bytes were read.
    pub(crate) fn add(&mut self, count: u64)
        requires { self.old.taken + count ≤ FREE + PIECE + self.old.share.bytes }
        ensures { (self.new.taken ≡ self.old.taken + count) × (self.new.share ≡ self.old.share) }
    {
        self.taken += count;
    }

    /// What was read is answered, or dropped: its share is free.
    pub(crate) fn free(&mut self)
        ensures { (self.new.taken ≡ 0) × (self.new.share ≡ share_of self.old.share.room 0 false) }
    {
        self.taken = 0;
        self.share.free();
    }

    /// A request is refused, since there was no room for long enough.
    pub(crate) fn refuse(&self) {
        self.share.refuse();
    }
}
