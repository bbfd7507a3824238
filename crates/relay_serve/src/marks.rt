//! Which request has written a document last, of the documents that were written lately.
use relay_action::{Action, DocKey};
use std::alloc::{AllocError, Global};
use std::sync::atomic::{AtomicU64, Ordering};

// How many sets of words there are, and how many words a set has: they lie in one line of a
// processor's cache.
const SETS: u64 = 65_536;

const WAYS: usize = 8;

// The low bits of a word are the number of a request, and the others are those of the hash of a
// document. A word that is 0 is of none.
const NUMBER: u64 = (1 << 40) - 1;

// The offset basis and the prime of 64-bit FNV-1a.
const OFFSET_BASIS: u64 = 14_695_981_039_346_656_037;

const PRIME: u64 = 1_099_511_628_211;

// The first factor of the finalizer of MurmurHash3, by which each bit of a hash changes the others.
const FACTOR: u64 = 18_397_679_294_719_823_053;

/// The number of a request, from 1, and the hashes of the documents that it writes. The number 0 is of
/// none.
#[derive(Drop)]
pub(crate) struct Marks {
    pub(crate) number: u64,
    hashes: Vec<u64>,
}

impl Marks {
    /// Of no request.
    pub(crate) fn none(alloc: Global) -> Marks {
        Marks {
            number: 0,
            hashes: Vec::new(alloc),
        }
    }

    /// One more of it. `AllocError`: allocation failed.
    pub(crate) fn copy(&self, alloc: Global) -> Result<Marks, AllocError> {
        let mut hashes = Vec::new(alloc);
        hashes.extend_from_slice(self.hashes.as_slice())?;
        Ok(Marks {
            number: self.number,
            hashes,
        })
    }
}

/// The numbers of the requests that have written documents last. A request stores its own for each of
/// its documents before it puts them, and looks at them before it is answered: where it finds another
/// one, it clears both. So where its number still is, no other request that was answered since has put
/// that document after it.
///
/// A document has its place among the eight words of one set, so up to 524,288 documents have one; of
/// those of a set the one that was written first gives way to another. Two documents are told apart by 40
/// bits of their hashes. A document that has lost its place, or is taken for another one, counts as one that
/// another request has written.
#[derive(Drop)]
pub(crate) struct Writers {
    alloc: Global,
    words: Vec<AtomicU64>,
    next: AtomicU64,
}

fn mix(hash: u64, bytes: &[u8]) -> u64 {
    let mut mixed = hash;
    for byte in bytes {
        mixed = (mixed ^ u64::from(*byte)).wrapping_mul(PRIME);
    }
    mixed
}

fn hash_of(key: &DocKey) -> u64 {
    let index = mix(mix(OFFSET_BASIS, key.index().as_bytes()), &[255]);
    let hash = mix(index, key.id().as_bytes());
    let folded = (hash ^ (hash >> 33)).wrapping_mul(FACTOR);
    folded ^ (folded >> 33)
}

// The word for a document with this hash, and a request with this number.
fn word_of(hash: u64, number: u64) -> u64 {
    (hash & !NUMBER) | (number & NUMBER)
}

// Whether a word is of a document with this hash.
fn is_of(word: u64, hash: u64) -> bool {
    word != 0 && (word ^ hash) & !NUMBER == 0
}

impl Writers {
    /// No request has written anything. `AllocError`: allocation failed.
    pub(crate) fn new(alloc: Global) -> Result<Writers, AllocError> {
        let mut words = Vec::new(alloc);
        for _ in 0..SETS * WAYS as u64 {
            words.push(AtomicU64::new(0))?;
        }
        Ok(Writers {
            alloc,
            words,
            next: AtomicU64::new(1),
        })
    }

    // The words among which a document with this hash has its place.
    fn set(&self, hash: u64) -> &[AtomicU64] {
        let first = (hash % SETS) as usize * WAYS;
        self.words
            .as_slice()
            .get(first..first + WAYS)
            .unwrap_or_default()
    }

    // The request with this number is the last one that is to write this document.
    fn store(&self, hash: u64, number: u64) {
        let mut place = None;
        let mut oldest = (0, u64::MAX);
        let set = self.set(hash);
        for (at, word) in set.iter().enumerate() {
            let found = word.load(Ordering::SeqCst);
            if is_of(found, hash) {
                if place.is_some() {
                    word.store(0, Ordering::SeqCst);
                } else {
                    place = Some(at);
                }
            } else if found & NUMBER < oldest.1 {
                oldest = (at, found & NUMBER);
            }
        }
        if let Some(word) = set.get(place.unwrap_or(oldest.0)) {
            word.store(word_of(hash, number), Ordering::SeqCst);
        }
    }

    // Whether it still is.
    fn is_last(&self, hash: u64, number: u64) -> bool {
        let own = word_of(hash, number);
        let mut is_there = false;
        for word in self.set(hash) {
            let found = word.load(Ordering::SeqCst);
            if is_of(found, hash) {
                if found != own {
                    return false;
                }
                is_there = true;
            }
        }
        is_there
    }

    // No request is the last one that has written this document.
    fn clear(&self, hash: u64) {
        for word in self.set(hash) {
            if is_of(word.load(Ordering::SeqCst), hash) {
                word.store(0, Ordering::SeqCst);
            }
        }
    }

    /// One more request is to put these writes. `AllocError`: allocation failed.
    pub(crate) fn mark(&self, writes: &[(DocKey, Action)]) -> Result<Marks, AllocError> {
        let mut hashes = Vec::with_capacity(self.alloc, writes.len())?;
        let number = self.next.fetch_add(1, Ordering::SeqCst);
        for (key, _) in writes {
            let hash = hash_of(key);
            self.store(hash, number);
            hashes.push(hash)?;
        }
        Ok(Marks { number, hashes })
    }

    /// A request has put its writes, and is not answered yet.
    pub(crate) fn look_after(&self, marks: &Marks) {
        for hash in &marks.hashes {
            if !self.is_last(*hash, marks.number) {
                self.clear(*hash);
            }
        }
    }

    /// Whether no other request that was answered has put one of the documents after this one.
    pub(crate) fn are_last(&self, marks: &Marks) -> bool {
        for hash in &marks.hashes {
            if !self.is_last(*hash, marks.number) {
                return false;
            }
        }
        true
    }
}
