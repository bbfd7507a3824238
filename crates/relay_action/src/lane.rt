//! The lane of a document.
ghost use Rattle.std.specs.Prelude.{◌≡◌, ◌≤◌, ◌<◌, fold};
ghost use Rattle.relay_action.specs.Lanes.{fnv_step, lane_of_document};

use crate::key::DocKey;

/// The offset basis of 64-bit FNV-1a.
const OFFSET_BASIS: u64 = 14_695_981_039_346_656_037;

/// The prime of 64-bit FNV-1a.
const PRIME: u64 = 1_099_511_628_211;

fn mix_byte(hash: u64, byte: u8) -> u64
    ensures { result ≡ fnv_step hash byte }
{
    (hash ^ u64::from(byte)).wrapping_mul(PRIME)
}

fn mix(hash: u64, bytes: &[u8]) -> u64
    ensures { result ≡ fold fnv_step hash bytes.now }
{
    let mut mixed = hash;
    for byte in bytes {
        mixed = mix_byte(mixed, *byte);
    }
    mixed
}

/// The lane of a document, from 0, if there are `lanes` lanes: 64-bit FNV-1a over the bytes of the
/// index name, the byte 255 and the bytes of the id, modulo `lanes`. It does not allocate.
pub fn lane_of(key: &DocKey, lanes: u32) -> u32
    requires some { 1 ≤ lanes }
    requires most { lanes ≤ 8 }
    ensures value { result ≡ lane_of_document key.now lanes }
    ensures bound { result < lanes }
{
    let index = mix(OFFSET_BASIS, key.index().as_bytes());
    let hash = mix(mix_byte(index, 255), key.id().as_bytes());
    (hash % u64::from(lanes)) as u32
}
