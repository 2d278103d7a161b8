//! FNV-1a of 64 bits (Fowler, Noll and Vo).

ghost use Rattle.std.specs.Prelude.{◌≡◌, fold};
ghost use Rattle.dura_value.specs.Digest.{fnv1a_64, fnv_byte};

/// The digest of no byte.
pub(crate) const BASIS: u64 = 0xcbf2_9ce4_8422_2325;

const PRIME: u64 = 0x100_0000_01b3;

/// The digest goes on over bytes.
pub(crate) fn goes_on(hash: u64, bytes: &[u8]) -> u64
    ensures { result ≡ fold fnv_byte hash bytes.now }
{
    let mut hash = hash;
    for byte in bytes {
        hash = (hash ^ *byte as u64).wrapping_mul(PRIME);
    }
    hash
}

/// The digest of bytes.
pub fn fnv1a_64(bytes: &[u8]) -> u64
    ensures { result ≡ fnv1a_64 bytes.now }
{
    goes_on(BASIS, bytes)
}
