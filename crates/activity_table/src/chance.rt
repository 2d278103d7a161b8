//! What a run of an activity is given for chance.

ghost use Rattle.std.specs.Prelude.{◌≡◌};
ghost use Rattle.activity_table.specs.Chance.{word_of};

use byteorder::{BigEndian, ByteOrder};
use dura_value::fnv1a_64;

/// The word that a run of an activity is given: the digest of the seed, the node and the number of the run on it.
pub fn word(seed: u64, node: u64, run: u64) -> u64
    ensures { result ≡ word_of seed node run }
{
    let mut bytes = [0u8; 24];
    BigEndian::write_u64(&mut bytes[..8], seed);
    BigEndian::write_u64(&mut bytes[8..16], node);
    BigEndian::write_u64(&mut bytes[16..], run);
    fnv1a_64(&bytes)
}
