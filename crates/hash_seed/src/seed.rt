ghost use Rattle.std.specs.Prelude.{◌≡◌};
ghost use Rattle.std.specs.Hash.DefaultHasher as sip;
ghost use Rattle.sha2.specs.Sha256.{sha256};

use sha2::{Digest, Sha256};
use std::hash::{BuildHasher, DefaultHasher, Hasher};

/// What the hashes of a run begin with. It is made of bytes, so that the same bytes make the same run.
#[derive(Clone, Copy)]
pub struct Seed {
    digest: [u8; 32],
}

impl Seed {
    /// The seed of bytes: their SHA-256 digest.
    pub fn of(bytes: &[u8]) -> Seed
        ensures { result.digest ≡ sha256 bytes.now }
    {
        Seed {
            digest: Sha256::digest(bytes),
        }
    }
}

/// Begins each hash with a seed. The hash is SipHash-1-3: the kit's own hasher multiplies, and some bytes collide
/// under it whatever the seed is.
#[derive(Clone, Copy)]
pub struct Seeded {
    start: DefaultHasher,
}

impl Seeded {
    /// Hashes that begin with the seed.
    pub fn new(seed: Seed) -> Seeded
        ensures { result.start ≡ sip.write sip.initial seed.digest }
    {
        let mut start = DefaultHasher::new();
        start.write(&seed.digest);
        Seeded { start }
    }
}

impl BuildHasher for Seeded {
    type Hasher = DefaultHasher;

    ghost build_hasher = { λ s. s.start };

    fn build_hasher(&self) -> DefaultHasher {
        self.start
    }
}
