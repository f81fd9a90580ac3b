//! A hasher for maps by the ends of segments, quicker than that of the library. Contracts of maps don't speak of it.

ghost use Rattle.std.specs.Prelude.{◌+◌, ◌*◌, ◌%◌, ◌^◌, fold};

use crate::tuning::SCATTERING;
use std::hash::{BuildHasher, Hasher};

/// What was written, as if at random. Its seed is fixed, so whoever chooses the input can choose ends with equal hashes.
#[derive(Copy, Clone)]
pub struct EndsHasher(u64);

impl EndsHasher {
    /// Nothing was written.
    pub fn new() -> Self {
        EndsHasher(0)
    }
}

impl Hasher for EndsHasher {
    ghost write = { λ s bytes. record {
      0 = ((s.0 * 11400714819323198485) % 2 ^ 64
          + fold (λ n b. ((n * 256) % 2 ^ 64 + b) % 2 ^ 64) 0 bytes) % 2 ^ 64;
    } };

    ghost finish = { λ s. (s.0 * 11400714819323198485) % 2 ^ 64 };

    #[inline(always)]
    fn finish(&self) -> u64 {
        self.0.wrapping_mul(SCATTERING)
    }

    #[inline(always)]
    fn write(&mut self, bytes: &[u8]) {
        let mut number: u64 = 0;
        for b in bytes {
            number = number.wrapping_mul(256).wrapping_add(*b as u64);
        }
        self.0 = self.0.wrapping_mul(SCATTERING).wrapping_add(number);
    }
}

impl BuildHasher for EndsHasher {
    type Hasher = EndsHasher;

    ghost build_hasher = { λ s. s };

    fn build_hasher(&self) -> EndsHasher {
        *self
    }
}
