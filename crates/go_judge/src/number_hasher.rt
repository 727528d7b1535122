// Tables by numbers that are given out one after another.
ghost use Rattle.std.specs.Prelude.{◌≡◌};
ghost use Rattle.std.specs.List.{fold};
ghost use Rattle.go_judge.specs.NumberHasher.{byte_in, spread};

use std::hash::{BuildHasher, Hasher};

/// A hasher for the numbers of objects and nodes, which are given out one after another: those near each other get
/// places near each other, so that a table that is read in their order is read from one end to the other. It has no
/// seed, as the kit's own has none: a file that is made for it can have many numbers at one place.
#[derive(Clone, Copy)]
pub struct NumberHasher(u64);

impl NumberHasher {
    /// The hasher before any byte.
    pub fn new() -> NumberHasher
        ensures { result.0 ≡ 0 }
    {
        NumberHasher(0)
    }
}

impl Hasher for NumberHasher {
    ghost write = { λ hasher bytes. record { 0 = fold byte_in hasher.0 bytes } };

    ghost finish = { λ hasher. spread hasher.0 };

    fn finish(&self) -> u64 {
        let tag = self.0.wrapping_mul(0x9e37_79b9_7f4a_7c15) >> 56;
        self.0 / 4 % (1 << 24) + tag * (1 << 24)
    }

    fn write(&mut self, bytes: &[u8]) {
        for byte in bytes {
            self.0 = self.0 / 256 + *byte as u64 * (1 << 56);
        }
    }
}

impl BuildHasher for NumberHasher {
    type Hasher = NumberHasher;

    ghost build_hasher = { λ hasher. hasher };

    fn build_hasher(&self) -> NumberHasher {
        *self
    }
}
