//! How keys are hashed.

ghost use Rattle.std.specs.Prelude.{◌≡◌, ℕ, List};
ghost use Rattle.pipe_rows.specs.Fnv.{fnv1a};

/// What hashes a key. Equal keys have equal hashes, and nothing else rests on them.
pub trait KeyHasher: Copy + Send + Sync + Drop {
    /// The hash of a key, which is below 2^64.
    ghost hash_of: { Self → List ℕ → ℕ };

    /// Hashes a key.
    fn hash(&self, key: &[u8]) -> u64
        ensures { result ≡ hash_of self.now key.now };
}

/// FNV-1a on 64 bits.
#[derive(Clone, Copy, Debug)]
pub struct Fnv;

/// The hash of no byte.
const OFFSET_BASIS: u64 = 14_695_981_039_346_656_037;

/// What each step multiplies by.
const PRIME: u64 = 1_099_511_628_211;

impl KeyHasher for Fnv {
    ghost hash_of = { λ _ key. fnv1a key };

    fn hash(&self, key: &[u8]) -> u64 {
        let mut hash = OFFSET_BASIS;
        for byte in key {
            hash = (hash ^ u64::from(*byte)).wrapping_mul(PRIME);
        }
        hash
    }
}

/// One hash for all keys, so that every key collides.
#[derive(Clone, Copy, Debug)]
pub struct ConstHash {
    /// The hash of every key.
    pub value: u64,
}

impl KeyHasher for ConstHash {
    ghost hash_of = { λ hasher _. hasher.value };

    fn hash(&self, _key: &[u8]) -> u64 {
        self.value
    }
}
