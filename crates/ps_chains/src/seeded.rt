// Hashing by a seed.
use std::hash::{BuildHasher, DefaultHasher, Hasher};

/// Hashes by a seed that no stranger knows, so that who chooses names cannot choose their hashes. No answer depends on it.
#[derive(Clone, Copy)]
pub struct Seeded {
    pub seed: u64,
}

impl BuildHasher for Seeded {
    ghost use Rattle.ps_chains.specs.Seeding.{begun};

    type Hasher = DefaultHasher;

    ghost build_hasher = { λ s. begun s.seed };

    #[tactic(auto, unfolding(crate::specs::Seeding::begun))]
    fn build_hasher(&self) -> DefaultHasher {
        let mut hasher = DefaultHasher::new();
        hasher.write_u64(self.seed);
        hasher
    }
}
