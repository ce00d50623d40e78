//! What hashes the names of a script.

ghost use Rattle.std.specs.Prelude.{[], ◌∷◌};
ghost use Rattle.std.specs.Cmp.Rules.{hashing};
ghost use Rattle.std.proofs.Common.{rules};

use std::hash::{BuildHasher, DefaultHasher, FoldHasher, Hash, Hasher};

/// A name as it is spelled. All its bytes are hashed at once, as those of a slice are not.
#[derive(Clone, Copy, PartialEq, Eq)]
pub struct Spelling<'a>(pub &'a [u8]);

impl<'a> Hash for Spelling<'a> {
    ghost hash_input = { λ s. s.0.now ∷ [] };

    ghost respects_eq = { Prim.search (hashing, rules) };

    fn hash<H: Hasher>(&self, state: &mut H) {
        state.write(self.0);
    }
}

/// Hashes the names of one script: by a fast hash, which begins with the SipHash of the script's whole text. So which
/// names collide follows from all that is in the script, the names themselves among it. Nothing is promised of how many
/// do.
#[derive(Clone, Copy)]
pub struct NameHasher {
    start: FoldHasher,
}

impl NameHasher {
    /// What hashes the names of a script.
    pub fn new(text: &[u8]) -> NameHasher {
        let mut whole = DefaultHasher::new();
        whole.write(text);
        let mut start = FoldHasher::default();
        start.write_u64(whole.finish());
        NameHasher { start }
    }
}

impl BuildHasher for NameHasher {
    type Hasher = FoldHasher;

    ghost build_hasher = { λ hasher. hasher.start };

    fn build_hasher(&self) -> FoldHasher {
        self.start
    }
}
