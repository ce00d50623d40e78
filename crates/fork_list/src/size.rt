//! How many bytes a resource has.

ghost use Rattle.fork_list.specs.Compressed.{unpacked_length};

use crate::compressed::unpacked_length;
use fork_bytes::place::Place;
use fork_bytes::table::Contents;
use mac_base::resource::ResAttrs;

/// What says how many bytes a resource has: these bytes, or where they are in a fork.
pub trait HasSize {
    ghost use Rattle.std.specs.Prelude.{◌≡◌, ℕ, Option};

    ghost size: { Self → ℕ };

    ghost unpacked: { ℕ → Self → Option ℕ };

    /// How many bytes there are.
    fn size(&self) -> usize
        ensures { result ≡ size self.now };

    /// How many bytes a compressed resource of these attributes has unpacked. None of another, and where the bytes
    /// aren't at hand.
    fn unpacked(&self, attributes: ResAttrs) -> Option<usize>
        ensures { result ≡ unpacked attributes.0 self.now };
}

impl HasSize for Contents<'_> {
    ghost use Rattle.std.specs.Prelude.{length};

    ghost size = { λ bytes. length bytes };

    ghost unpacked = { λ attributes bytes. unpacked_length attributes bytes };

    fn size(&self) -> usize {
        self.as_slice().len()
    }

    fn unpacked(&self, attributes: ResAttrs) -> Option<usize> {
        unpacked_length(attributes, self.as_slice())
    }
}

impl HasSize for Place {
    ghost use Rattle.std.specs.Prelude.{None};

    ghost size = { λ place. place.length };

    ghost unpacked = { λ _ _. None };

    fn size(&self) -> usize {
        self.length as usize
    }

    fn unpacked(&self, _attributes: ResAttrs) -> Option<usize> {
        None
    }
}
