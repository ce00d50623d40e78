//! The texts of a value.

ghost use Rattle.std.specs.Prelude.{◌≡◌, IfOk};
ghost use Rattle.res_types.specs.Meaning.{SetsText, is_text};

use crate::declaration::Declaration;
use crate::stop::Stop;
use crate::value::{Part, Text};
use std::alloc::Global;

impl Part {
    /// Whether it is a text.
    pub fn is_text(&self) -> bool
        ensures { result ≡ is_text self.now }
    {
        match self {
            Part::Text(_) => true,
            Part::Number(_) | Part::Elements(_) | Part::Case(_) => false,
        }
    }
}

impl Declaration {
    /// The bytes of a value that these bytes have, with another text in the place of the text that is the part with this
    /// number, from 0 on. `Unfit` comes where the bytes are none of the type, that part isn't a text, or the text can't
    /// be there, as one of 256 bytes in a `pstring`.
    pub fn with_text(
        &self,
        alloc: Global,
        bytes: &[u8],
        place: usize,
        text: &[u8],
    ) -> Result<Vec<u8>, Stop>
        ensures { IfOk result (λ new. SetsText self.now bytes.now place text.now new.items) }
    {
        let mut parts = self.decode(alloc, bytes)?;
        let text = Text::new(text.to_vec(alloc)?);
        if place >= parts.len() || !parts[place].is_text() {
            return Err(Stop::Unfit(parts.len()));
        }
        parts[place] = Part::Text(text);
        self.encode(alloc, &parts)
    }
}
