//! The same text once more changes nothing.

ghost use Rattle.res_types.specs.Meaning.{IsSameAgain};

/// A value whose text is set to what it was has the bytes that it had. It computes nothing.
pub fn text_laws()
    ensures again { IsSameAgain }
{}
