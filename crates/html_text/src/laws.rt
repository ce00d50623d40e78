//! What a reader finds of what is written.

ghost use Rattle.html_text.specs.Reader.{IsNoMarkup, IsOneTag};

/// A reader finds each text as it was, and no tag in it. It computes nothing.
#[tactic(auto, using(crate::proofs::Reading::no_markup))]
pub fn text_law()
    ensures { IsNoMarkup }
{}

/// A reader finds each tag, whatever the values in it are. It computes nothing.
#[tactic(auto, using(crate::proofs::Reading::one_tag))]
pub fn tag_law()
    ensures { IsOneTag }
{}
