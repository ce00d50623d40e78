//! What is found of a resource that can be read.

use crate::place::Span;
use crate::reference::FoundName;
use mac_base::resource::{ResAttrs, ResType};

/// A resource that can be read: what its reference says, and where it and the resource's bytes are in the fork.
#[derive(Clone, Copy, Debug, PartialEq, Eq)]
pub struct FoundRow {
    pub kind: ResType,
    pub id: i16,
    pub name: FoundName,
    pub attributes: ResAttrs,
    /// Where the reference is in the fork.
    pub reference: usize,
    pub bytes: Span,
}
