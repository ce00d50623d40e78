//! What no file can do to a page.

ghost use Rattle.fork_page.specs.Laws.{HasNoOtherTags};

/// Whatever a file and its resources are called and have, it adds only tags of these elements, without their values: none of
/// them runs, and none leads elsewhere. It computes nothing.
pub fn page_law()
    ensures { HasNoOtherTags }
{}
