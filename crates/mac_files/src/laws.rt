//! What a file that is written as its format says is known as.

ghost use Rattle.mac_files.specs.Laws.{DoubleIsKnown, FrontIsKnown, MacBinaryIsKnown, RawIsKnown, SingleIsKnown};

/// AppleSingle, AppleDouble and MacBinary are known as what they are: none is taken for a resource fork or for another.
/// A file's first 128 bytes and its length show it.
pub fn container_laws()
    ensures single { SingleIsKnown }
    ensures double { DoubleIsKnown }
    ensures mac_binary { MacBinaryIsKnown }
    ensures front { FrontIsKnown }
    ensures raw { RawIsKnown }
{}
