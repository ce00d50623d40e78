//! What a file that is written is known as.

ghost use Rattle.mac_write.specs.Laws.{DoubleIsKnown, SingleIsKnown};
ghost use Rattle.mac_write.specs.Lost.{NothingIsLost};

/// What is written as AppleSingle or AppleDouble is known as that, whatever the file is. A container holds all of a
/// file of which nothing is lost. It computes nothing.
pub fn written_laws()
    ensures single { SingleIsKnown }
    ensures double { DoubleIsKnown }
    ensures lost { NothingIsLost }
{}
