//! What definitions of sounds mean.

ghost use Rattle.fork_sounds.specs.Laws.{IsReadBack};

/// A reader of WAV files finds the sound of which the file was written, sample for sample. It computes nothing.
#[tactic(auto, using(crate::proofs::ReadBack::read_back))]
pub fn wav_law()
    ensures { IsReadBack }
{}
