//! What definitions of pictures mean.

ghost use Rattle.std.specs.Prelude.{◌≡◌, ◌<◌, ℕ};
ghost use Rattle.fork_pictures.specs.Laws.{IsDrawnByPlaces, IsReadBack};

/// The picture of a function has in each column and row the pixel that the function has there. It computes nothing.
#[tactic(auto, using(crate::proofs::Rasters::drawn_by_places))]
pub fn raster_law()
    ensures { IsDrawnByPlaces }
{}

/// A reader of PNG files finds the picture of which the file was written. It computes nothing.
#[tactic(auto, using(crate::proofs::ReadBack::read_back))]
pub fn png_law()
    ensures { IsReadBack }
{}
