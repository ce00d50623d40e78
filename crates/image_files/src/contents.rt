//! What an image has.

ghost use Rattle.std.specs.List.{AllByRecursion, AllByRecursion-prop};
ghost use Rattle.image_files.specs.Placing.{IsPlacedIn, IsPlacedIn-prop};

pub use crate::files::{Files, VolumeRefusal};
pub use crate::volume::{PlacedVolume, VolumeFiles};
use disk_image::known::Known;
use disk_image::part::Part;

/// What an image has: how many bytes the file has, what it is known as, its partitions, of which there are none where
/// the disk is one volume, and its volumes.
#[derive(Drop)]
pub struct Contents {
    pub size: u64,
    pub known: Known,
    pub parts: Vec<Part>,
    pub volumes: Vec<PlacedVolume>,
    ghost placed: { AllByRecursion (IsPlacedIn size) volumes.items } by { AllByRecursion-prop (IsPlacedIn size) (IsPlacedIn-prop size) volumes.items },
}

/// A folder or a file: in which volume, and which of its things.
#[derive(Clone, Copy, Debug, PartialEq, Eq)]
pub struct Place {
    pub volume: usize,
    pub thing: usize,
}
