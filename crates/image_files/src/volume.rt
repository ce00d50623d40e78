//! A volume of an image.

ghost use Rattle.std.specs.Prelude.{◌≡◌, ◌<◌, ◌^◌};
ghost use Rattle.std.specs.Coded.{le_prop};
ghost use Rattle.std.specs.List.{AllByRecursion, AllByRecursion-prop};
ghost use Rattle.disk_ranges.specs.Ranges.{IsInDisk, IsShort, total};
ghost use Rattle.image_files.specs.Sizes.{size_of};

use crate::files::{Files, VolumeRefusal};
use disk_image::view::View;

/// A volume: where its bytes are in the file, and what it has.
#[derive(Drop)]
pub struct VolumeFiles {
    pub view: View,
    pub files: Files,
    ghost short: { AllByRecursion IsShort view.ranges.items } by { AllByRecursion-prop IsShort (λ _. le_prop) view.ranges.items },
    ghost few: { total view.ranges.items < 2 ^ 64 },
    ghost inside: { AllByRecursion (IsInDisk view.file) view.ranges.items } by { AllByRecursion-prop (IsInDisk view.file) (λ _. le_prop) view.ranges.items },
    ghost whole: { view.size ≡ total view.ranges.items },
    ghost size: { size_of files ≡ view.size },
}

/// A volume of an image: the number of its partition, or 0 where it is all of a disk; where on the disk it begins; and
/// what it has, or why it isn't read.
#[derive(Drop)]
pub struct PlacedVolume {
    pub part: u16,
    pub start: u64,
    pub found: Result<VolumeFiles, VolumeRefusal>,
}
