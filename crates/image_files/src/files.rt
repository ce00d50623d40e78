//! The folders and files of a volume.

use disk_image::fault::ImageFault;
use hfs_volume::entry::Entry;
use hfs_volume::fault::VolumeFault;
use hfs_volume::volume::Volume;
use mfs_volume::fault::MfsFault;
use mfs_volume::volume::MfsVolume;

/// Why a volume of an image isn't read: the first condition that doesn't hold.
#[derive(Clone, Copy, Debug, PartialEq, Eq)]
pub enum VolumeRefusal {
    /// Of its partition.
    Partition(ImageFault),
    /// Of an HFS volume.
    Hfs(VolumeFault),
    /// Of an MFS volume.
    Mfs(MfsFault),
}

/// What a volume has: its folders and files in its own order. An MFS volume has no folders.
#[derive(Drop)]
pub enum Files {
    Hfs(Volume, Vec<Entry>),
    Mfs(MfsVolume),
}
