//! What a container says of a file.

ghost use Rattle.std.specs.Prelude.{◌≡◌, length, IfOk};
ghost use Rattle.std.specs.Result.{result_err};
ghost use Rattle.mac_files.specs.Containers.{contents_of, fault_of};
ghost use Rattle.mac_files.specs.Parts.{AreWithin};

use crate::apple::read_apple;
use crate::container::Container;
use crate::contents::Contents;
use crate::fault::ContainerFault;
use crate::mac_binary::read_mac_binary;
use crate::part::Part;

/// What a file of nothing but a resource fork says.
fn read_raw(file: &[u8]) -> Contents
    ensures contents { result ≡ contents_of Container.Raw file.now }
    ensures within { AreWithin (length file.now) result }
{
    let fork = Part {
        offset: 0,
        length: file.len(),
    };
    Contents {
        resource_fork: fork.if_any(),
        data_fork: None,
        name: None,
        comment: None,
        finder: None,
        dates: None,
    }
}

/// What a file says that is read as this container: where its forks are, and more. An error comes exactly where the
/// container has a fault, and is the first. The places of the forks, the name and the comment lie within the file.
pub fn read_contents(container: Container, file: &[u8]) -> Result<Contents, ContainerFault>
    ensures fault { result_err result ≡ fault_of container file.now }
    ensures contents { IfOk result (λ contents. contents ≡ contents_of container file.now) }
    ensures within { IfOk result (AreWithin (length file.now)) }
{
    match container {
        Container::Raw => Ok(read_raw(file)),
        Container::AppleSingle | Container::AppleDouble => read_apple(file),
        Container::MacBinary(version) => read_mac_binary(version, file),
    }
}
