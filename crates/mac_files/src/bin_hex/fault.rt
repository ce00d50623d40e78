//! Why a text is not read.

use thiserror::Error;

/// A section of the bytes, with its CRC after it. They follow each other in this order.
#[derive(Clone, Copy, Debug, PartialEq, Eq, Error)]
pub enum Section {
    /// Name, version, type, creator, flags, and the lengths of both forks.
    #[error("header")]
    Header,
    /// The data fork.
    #[error("data fork")]
    Data,
    /// The resource fork.
    #[error("resource fork")]
    Resource,
}

/// Why a text is not read as BinHex: the first fault in the order of the text. `at` is an offset in the text, in bytes.
#[derive(Clone, Copy, Debug, PartialEq, Eq, Error)]
pub enum BinHexFault {
    /// No colon begins a line, after the comment if there is one.
    #[error("no line begins with the colon that begins a BinHex text")]
    NoText,
    /// This character is neither one of the 64 digits nor the end of a line.
    #[error("offset {at}: the character {found:#04x} is no BinHex digit")]
    NotADigit {
        at: usize,
        found: u8,
    },
    /// The text ends here, before a closing colon.
    #[error("offset {at}: the text ends without a closing colon")]
    NotClosed {
        at: usize,
    },
    /// The run-length byte $90 that ends here is the first byte, and a count that is not 0 follows it.
    #[error("offset {at}: a run-length byte has no byte before it")]
    NothingToRepeat {
        at: usize,
    },
    /// The run-length byte $90 that ends here is the last byte.
    #[error("offset {at}: a run-length byte has no count after it")]
    NoCount {
        at: usize,
    },
    /// The closing colon is here, before the end of this section and of its CRC.
    #[error("offset {at}: the text is closed before the end of the {section}")]
    TooShort {
        section: Section,
        at: usize,
    },
    /// The CRC that ends here is not that of the section before it.
    #[error("offset {at}: the CRC of the {section} is {stored:#06x}, and should be {computed:#06x}")]
    WrongCrc {
        section: Section,
        at: usize,
        stored: u16,
        computed: u16,
    },
    /// It stands for so many bytes, which are more than the most that are read of it.
    #[error("the text stands for {length} bytes, and at most {most} are read of it")]
    TooLong {
        length: usize,
        most: usize,
    },
    /// The host has no memory for the decoded bytes.
    #[error("the host has no memory")]
    HostFull,
}
