//! The calls of the toolbox.

use crate::loan_call::LoanCall;
use crate::memory_call::MemoryCall;
use crate::resource_call::ResourceCall;

/// A call of the toolbox with its operands.
#[derive(Drop)]
pub enum Call<'a> {
    /// A call of the Memory Manager.
    Memory(MemoryCall<'a>),
    /// A call on blocks that are lent.
    Loan(LoanCall<'a>),
    /// A call of the Resource Manager.
    Resource(ResourceCall<'a>),
    /// The code of the last call of the Memory Manager, or on a loan (Inside Macintosh: Memory, Errors).
    MemError,
    /// The code of the last call of the Resource Manager (Inside Macintosh: More Macintosh Toolbox, chapter 1, Checking
    /// for Errors).
    ResError,
}
