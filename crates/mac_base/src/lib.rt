//! What every layer speaks of: result codes, handles and pointers, the blocks of a zone and the sizes that a zone may
//! have; of resources their types, names and attributes; and the calls of the Memory Manager and of the Resource
//! Manager with their operands, and what a call gives.
#![tactic(auto)]

pub mod block;
pub mod bytes;
mod call;
pub mod error;
mod grow_zone;
pub mod handle;
mod loan_call;
mod memory_call;
pub mod name;
mod no_procedure;
pub mod purge_space;
pub mod releasing;
mod reply;
pub mod request;
pub mod resource;
mod resource_call;
pub mod size;
pub mod zone_spec;

pub use call::Call;
pub use grow_zone::{Answer, Asked, GrowZone};
pub use loan_call::LoanCall;
pub use memory_call::{
    BlockCall, FillingCall, MemoryCall, RequestingCall, ShowingCall, Span, ZoneCall,
};
pub use no_procedure::NoProcedure;
pub use reply::{BlockList, Outcome, Reply, ResourceInfo, Results};
pub use resource_call::{ChangingCall, GettingCall, LookingCall, ResourceCall, WritingCall};
