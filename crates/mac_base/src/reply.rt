//! What a call gives.

use crate::block::Block;
use crate::bytes::Bytes;
use crate::error::OsErr;
use crate::handle::{Handle, Ptr};
use crate::name::Name;
use crate::resource::ResType;
use std::marker::Model;

/// The blocks of a zone, lowest first. A contract sees the list.
#[derive(Drop)]
pub struct BlockList {
    blocks: Vec<Block>,
}

impl Model for BlockList {
    ghost use Rattle.std.specs.Prelude.{List};
    ghost use Rattle.mac_base.specs.declared.block.Block.{Block};

    ghost Value = { List Block };

    ghost view = { λ b. b.blocks.items };
}

impl BlockList {
    ghost use Rattle.std.specs.Prelude.{◌≡◌};

    /// The blocks of a vector.
    pub fn new(blocks: Vec<Block>) -> BlockList
        ensures { result ≡ blocks.items }
    {
        BlockList { blocks }
    }

    /// The blocks, lowest first.
    pub fn as_slice(&self) -> &[Block]
        ensures { result.now ≡ self.now }
    {
        &self.blocks
    }
}

/// What a resource is called.
#[derive(Drop)]
pub struct ResourceInfo {
    pub id: i16,
    pub kind: ResType,
    pub name: Option<Name>,
}

/// What a call gives that isn't refused.
#[derive(Drop)]
pub enum Results {
    /// The call has no result.
    Nothing,
    /// A handle.
    Handle(Handle),
    /// A pointer.
    Pointer(Ptr),
    /// Where contents begin.
    Address(u32),
    /// A size in bytes, a state, a count, an id, attributes, or the number of a file.
    Number(u32),
    /// Two sizes in bytes.
    TwoNumbers(u32, u32),
    /// The code of an earlier call: none where it succeeded, or where there was none.
    Code(Option<OsErr>),
    /// Bytes of a block.
    Bytes(Bytes),
    /// The blocks of the zone.
    Blocks(BlockList),
    /// The type of a resource.
    Kind(ResType),
    /// What a resource is called.
    Info(ResourceInfo),
}

/// How a call ends: with its results, or with the code of its refusal. A refusal has no results.
pub type Outcome = Result<Results, OsErr>;

/// The reply to a call.
#[derive(Drop)]
pub struct Reply {
    pub outcome: Outcome,
}

impl Reply {
    ghost use Rattle.std.specs.Prelude.{◌≡◌};
    ghost use Rattle.std.specs.Result.{result_err};

    /// The code, where the call was refused.
    pub fn refusal(&self) -> Option<OsErr>
        ensures { result ≡ result_err self.now.outcome }
    {
        self.outcome.as_ref().err().copied()
    }
}
