//! What the records of leaves say.

ghost use Rattle.std.specs.Prelude.{◌≡◌, ◌<◌, ℕ, IfOk, Result};
ghost use Rattle.std.specs.List.{AllByRecursion};
ghost use Rattle.hfs_tree.specs.Leaves.{count_of, IsLeaf};
ghost use Rattle.hfs_tree.specs.Rows.{rows_before, rows_from, rows_in, read_as, ended, RowsRead};

use crate::fault::TreeFault;
use crate::leaf::Leaf;
use crate::walk::Chain;
use std::alloc::{AllocError, Global};

/// What a record of a tree says.
pub trait TreeRow: Drop {
    ghost use Rattle.hfs_tree.specs.declared.leaf.Leaf.{Leaf};
    ghost use Rattle.hfs_tree.specs.declared.fault.TreeFault.{TreeFault};

    /// What a record of a leaf says, or what is wrong with it.
    ghost row_of: { Leaf → ℕ → Result Self TreeFault };

    /// Reads a record of a leaf, or says what is wrong with it.
    fn read(leaf: &Leaf, row: usize) -> Result<Self, TreeFault>
        requires sound { IsLeaf leaf.now }
        requires there { row < count_of leaf.now.bytes }
        ensures { result ≡ row_of leaf.now row };
}

/// The records of a tree up to its first fault, which is `None` where it has none.
#[derive(Drop)]
pub struct Rows<T> {
    pub rows: Vec<T>,
    pub fault: Option<TreeFault>,
}

/// Adds the records of a leaf up to its first fault, which is handed out.
fn push_rows<T: TreeRow>(rows: &mut Vec<T>, leaf: &Leaf) -> Result<Option<TreeFault>, AllocError>
    requires { IsLeaf leaf.now }
    ensures { IfOk result (λ fault. (rest : RowsRead T) →
        rows_before rows.old.items (rows_from T.row_of leaf.now 0 (count_of leaf.now.bytes) rest) ≡ rows_before rows.new.items (ended fault rest)) }
{
    for row in 0..leaf.row_count() {
        match T::read(leaf, row) {
            Ok(found) => rows.push(found)?,
            Err(fault) => return Ok(Some(fault)),
        }
    }
    Ok(None)
}

/// Reads the records of leaves, in their order. The only error is that the host has no memory.
pub fn read_rows<T: TreeRow>(alloc: Global, chain: &Chain) -> Result<Rows<T>, AllocError>
    requires { AllByRecursion IsLeaf chain.now.leaves.items }
    ensures { IfOk result (λ found. read_as found ≡ rows_in T.row_of chain.now.leaves.items chain.now.fault) }
{
    let mut rows = Vec::new(alloc);
    for leaf in &chain.leaves {
        if let Some(fault) = push_rows(&mut rows, leaf)? {
            return Ok(Rows {
                rows,
                fault: Some(fault),
            });
        }
    }
    Ok(Rows {
        rows,
        fault: chain.fault,
    })
}
