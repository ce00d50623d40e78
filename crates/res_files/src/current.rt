//! The rows of the current file.

ghost use Rattle.std.specs.Prelude.{◌≡◌, [], IfSome, IfNone};
ghost use Rattle.res_files.specs.Standing.{placed_rows};

use fork_bytes::place::Place;
use res_table::chain::Chain;
use res_table::rows::Rows;

/// The rows of the current file, if a file is open.
pub(crate) fn current_rows(chain: &Chain<Place>) -> Option<&Rows<Place>>
    ensures some { IfSome result (λ rows. rows.now ≡ placed_rows chain.now) }
    ensures none { IfNone result (placed_rows chain.now ≡ []) }
{
    Some(&chain.table(chain.current()?)?.rows)
}
