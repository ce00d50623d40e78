//! Lists that grow while a fork is read.

ghost use Rattle.std.specs.Prelude.{◌≡◌, ◌++◌, ◌∷◌, [], OnOk, IfErr};

use crate::fault::ForkFault;

/// Adds an element. The fault is HostFull.
pub(crate) fn push<T: Drop>(list: &mut Vec<T>, element: T) -> Result<(), ForkFault>
    ensures added { OnOk result (list.new.items ≡ list.old.items ++ element ∷ []) }
    ensures fault { IfErr result (λ fault. fault ≡ ForkFault.HostFull) }
{
    match list.push(element) {
        Ok(()) => Ok(()),
        Err(_) => Err(ForkFault::HostFull),
    }
}
