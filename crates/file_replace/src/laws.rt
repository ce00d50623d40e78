//! What is said of crashes says something.

ghost use Rattle.file_replace.specs.Calls.{LeavesSomething};

/// Whatever calls were made at a path of the host, a crash after them leaves something there: no promise of what it
/// leaves is empty. It computes nothing.
pub fn crash_laws()
    ensures { LeavesSomething }
{}
