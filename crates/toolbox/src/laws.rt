//! What every run of calls of both managers promises.

ghost use Rattle.std.specs.Prelude.{ℕ, Bool, IsTrue};
ghost use Rattle.toolbox.specs.Tools.{ToolsShow};

/// A call of the Resource Manager is a run of acts on the zone, so that what is promised of acts is promised of all
/// calls of both managers and on lent blocks. It computes nothing.
pub fn resource_laws()
    // These files have honest devices: all, some or none.
    ensures headline { (these : ℕ → Bool) → ToolsShow (λ k. IsTrue (these k)) }
{}
