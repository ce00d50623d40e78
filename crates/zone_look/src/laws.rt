//! What is true of each look.

ghost use Rattle.zone_look.specs.Laws.{BlocksFill, OneAnswer};

/// Of any memory one thing only is found. The blocks that are found fill the zone from its header on, up to the first
/// thing that is wrong, and none overlaps another or leaves the zone.
pub fn look_laws()
    ensures one { OneAnswer }
    ensures fill { BlocksFill }
{}
