ghost use Rattle.turn_world.specs.Worlds.{EveryListIsFit};

use turn_node::Part;

/// Over every list of events, enabled or not, a world of nodes keeps to the scripts of its run.
///
/// `World::step` is one event of such a list: it does what happens, or refuses and changes nothing.
pub fn every_list_of_events_is_fit<P: Part>()
    ensures { EveryListIsFit P.stands }
{}
