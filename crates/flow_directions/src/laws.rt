//! Laws of the definitions: each contract is a theorem, and no body does anything.

ghost use Rattle.flow_directions.specs.Search.{DirectionsByChildren, DirectionsProve};
ghost use Rattle.flow_directions.specs.Search.{ReachedIsBelow, ReachesNoneBelow};

/// Where the search reaches no sequence below a threshold, its directions prove the threshold for the node.
pub fn directions_prove()
    ensures { DirectionsProve }
{}

/// What the search reaches is a sequence of the node whose makespan is below the threshold; and it reaches none exactly
/// where no sequence of the node is below it.
pub fn search_reaches_what_is_below()
    ensures reached { ReachedIsBelow }
    ensures none { ReachesNoneBelow }
{}

/// The directions of a node are nothing where its bound is at least the threshold, and else the sign of the end that is
/// taken and the directions of the children there, one after the other.
pub fn directions_by_children()
    ensures { DirectionsByChildren }
{}
