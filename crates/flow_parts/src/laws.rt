//! Laws of the definitions: each contract is a theorem, and no body does anything.

ghost use Rattle.flow_parts.specs.Meanings.{AnswersKeep, BeginsRight, DecidedAgrees, GivesKeep, GivesNoneKeeps};

/// The places of a search stand for what it meets, from its beginning on, where each answer is true, in whatever
/// order the answers come.
pub fn places_stand_for_the_search()
    ensures begins { BeginsRight }
    ensures gives { GivesKeep }
    ensures none { GivesNoneKeeps }
    ensures answers { AnswersKeep }
{}

/// What a search came to is what `prove` of flow_directions finds with its budget of directions.
pub fn decided_is_found()
    ensures { DecidedAgrees }
{}
