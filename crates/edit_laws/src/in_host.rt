//! Runs that leave both points of the selection at or below the affected host, by their parts: each
//! law is the contract of a function that does nothing.

ghost use Rattle.edit_laws.specs.InHostLaws.{CalmActsStay, AnswersStay, FollowsStay, LooksStay, ChoosesStay, GivenStays, ForEachStays, WhileStays, SplitTextsStay};

/// A run of one action that places no point by itself leaves the selection there.
pub fn calm_acts_stay<A>()
    ensures { CalmActsStay A }
{}

/// An answer does.
pub fn answers_stay<A>()
    ensures { AnswersStay A }
{}

/// So does such a run followed by such runs.
pub fn follows_stay<A, B>()
    ensures { FollowsStay A B }
{}

/// So do such runs that are chosen by what the state now is.
pub fn looks_stay<A>()
    ensures { LooksStay A }
{}

/// Of two such runs the one that a test chooses does.
pub fn chooses_stay<A>()
    ensures { ChoosesStay A }
{}

/// Of such runs the one that is chosen by what is there does.
pub fn given_stays<A, B>()
    ensures { GivenStays A B }
{}

/// A loop of such runs over a list does.
pub fn for_each_stays<A>()
    ensures { ForEachStays A }
{}

/// A loop of such runs while a test holds does.
pub fn while_stays<A>()
    ensures { WhileStays A }
{}

/// Splitting a text does.
pub fn split_texts_stay()
    ensures { SplitTextsStay }
{}
