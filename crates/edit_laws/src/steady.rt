//! Runs that give no node a state of contenteditable, take none away, and don't give up the
//! selection, by their parts: each law is the contract of a function that does nothing.

ghost use Rattle.edit_laws.specs.SteadyLaws.{SteadyActs, SteadyAnswers, SteadyFollows, SteadyLooks, SteadyChooses, SteadyGiven, SteadyForEach, SteadyWhile, SteadyCopies, UnwrapsSteady, TagNamesSteady, SplitTextsSteady};

/// A run of one steady action is steady.
pub fn steady_acts<A>()
    ensures { SteadyActs A }
{}

/// An answer is steady.
pub fn steady_answers<A>()
    ensures { SteadyAnswers A }
{}

/// A steady run followed by steady runs is steady.
pub fn steady_follows<A, B>()
    ensures { SteadyFollows A B }
{}

/// Steady runs that are chosen by what the state now is are a steady run.
pub fn steady_looks<A>()
    ensures { SteadyLooks A }
{}

/// Of two steady runs the one that a test chooses is steady.
pub fn steady_chooses<A>()
    ensures { SteadyChooses A }
{}

/// Of steady runs the one that is chosen by what is there is steady.
pub fn steady_given<A, B>()
    ensures { SteadyGiven A B }
{}

/// A loop of steady runs over a list is steady.
pub fn steady_for_each<A>()
    ensures { SteadyForEach A }
{}

/// A loop of steady runs while a test holds is steady.
pub fn steady_while<A>()
    ensures { SteadyWhile A }
{}

/// A copy of an editable node has no state.
pub fn steady_copies()
    ensures { SteadyCopies }
{}

/// Putting the children of a node in its place is steady.
pub fn unwraps_steady()
    ensures { UnwrapsSteady }
{}

/// Setting a tag name is steady.
pub fn tag_names_steady()
    ensures { TagNamesSteady }
{}

/// Splitting a text is steady.
pub fn split_texts_steady()
    ensures { SplitTextsSteady }
{}
