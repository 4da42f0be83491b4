//! The laws, each the contract of a function that does nothing.

ghost use Rattle.edit_laws.specs.Laws.{KeepingStays, OrderFollows, QuietActionsKeep, BareInsertsKeep, OrderPreservingActs, OrderPreservingAnswers, OrderPreservingFollows, OrderPreservingLooks, OrderPreservingChooses, OrderPreservingGiven, OrderPreservingForEach, OrderPreservingWhile, OrderPreservingWithInserts, OrderPreservingWithFollows, OrderPreservingWithLooks, OrderPreservingWithChooses, OrderPreservingWithGiven, OrderPreservingNewElements};

/// Every action leaves a state in which a command keeps contents such a state.
pub fn keeping_stays()
    ensures { KeepingStays }
{}

/// What is kept in order twice is kept in order.
pub fn order_follows()
    ensures { OrderFollows }
{}

/// An action that neither moves nor inserts a node, nor changes characters, keeps the order.
pub fn quiet_actions_keep()
    ensures { QuietActionsKeep }
{}

/// The insertion of a tree that bears nothing keeps the order.
pub fn bare_inserts_keep()
    ensures { BareInsertsKeep }
{}

/// A run of one such action is order-preserving.
pub fn order_preserving_acts<A>()
    ensures { OrderPreservingActs A }
{}

/// An answer is order-preserving.
pub fn order_preserving_answers<A>()
    ensures { OrderPreservingAnswers A }
{}

/// An order-preserving run followed by order-preserving runs is order-preserving.
pub fn order_preserving_follows<A, B>()
    ensures { OrderPreservingFollows A B }
{}

/// Order-preserving runs that are chosen by what the state now is are an order-preserving run.
pub fn order_preserving_looks<A>()
    ensures { OrderPreservingLooks A }
{}

/// Of two order-preserving runs the one that a test chooses is order-preserving.
pub fn order_preserving_chooses<A>()
    ensures { OrderPreservingChooses A }
{}

/// Of order-preserving runs the one that is chosen by what is there is order-preserving.
pub fn order_preserving_given<A, B>()
    ensures { OrderPreservingGiven A B }
{}

/// A loop of order-preserving runs over a list is order-preserving.
pub fn order_preserving_for_each<A>()
    ensures { OrderPreservingForEach A }
{}

/// A loop of order-preserving runs while a test holds is order-preserving.
pub fn order_preserving_while<A>()
    ensures { OrderPreservingWhile A }
{}

/// Inserting a node is order-preserving with that node: from each state where its tree bears
/// nothing.
pub fn order_preserving_with_inserts()
    ensures { OrderPreservingWithInserts }
{}

/// A run that is order-preserving with a node, and that order-preserving runs follow, is
/// order-preserving with it.
pub fn order_preserving_with_follows<A, B>()
    ensures { OrderPreservingWithFollows A B }
{}

/// Runs that are order-preserving with a node, chosen by what the state now is, are one that is so.
pub fn order_preserving_with_looks<A>()
    ensures { OrderPreservingWithLooks A }
{}

/// Of two runs that are order-preserving with a node the one that a test chooses is so.
pub fn order_preserving_with_chooses<A>()
    ensures { OrderPreservingWithChooses A }
{}

/// Of runs that are order-preserving with a node the one that is chosen by what is there is so.
pub fn order_preserving_with_given<A, B>()
    ensures { OrderPreservingWithGiven A B }
{}

/// Making an element that is neither img nor hr, followed by runs that are order-preserving with
/// it, is order-preserving.
pub fn order_preserving_new_elements<A>()
    ensures { OrderPreservingNewElements A }
{}
