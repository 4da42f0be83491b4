//! Policies and gates.

ghost use Rattle.std.specs.Prelude.{◌≡◌, Bool, List, ℕ};
ghost use Rattle.command_gate.specs.Denied.{is_denied, AsksFor};

use crate::names::NameList;
use std::marker::Model;

/// What is denied.
#[derive(Drop)]
pub struct Policy {
    /// Names of commands.
    pub denied: NameList,
}

/// A question about names.
pub trait Asks {
    // what it answers
    ghost answer: { Self → List ℕ → Bool };

    /// Whether the command of a name is denied.
    fn asks(&self, name: &[u8]) -> bool
        ensures { result ≡ answer self.now name.now };
}

/// A list answers for the names that it has.
impl Asks for NameList {
    ghost answer = { is_denied };

    fn asks(&self, name: &[u8]) -> bool
        ensures { result ≡ is_denied self.now name.now }
    {
        self.has(name)
    }
}

/// A policy, and a question that answers for exactly the names that it denies.
#[derive(Drop)]
pub struct Gate<A: Asks> {
    policy: Policy,
    question: A,
}

impl<A: Asks> Model for Gate<A> {
    ghost use Rattle.std.specs.Prelude.{List, ℕ};
    ghost use Rattle.command_gate.specs.Denied.{AsksFor};

    ghost Value = { List (List ℕ) };

    ghost view = { λ g. g.policy.denied };

    ghost invariant = { λ g. AsksFor g.policy.denied (A.answer g.question) };
}

impl<A: Asks> Gate<A> {
    /// The gate of a policy, with a question that answers true exactly for the names that it
    /// denies.
    pub fn new(policy: Policy, question: A) -> Gate<A>
        requires asks { AsksFor policy.denied (A.answer question) }
        ensures { result ≡ policy.denied }
    {
        Gate { policy, question }
    }

    /// Whether the command of a name is denied. It takes no memory.
    pub fn denies(&self, name: &[u8]) -> bool
        ensures { result ≡ is_denied self.now name.now }
    {
        self.question.asks(name)
    }
}
