//! Series in lists of nodes.

ghost use Rattle.std.specs.Prelude.{◌≡◌, ◌<◌, ◌≤◌, length, map};
ghost use Rattle.std.specs.List.{All};
ghost use Rattle.block_extend.specs.Series.{count_series, is_next};

use node_paths::arena::{NodeRef, Nodes};

/// Which member of a list goes on a series from which.
pub trait Link<N: Nodes> {
    ghost use Rattle.std.specs.Prelude.{ℕ, Bool};

    // whether the second goes on from the first, by their labels
    ghost linked: { Self → N → ℕ → ℕ → Bool };

    /// Whether `node` goes on a series whose last member so far is `last`.
    fn links(&self, nodes: &N, last: NodeRef, node: NodeRef) -> bool
        requires last_held { N.holds nodes.now last }
        requires node_held { N.holds nodes.now node }
        ensures { result ≡ linked self.now nodes.now last.label node.label };
}

/// Whether `node` is the next sibling of `last`.
#[tactic(auto, unfolding(crate::specs::Series::is_next))]
pub fn is_next<N: Nodes>(nodes: &N, last: NodeRef, node: NodeRef) -> bool
    requires { N.holds nodes.now last }
    ensures { result ≡ is_next (N.trees nodes.now) last.label node.label }
{
    match nodes.next(last) {
        Some(next) => next.label == node.label,
        None => false,
    }
}

/// How many members the first series of a list has: the first member, and the members after it for
/// as long as each goes on from the one before.
#[tactic(auto, using(crate::proofs::Counting::series))]
pub fn count_series<N: Nodes, L: Link<N>>(nodes: &N, list: &[NodeRef], link: &L) -> usize
    requires { All (N.holds nodes.now) list.now }
    ensures count { result
        ≡ count_series (L.linked link.now nodes.now) (map (λ r. r.label) list.now) }
    ensures some { 0 < length list.now → 0 < result }
    ensures within { result ≤ length list.now }
{
    if list.len() == 0 {
        return 0;
    }
    let mut count = 1;
    while count < list.len() {
        if !link.links(nodes, list[count - 1], list[count]) {
            return count;
        }
        count += 1;
    }
    count
}
