//! What stands between two points (DOM Standard, "clone the contents" of a range).

ghost use Rattle.std.specs.Prelude.{◌≡◌, ◌<◌, ◌^◌, OnOk, IfSome};
ghost use Rattle.node_styles.specs.DomModel.Contents.{has_chars};
ghost use Rattle.node_styles.specs.DomModel.Forest.{count_of, tree_of};
ghost use Rattle.node_styles.specs.NodeArena.Held.{label};
ghost use Rattle.node_styles.specs.NodeArena.Reads.{Names};
ghost use Rattle.page_write.specs.NodePaths.Onward.{onward_at, IsInner};
ghost use Rattle.node_texts.specs.Between as cut;
ghost use Rattle.node_texts.specs.Walk.{walked};

use crate::walk::Visitor;
use node_styles::arena::{Content, NodeRef, Nodes};
use point_order::dom_ranges::Point;
use point_order::{is_within, node_of};
use std::alloc::AllocError;

/// Where siblings begin or end, as a point says it.
#[derive(Clone, Copy)]
pub enum Limit {
    /// The point says nothing of them.
    Open,
    /// So many of them stand before the point.
    Past(u32),
    /// The point stands in the tree of one of them.
    Inside(Point),
}

impl Limit {
    #[tactic(auto, unfolding(crate::specs::Between::is_over))]
    fn is_over(self) -> bool
        ensures { result ≡ cut.is_over self }
    {
        match self {
            Limit::Past(count) => count == 0,
            _ => false,
        }
    }

    #[tactic(auto, unfolding(crate::specs::Between::passed))]
    fn passed(self) -> Limit
        ensures { result ≡ cut.passed self }
    {
        match self {
            Limit::Past(count) => Limit::Past(count.saturating_sub(1)),
            limit => limit,
        }
    }

    #[tactic(auto, unfolding(crate::specs::Between::below))]
    fn below(self, label: u32) -> Limit
        ensures { result ≡ cut.below self label }
    {
        match self {
            Limit::Inside(point) if point.label == label => Limit::Past(point.offset),
            Limit::Inside(point) => Limit::Inside(point),
            _ => Limit::Open,
        }
    }

    #[tactic(auto, unfolding(crate::specs::Between::lower))]
    fn lower(self, label: u32) -> u32
        ensures { result ≡ cut.lower self label }
    {
        match self {
            Limit::Inside(point) if point.label == label => point.offset,
            _ => 0,
        }
    }

    #[tactic(auto, unfolding(crate::specs::Between::upper))]
    fn upper(self, label: u32) -> Option<u32>
        ensures { result ≡ cut.upper self label }
    {
        match self {
            Limit::Inside(point) if point.label == label => Some(point.offset),
            _ => None,
        }
    }
}

/// The characters from an offset on, up to another one if there is one.
pub(crate) fn chars_part(chars: &[char], from: u32, to: Option<u32>) -> &[char]
    ensures { result.now ≡ cut.chars_part from to chars.now }
{
    let upto = match to {
        Some(to) if (to as usize) < chars.len() => &chars[..to as usize],
        _ => chars,
    };
    if (from as usize) < upto.len() {
        &upto[from as usize..]
    } else {
        &[]
    }
}

/// One to whom a part of a text or a comment can be shown.
pub(crate) trait PartVisitor: Visitor {
    ghost use Rattle.std.specs.Prelude.{ℕ, Option};
    ghost use Rattle.node_styles.specs.DomModel.declared.Content.{Content};
    ghost use Rattle.node_texts.specs.Between.{part_of};

    /// Shows a node whose children come next, of a text or a comment the characters from an offset
    /// on, up to another one if there is one.
    fn enter_part(
        &mut self,
        label: u32,
        content: &Content,
        from: u32,
        to: Option<u32>,
    ) -> Result<(), AllocError>
        ensures ok { OnOk result (self.new ≡ Self.entered self.old label
            (part_of from to content.now)) };

    // a part is left as the whole node is
    ghost leaves_parts: { (s : Self) (l from : ℕ) (to : Option ℕ) (c : Content)
        → Self.left s l (part_of from to c) ≡ Self.left s l c };
}

fn is_in<N: Nodes>(nodes: &N, point: Point, node: NodeRef) -> bool
    requires held { N.holds nodes.now node }
    requires there { 0 < count_of (N.trees nodes.now) point.label }
    ensures { result ≡ cut.is_in point (tree_of (N.trees nodes.now) node.label) }
{
    nodes.is_within(node, node_of(nodes, point))
}

#[tactic(auto, unfolding(crate::specs::Between::is_ahead))]
fn is_ahead<N: Nodes>(nodes: &N, limit: Limit, node: NodeRef) -> bool
    requires held { N.holds nodes.now node }
    requires there { cut.IsThere (N.trees nodes.now) limit }
    ensures { result ≡ cut.is_ahead limit (tree_of (N.trees nodes.now) node.label) }
{
    match limit {
        Limit::Open => false,
        Limit::Past(count) => count > 0,
        Limit::Inside(point) => !is_in(nodes, point, node),
    }
}

#[tactic(auto, unfolding(crate::specs::Between::stands_in))]
fn stands_in<N: Nodes>(nodes: &N, limit: Limit, node: NodeRef) -> bool
    requires held { N.holds nodes.now node }
    requires there { cut.IsThere (N.trees nodes.now) limit }
    ensures { result ≡ cut.stands_in limit (tree_of (N.trees nodes.now) node.label) }
{
    match limit {
        Limit::Inside(point) => is_in(nodes, point, node),
        _ => false,
    }
}

// Shows the trees from a node on, its own and those of its later siblings, between two limits.
fn walk_between<N: Nodes, V: PartVisitor>(
    nodes: &N,
    first: Option<NodeRef>,
    start: Limit,
    end: Limit,
    visitor: &mut V,
) -> Result<(), AllocError>
    requires held { IfSome first (λ r. N.holds nodes.now r) }
    requires inner { IsInner (N.trees nodes.now) (label first) }
    requires start { cut.IsThere (N.trees nodes.now) start }
    requires end { cut.IsThere (N.trees nodes.now) end }
    ensures ok { OnOk result (visitor.new ≡ walked V.entered V.left
        (cut.between start end (onward_at (N.trees nodes.now) (label first))) visitor.old) }
{
    nodes.valid();
    let (mut start, mut end) = (start, end);
    let mut at = first;
    while let Some(node) = at {
        if end.is_over() {
            return Ok(());
        }
        let (label, content) = (node.label, nodes.content(node));
        if is_ahead(nodes, start, node) {
            (start, end) = (start.passed(), end.passed());
            at = nodes.next(node);
            continue;
        }
        visitor.enter_part(label, content, start.lower(label), end.upper(label))?;
        let child = nodes.first_child(node);
        walk_between(nodes, child, start.below(label), end.below(label), visitor)?;
        visitor.leave(label, content)?;
        if stands_in(nodes, end, node) {
            return Ok(());
        }
        (start, end) = (Limit::Open, end.passed());
        at = nodes.next(node);
    }
    Ok(())
}

// The innermost node in whose tree both nodes stand.
fn common_ancestor<N: Nodes>(nodes: &N, node: NodeRef, other: NodeRef) -> Option<NodeRef>
    requires node_held { N.holds nodes.now node }
    requires other_held { N.holds nodes.now other }
    ensures { Names (N.holds nodes.now) result
        (cut.common_ancestor (N.trees nodes.now) node.label other.label) }
{
    nodes.valid();
    let mut at = node;
    while !is_within(nodes, at, other) {
        match nodes.parent(at) {
            Some(parent) => at = parent,
            None => return None,
        }
    }
    Some(at)
}

fn has_chars(content: &Content) -> bool
    ensures { result ≡ has_chars content.now }
{
    match content {
        Content::Words(_) | Content::Remark(_) => true,
        _ => false,
    }
}

/// Shows the contents of a range: the children of the innermost node that holds both points, from
/// the first point to the second, or the characters between them where it is a text or a comment.
/// Its calls go as deep as the tree.
pub(crate) fn walk_range<N: Nodes, V: PartVisitor>(
    nodes: &N,
    range: (Point, Point),
    visitor: &mut V,
) -> Result<(), AllocError>
    requires start { 0 < count_of (N.trees nodes.now) range.0.label }
    requires end { 0 < count_of (N.trees nodes.now) range.1.label }
    ensures ok { OnOk result (visitor.new ≡ walked V.entered V.left
        (cut.range_contents (N.trees nodes.now) range.0 range.1) visitor.old) }
{
    nodes.valid();
    let (start, end) = (node_of(nodes, range.0), node_of(nodes, range.1));
    let Some(top) = common_ancestor(nodes, start, end) else {
        return Ok(());
    };
    let (start, end) = (Limit::Inside(range.0), Limit::Inside(range.1));
    let (label, content) = (top.label, nodes.content(top));
    if has_chars(content) {
        visitor.enter_part(label, content, start.lower(label), end.upper(label))?;
        visitor.leave(label, content)?;
        return Ok(());
    }
    let child = nodes.first_child(top);
    walk_between(nodes, child, start.below(label), end.below(label), visitor)?;
    Ok(())
}
