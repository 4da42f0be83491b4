//! The affected host, and the point one step back.

ghost use Rattle.std.specs.Prelude.{◌≡◌};
ghost use Rattle.text_deletion.specs.Approach.{is_affected_host};
ghost use Rattle.text_deletion.specs.Delete.{one_before};

use inline_value::actions::is_same;
use inline_value::doc::{Doc, NodeRef, Point};

/// Whether a node is the affected host of the running command.
pub(crate) fn is_affected_host(doc: &Doc, node: NodeRef) -> bool
    ensures { result ≡ is_affected_host doc.now.state node.label }
{
    is_same(doc.host(), node)
}

/// The point just before what stands before a point.
pub(crate) fn one_before(at: Point) -> Point
    ensures { result ≡ one_before at }
{
    Point {
        label: at.label,
        offset: at.offset.saturating_sub(1),
    }
}
