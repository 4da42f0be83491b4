//! Whether a node is editable, asked of one after the other on the way up.

ghost use Rattle.std.specs.Prelude.{◌≡◌, true};
ghost use Rattle.edit_model.specs.DomModel.Editing.{is_editable};
ghost use Rattle.edit_model.specs.Confined.{is_editable_for, is_inside};
ghost use Rattle.edit_actions.specs.EditDoc.Held.{Holds};
ghost use Rattle.edit_query.specs.Inside.{is_in_host};

use block_extend::questions::is_editable;
use edit_actions::doc::{Doc, NodeRef};

/// Whether a node is editable with a host, for one who may know that it is that host or editable
/// with it: then the way up to the host isn't gone.
pub(crate) fn is_editable_within(doc: &Doc, host: NodeRef, inside: bool, node: NodeRef) -> bool
    requires host_held { Holds doc.now host }
    requires node_held { Holds doc.now node }
    requires known { inside ≡ true → is_in_host doc.now.state.trees host.label node.label ≡ true }
    ensures { result ≡ is_editable doc.now.state.trees host.label node.label }
{
    doc.valid();
    if inside {
        host.label != node.label
    } else {
        is_editable(doc, host, node)
    }
}

/// Whether a node is editable with the host of the running command, for one who may know that it is
/// inside that: then the way up to the host isn't gone. The parent of such a node is inside.
pub fn is_editable_inside(doc: &Doc, inside: bool, node: NodeRef) -> bool
    requires held { Holds doc.now node }
    requires known { inside ≡ true → is_inside doc.now.state node.label ≡ true }
    ensures { result ≡ is_editable_for doc.now.state node.label }
{
    match doc.host() {
        Some(host) => is_editable_within(doc, host, inside, node),
        None => false,
    }
}
