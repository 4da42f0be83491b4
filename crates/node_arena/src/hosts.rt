//! Editing hosts and editable nodes, by the attribute contenteditable.

ghost use Rattle.std.specs.Prelude.{◌≡◌, map, bytes_eq};
ghost use Rattle.std.specs.Option.{option_map};
ghost use Rattle.std.specs.Char.{to_ascii_lowercase};
ghost use Rattle.dom_model.specs.Contents.{is_element};
ghost use Rattle.dom_model.specs.Editing.{contenteditable, is_host, is_editable};
ghost use Rattle.node_arena.specs.EditableStates.{editable_state_of, is_true, takes};
ghost use Rattle.node_arena.specs.Held.{Holds};

use crate::{Arena, Chars, Content, NodeRef};

impl Arena {
    /// Whether a node is an editing host.
    #[tactic(auto, using(crate::proofs::HostsOk::true_state))]
    pub fn is_host(&self, node: NodeRef) -> bool
        requires { Holds self.now node }
        ensures { result ≡ is_host self.now.trees node.label }
    {
        EditableState::of(self.content(node)).is_true()
    }

    /// Whether a node is editable with `host` as its editing host.
    pub fn is_editable(&self, host: NodeRef, node: NodeRef) -> bool
        requires host_held { Holds self.now host }
        requires node_held { Holds self.now node }
        ensures { result ≡ is_editable self.now.trees host.label node.label }
    {
        self.valid();
        let mut at = node;
        let mut own = EditableState::of(self.content(node));
        while let Some(parent) = self.parent(at) {
            let content = self.content(at);
            let above = self.content(parent);
            if !takes_host(own, content, above) {
                return false;
            }
            own = EditableState::of(above);
            if own.is_true() {
                return parent.label == host.label;
            }
            at = parent;
        }
        false
    }
}

// The state of the attribute contenteditable: in the inherit state are other values, and a node
// without the attribute.
#[derive(Clone, Copy)]
enum EditableState {
    True,
    False,
    Inherit,
}

impl EditableState {
    #[tactic(auto, unfolding(crate::specs::EditableStates::editable_state_of))]
    fn of(content: &Content) -> EditableState
        ensures { result ≡ editable_state_of content.now }
    {
        match contenteditable(content) {
            None => EditableState::Inherit,
            Some(value) => {
                let value = value.as_slice();
                if value.is_empty() || spells(value, b"true") {
                    EditableState::True
                } else if spells(value, b"false") {
                    EditableState::False
                } else {
                    EditableState::Inherit
                }
            }
        }
    }

    #[tactic(auto, unfolding(crate::specs::EditableStates::is_true))]
    fn is_true(self) -> bool
        ensures { result ≡ is_true self }
    {
        match self {
            EditableState::True => true,
            _ => false,
        }
    }
}

// Whether the two texts are the same, the first in lower case.
fn spells(text: &[char], word: &[u8]) -> bool
    ensures { result ≡ bytes_eq (map to_ascii_lowercase text.now) word.now }
{
    match (text, word) {
        ([], []) => true,
        ([first, text @ ..], [byte, word @ ..]) => {
            first.to_ascii_lowercase() as u32 == *byte as u32 && spells(text, word)
        }
        _ => false,
    }
}

// The value of the attribute contenteditable.
fn contenteditable(content: &Content) -> Option<&Chars>
    ensures { option_map (λ value. map to_ascii_lowercase value.now) result
        ≡ contenteditable content.now }
{
    match content {
        Content::Element { attributes, .. } => attributes.get(b"contenteditable"),
        _ => None,
    }
}

// Whether a node in this state has the host that its parent offers: it has no state of its own, and
// it or its parent is an element.
#[tactic(auto, unfolding(crate::specs::EditableStates::editable_state_of))]
fn takes_host(own: EditableState, content: &Content, above: &Content) -> bool
    requires { own ≡ editable_state_of content.now }
    ensures { result ≡ takes content.now above.now }
{
    match own {
        EditableState::Inherit => is_element(content) || is_element(above),
        _ => false,
    }
}

fn is_element(content: &Content) -> bool
    ensures { result ≡ is_element content.now }
{
    matches!(content, Content::Element { .. })
}
