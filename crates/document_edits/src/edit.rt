//! Edits of a document, by the labels of its nodes.

use forest_changes::dom::{Attributes, Chars, Content, Items};

/// A node of a tree that comes into the document: how many levels it stands below the root of the
/// tree, its label, and its content.
#[derive(Drop)]
pub struct TreeNode {
    pub level: u32,
    pub label: u32,
    pub content: Content,
}

/// An edit of the document. It names no node outside the document, but those that it brings.
#[derive(Drop)]
pub enum DocumentEdit {
    /// The tree of a node goes.
    Remove {
        node: u32,
    },
    /// A tree comes, told by its nodes in tree order, under a parent, before one of its children or
    /// at the end.
    Insert {
        tree: Items<TreeNode>,
        parent: u32,
        before: Option<u32>,
    },
    /// The tree of a node is moved to another place.
    Move {
        node: u32,
        parent: u32,
        before: Option<u32>,
    },
    /// Of the characters of a Text or Comment node, `taken` from the offset `at` on give way to
    /// those of `put`.
    Replace {
        node: u32,
        at: u32,
        taken: u32,
        put: Chars,
    },
    /// An element is given another attribute list.
    SetAttributes {
        node: u32,
        attributes: Attributes,
    },
}
