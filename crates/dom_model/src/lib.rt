//! The model of a document: labelled nested lists, and the contents of their nodes.
//!
//! The names stand for these terms of the DOM standard: [`Content::Words`] is a Text node,
//! [`Content::Remark`] a Comment node, [`Chars`] the data of either or the value of an attribute,
//! [`Name`] a qualified name, and [`Attributes`] the attribute list of an element.
#![tactic(auto)]

mod attributes;
mod chars;
mod items;

pub use attributes::{Attribute, Attributes};
pub use chars::{Chars, room};
pub use items::{Items, Name};

/// What a node is, without its place in the tree.
#[derive(Drop)]
pub enum Content {
    /// The root of the document.
    Document,
    /// An element with its attribute list.
    Element { name: Name, attributes: Attributes },
    /// A Text node.
    Words(Chars),
    /// A Comment node.
    Remark(Chars),
}
