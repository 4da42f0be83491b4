//! Points, and the places of all of them as one plain value.

/// A place in a tree: the label of a node and an offset in it, which counts the children of an
/// element or of the document, and the characters of a text or a comment.
#[derive(Clone, Copy, PartialEq, Eq, Debug)]
pub struct Point {
    pub label: u32,
    pub offset: u32,
}

/// Two points: where a selection was begun and where it was drawn to. Either may come first in the
/// tree.
#[derive(Clone, Copy, PartialEq, Eq, Debug)]
pub struct Pair {
    pub anchor: Point,
    pub focus: Point,
}

/// The place of a mark. `name` is a position in the list of the names that the points have met.
#[derive(Clone, Copy, PartialEq, Eq, Debug)]
pub struct MarkPlace {
    pub name: usize,
    pub pair: Pair,
}

/// The places of all points. The first `count` of `marks` are in use.
#[derive(Clone, Copy)]
pub struct Places {
    pub selection: Option<Pair>,
    pub scratch: Option<Pair>,
    pub marks: [MarkPlace; 16],
    pub count: u8,
}
