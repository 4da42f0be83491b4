//! How a node is aligned.

ghost use Rattle.std.specs.Prelude.{◌≡◌};
ghost use Rattle.command_value.specs.Alignment as spec;

use node_styles::arena::{Content, NodeRef, Nodes};
use node_styles::css::{Display, TextAlign};
use node_styles::{Test, nearest, own_or_inline, text_align};

// An element in a box of its own.
#[derive(Clone, Copy)]
struct BoxTest;

impl Test for BoxTest {
    ghost test = { λ s. spec.has_own_box };

    #[tactic(auto, unfolding(crate::specs::Alignment::has_own_box, node_styles::specs::Blocks::has_no_box))]
    fn passes(&self, content: &Content) -> bool {
        match content {
            Content::Element { .. } => match own_or_inline(content) {
                Display::Inline | Display::NoBox => false,
                _ => true,
            },
            _ => false,
        }
    }
}

/// The alignment value of a node: the `text-align` of the nearest element, the node itself or an
/// ancestor, whose `display` is neither `inline` nor `none`.
pub fn alignment<N: Nodes>(nodes: &N, node: NodeRef) -> TextAlign
    requires { N.holds nodes.now node }
    ensures { result ≡ spec.alignment (N.trees nodes.now) node.label }
{
    nodes.valid();
    match nearest(nodes, node, &BoxTest) {
        Some(element) => text_align(nodes, element),
        None => TextAlign::Left,
    }
}
