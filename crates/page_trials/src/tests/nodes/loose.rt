//! The tests of nodes over a document under edits, of a tree that stands apart from the document.

ghost use Rattle.std.specs.Prelude.{IfOk};
ghost use Rattle.inline_value.specs.EditDoc.Held.{Holds};
ghost use Rattle.inline_value.specs.EditDoc.Whole.{IsClosed};

use crate::tests::fixtures::{Trial, begin, found, range_of};
use inline_value::doc::{Attributes, Doc, Name, NodeRef};
use inline_value::properties::Property;
use inline_value::questions::{contained_nodes, effective_nodes, resolved};
use std::alloc::Global;
use std::test::Fail;

// A loose `b` with a text in it, in a document that is empty.
fn bold_text(doc: &mut Doc, alloc: Global) -> Result<(NodeRef, NodeRef), Fail>
    requires { IsClosed doc.old }
    ensures { IfOk result (λ pair. Holds doc.new pair.0 × Holds doc.new pair.1) }
{
    let name = Name::from_slice(alloc, b"b")?;
    let attributes = Attributes::new(alloc);
    begin(doc)?;
    let bold = doc.make_element(&name, &attributes)?;
    let text = doc.make_words(&['a'])?;
    doc.insert(bold, None, text)?;
    Ok((bold, text))
}

// Whether the tree's style is its own, and ranges in it contain its nodes.
struct LooseTree;

impl Trial for LooseTree {
    type Found = bool;

    fn run(&self, alloc: Global, doc: &mut Doc) -> Result<bool, Fail> {
        let (bold, text) = bold_text(doc, alloc)?;
        let weight = resolved(alloc, doc, text, Property::FontWeight)?;
        let range = range_of(doc, (bold.label, 0), (bold.label, 1))?;
        let contained = contained_nodes(alloc, doc, range)?;
        let effective = effective_nodes(alloc, doc, range)?;
        let is_bold = weight.as_slice() == ['7', '0', '0'].as_slice();
        let has_text = contained.as_slice() == [text].as_slice();
        Ok(is_bold && has_text && effective.as_slice() == [bold, text].as_slice())
    }
}

#[test]
fn loose_trees_meet_the_tests(rt: HostRuntime) -> Result<(), Fail> {
    assert!(rt; found(rt.alloc(), "", &LooseTree)?);
    Ok(())
}
