//! What is read of a node by its label, its path, its HTML, its plain text, and where characters
//! occur in it; and the HTML and the plain text of the selection.

ghost use Rattle.std.specs.Prelude.{◌≡◌, ◌↔◌, IfOk, Some, Err};
ghost use Rattle.std.specs.Option.{option_map};
ghost use Rattle.edit_model.specs.DomModel.Forest.{count_of};
ghost use Rattle.inline_value.specs.NodePaths.Paths.{label_at};
ghost use Rattle.node_texts.specs.NodeHtml.{node_html};
ghost use Rattle.node_texts.specs.Occurrences.{found_in};
ghost use Rattle.node_texts.specs.PlainText.{plain_text};
ghost use Rattle.edit_engine.specs.SelectedTexts.{selected_html, selected_text};

use crate::answers::ViewFault;
use crate::editor::Editor;
use inline_value::actions::ends_of;
use inline_value::doc::Point;
use node_texts::{find, node_html, path_of, plain_text, range_html, range_text};
use std::alloc::{AllocError, Global};
use step_text::script::Path;

impl Editor {
    /// Returns the path of the node of a label.
    pub fn path_of(&self, alloc: Global, label: u32) -> Result<Path, ViewFault>
        ensures path { IfOk result (λ path. label_at self.now.editing.state.trees path
            ≡ Some label) }
        ensures bad_place { (result ≡ Err ViewFault.BadPlace)
            ↔ (count_of self.now.editing.state.trees label ≡ 0) }
    {
        let doc = self.document();
        doc.valid();
        match doc.find(label) {
            Some(node) => Ok(Path::from_vec(path_of(alloc, doc, node)?)),
            None => Err(ViewFault::BadPlace),
        }
    }

    /// Returns the HTML of the node of a label with its descendants; for the document, that of its
    /// children.
    pub fn node_html(&self, alloc: Global, label: u32) -> Result<Vec<u8>, ViewFault>
        ensures text { IfOk result (λ text. text.items
            ≡ node_html self.now.editing.state.trees label) }
        ensures bad_place { (result ≡ Err ViewFault.BadPlace)
            ↔ (count_of self.now.editing.state.trees label ≡ 0) }
    {
        let doc = self.document();
        match doc.find(label) {
            Some(node) => Ok(node_html(alloc, doc, node)?),
            None => Err(ViewFault::BadPlace),
        }
    }

    /// Returns the plain text of the node of a label with its descendants: the characters of text
    /// nodes and a line feed for each `br`, in tree order. If a block begins or ends between two of
    /// these characters, a line feed is inserted, unless the first one is a line feed.
    pub fn node_text(&self, alloc: Global, label: u32) -> Result<Vec<char>, ViewFault>
        ensures text { IfOk result (λ text. text.items
            ≡ plain_text self.now.editing.state.trees label) }
        ensures bad_place { (result ≡ Err ViewFault.BadPlace)
            ↔ (count_of self.now.editing.state.trees label ≡ 0) }
    {
        let doc = self.document();
        match doc.find(label) {
            Some(node) => Ok(plain_text(alloc, doc, node)?),
            None => Err(ViewFault::BadPlace),
        }
    }

    /// Returns the points at which characters occur in the node of a label and its descendants, in
    /// tree order, without overlap. Each occurrence is in one text node. An empty text doesn't
    /// occur.
    pub fn find(&self, alloc: Global, top: u32, wanted: &[char]) -> Result<Vec<Point>, ViewFault>
        ensures found { IfOk result (λ points. points.items
            ≡ found_in self.now.editing.state.trees top wanted.now) }
        ensures bad_place { (result ≡ Err ViewFault.BadPlace)
            ↔ (count_of self.now.editing.state.trees top ≡ 0) }
    {
        let doc = self.document();
        match doc.find(top) {
            Some(node) => Ok(find(alloc, doc, node, wanted)?),
            None => Err(ViewFault::BadPlace),
        }
    }

    /// Returns the HTML of the selection, if something is selected (DOM Standard, "clone the
    /// contents" of a range): of the children of the innermost node that contains both points, from
    /// the earlier point to the later one.
    #[tactic(auto, using(crate::proofs::Below::placed_here), unfolding(crate::specs::SelectedTexts::selected_html))]
    pub fn selection_html(&self, alloc: Global) -> Result<Option<Vec<u8>>, AllocError>
        ensures { IfOk result (λ html. option_map (λ text. text.items) html
            ≡ selected_html self.now.editing.state) }
    {
        let doc = self.document();
        doc.valid();
        match doc.points().selection() {
            Some(pair) => Ok(Some(range_html(alloc, doc, ends_of(doc, pair))?)),
            None => Ok(None),
        }
    }

    /// Returns the plain text of the selection, if something is selected, like `node_text`.
    #[tactic(auto, using(crate::proofs::Below::placed_here), unfolding(crate::specs::SelectedTexts::selected_text))]
    pub fn selection_text(&self, alloc: Global) -> Result<Option<Vec<char>>, AllocError>
        ensures { IfOk result (λ text. option_map (λ chars. chars.items) text
            ≡ selected_text self.now.editing.state) }
    {
        let doc = self.document();
        doc.valid();
        match doc.points().selection() {
            Some(pair) => Ok(Some(range_text(alloc, doc, ends_of(doc, pair))?)),
            None => Ok(None),
        }
    }
}
