//! What the tests share: pages, their nodes, documents of them, and tables of what is done to
//! documents.
//!
//! Pages and documents are let go here alone, each on one way: where one goes, its proof takes up
//! to a minute, and again on each way out of the function that owns it. So tests say by a trait
//! what they do with one.

ghost use Rattle.std.specs.Prelude.{◌≡◌, ◌<◌, IfOk};
ghost use Rattle.edit_model.specs.DomModel.Forest.{count_of};
ghost use Rattle.inline_value.specs.EditDoc.Whole.{HasNoLoose, IsClosed, IsOpen};

use edit_model::arena::{Arena, NodeRef, Nodes};
use inline_value::doc::{Doc, Point};
use page_read::read_page;
use page_write::write_html;
use std::alloc::{AllocError, Global};
use std::test::Fail;

/// The nodes of a page.
pub fn read(alloc: Global, page: &str) -> Result<Arena, Fail>
    ensures { IfOk result HasNoLoose }
{
    match read_page(alloc, page.as_bytes(), 1000) {
        Ok(arena) => Ok(arena),
        Err(_) => Err("no page".into()),
    }
}

/// The node of a label.
pub fn node_of<N: Nodes>(nodes: &N, label: u32) -> Result<NodeRef, Fail>
    ensures { IfOk result (λ r. (r.label ≡ label) × N.holds nodes.now r) }
{
    Ok(nodes.find(label).ok_or("no node")?)
}

/// The point at an offset in the node of a label.
pub fn point_of<N: Nodes>(nodes: &N, at: (u32, u32)) -> Result<Point, Fail>
    ensures { IfOk result (λ p. 0 < count_of (N.trees nodes.now) p.label) }
{
    nodes.valid();
    let node = node_of(nodes, at.0)?;
    Ok(point((node.label, at.1)))
}

/// The points of a range.
pub fn range_of<N: Nodes>(
    nodes: &N,
    start: (u32, u32),
    end: (u32, u32),
) -> Result<(Point, Point), Fail>
    ensures start_held { IfOk result (λ range. 0 < count_of (N.trees nodes.now) range.0.label) }
    ensures end_held { IfOk result (λ range. 0 < count_of (N.trees nodes.now) range.1.label) }
{
    Ok((point_of(nodes, start)?, point_of(nodes, end)?))
}

/// The document of a page, whose history keeps three entries.
#[tactic(auto, unfolding(crate::specs::Below::first_doc))]
pub fn document_of(alloc: Global, page: &str) -> Result<Doc, Fail>
    ensures { IfOk result (λ doc. IsClosed doc) }
{
    let arena = read(alloc, page)?;
    Ok(Doc::new(alloc, arena, 3)?)
}

/// Begins a command on the node of a label.
#[tactic(auto, unfolding(crate::specs::Below::opened))]
pub fn begin_in(doc: &mut Doc, label: u32) -> Result<(), AllocError>
    requires { IsClosed doc.old }
    ensures { IfOk result (λ _. IsOpen doc.new) }
{
    let host = doc.find(label);
    doc.begin(host, false)
}

/// Begins a command on the node of the label 1, the editing host of most pages here.
pub fn begin(doc: &mut Doc) -> Result<(), AllocError>
    requires { IsClosed doc.old }
    ensures { IfOk result (λ _. IsOpen doc.new) }
{
    begin_in(doc, 1)
}

/// The page of an editing host that holds this.
pub fn page_of(alloc: Global, inner: &str) -> Result<String, AllocError> {
    let mut page = String::new(alloc);
    page.push_str("<div contenteditable=\"true\">")?;
    page.push_str(inner)?;
    page.push_str("</div>")?;
    Ok(page)
}

/// The point of a label and an offset.
pub fn point(at: (u32, u32)) -> Point
    ensures { result.label ≡ at.0 }
{
    Point {
        label: at.0,
        offset: at.1,
    }
}

/// A label and an offset.
pub type At = (u32, u32);

/// Whether the selection goes from one point to another.
pub fn selects(doc: &Doc, anchor: At, focus: At) -> bool {
    match doc.points().selection() {
        Some(pair) => pair.anchor == point(anchor) && pair.focus == point(focus),
        None => false,
    }
}

/// The characters of a text.
pub fn chars(alloc: Global, text: &str) -> Result<Vec<char>, AllocError> {
    text.chars().collect(alloc)
}

/// The labels of nodes.
pub fn labels(alloc: Global, list: &[NodeRef]) -> Result<Vec<u32>, AllocError> {
    list.iter().map(|node| node.label).collect(alloc)
}

/// What is looked for in a page.
pub trait Look {
    /// Whether it is there.
    fn meets(&self, alloc: Global, arena: &Arena) -> Result<bool, Fail>;
}

/// A row of a table: a page, and what is looked for in it.
pub struct Page<L>(pub &'static str, pub L);

// Whether a page meets its row.
fn meets<L: Look>(alloc: Global, row: &Page<L>) -> Result<bool, Fail> {
    let arena = read(alloc, row.0)?;
    row.1.meets(alloc, &arena)
}

/// Goes through a table of pages, and fails at the first that does not meet its row.
pub fn check_pages<L: Look>(alloc: Global, rows: &[Page<L>]) -> Result<(), Fail> {
    for row in rows {
        if !meets(alloc, row)? {
            return Err(Fail::new(row.0));
        }
    }
    Ok(())
}

/// What is done with the document of a page, and what is found.
pub trait Trial {
    type Found;

    fn run(&self, alloc: Global, doc: &mut Doc) -> Result<Self::Found, Fail>
        requires { IsClosed doc.old };
}

/// What a trial finds on the document of a page.
pub fn found<T: Trial>(alloc: Global, page: &str, trial: &T) -> Result<T::Found, Fail> {
    let mut doc = document_of(alloc, page)?;
    trial.run(alloc, &mut doc)
}

/// What is done to a document in a command.
pub trait Act {
    /// Does it, and answers whether that answered as it should.
    fn act(&self, alloc: Global, doc: &mut Doc) -> Result<bool, Fail>
        requires { IsOpen doc.old };
}

/// A row of a table: what the editing host holds, what is done, and what the host then holds.
pub struct Row<A>(pub &'static str, pub A, pub &'static str);

// The page that the act leaves, in a command of its own; or a word that is no page where that
// answered otherwise.
impl<A: Act> Trial for Row<A> {
    type Found = String;

    fn run(&self, alloc: Global, doc: &mut Doc) -> Result<String, Fail> {
        begin(doc)?;
        if self.1.act(alloc, doc)? {
            let html = write_html(alloc, doc.arena())?;
            Ok(String::from_utf8(html).ok().ok_or("text")?)
        } else {
            Ok(format!(in alloc; "another answer")?)
        }
    }
}

/// Goes through a table, and fails at the first row that leaves another page.
pub fn check_rows<A: Act>(alloc: Global, rows: &[Row<A>]) -> Result<(), Fail> {
    for row in rows {
        let page = page_of(alloc, row.0)?;
        let wanted = page_of(alloc, row.2)?;
        let html = found(alloc, page.as_str(), row)?;
        if html.as_str() != wanted.as_str() {
            let found = html.as_str();
            return Err(Fail::new(format!(in alloc; "{}: {found}", row.0)?));
        }
    }
    Ok(())
}
