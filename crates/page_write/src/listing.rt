//! Listings: a line for each node in tree order, indented by its depth.

ghost use Rattle.std.specs.Prelude.{◌≡◌, ◌+◌, ◌<◌, ◌^◌, ◌++◌, OnOk, IfOk, IfSome, codes};
ghost use Rattle.node_paths.specs.DomModel.Forest.{total};
ghost use Rattle.node_paths.specs.NodeArena.Held.{Holds, label};
ghost use Rattle.node_paths.specs.Onward.{onward_at, IsInner};
ghost use Rattle.escaped_text.specs.Escaped.{escaped_bytes};
ghost use Rattle.page_write.specs.Listing.{line_byte, on_one_line, node_line, indent, lines_of, document_lines};

use crate::html::push_start_tag;
use escaped_text::push_escaped;
use node_paths::arena::{Arena, NodeRef};
use node_paths::dom::{Chars, Content};
use std::alloc::{AllocError, Global};

fn push_line_byte(bytes: &mut Vec<u8>, byte: u8) -> Result<(), AllocError>
    ensures ok { OnOk result (bytes.new.items ≡ bytes.old.items ++ line_byte byte) }
{
    match byte {
        b'\n' => bytes.extend_from_slice(b"\\n")?,
        b'\r' => bytes.extend_from_slice(b"\\r")?,
        b'\t' => bytes.extend_from_slice(b"\\t")?,
        _ => bytes.push(byte)?,
    }
    Ok(())
}

#[tactic(auto, unfolding(crate::specs::Listing::on_one_line))]
fn push_on_one_line(bytes: &mut Vec<u8>, tag: &[u8]) -> Result<(), AllocError>
    ensures ok { OnOk result (bytes.new.items ≡ bytes.old.items ++ on_one_line tag.now) }
{
    for byte in tag {
        push_line_byte(bytes, *byte)?;
    }
    Ok(())
}

fn push_escaped_between(
    bytes: &mut Vec<u8>,
    before: &[u8],
    text: &Chars,
    after: &[u8],
) -> Result<(), AllocError>
    ensures ok { OnOk result (bytes.new.items ≡ bytes.old.items
        ++ (before.now ++ escaped_bytes text.now ++ after.now)) }
{
    bytes.extend_from_slice(before)?;
    push_escaped(bytes, text.as_slice())?;
    bytes.extend_from_slice(after)?;
    Ok(())
}

// The line of a node, without its indentation and its end.
fn push_node_line(alloc: Global, bytes: &mut Vec<u8>, content: &Content) -> Result<(), AllocError>
    ensures ok { OnOk result (bytes.new.items ≡ bytes.old.items ++ node_line content.now) }
{
    match content {
        Content::Document => Ok(()),
        Content::Element { name, attributes } => {
            let mut tag = Vec::new(alloc);
            push_start_tag(&mut tag, name, attributes)?;
            push_on_one_line(bytes, &tag)
        }
        Content::Words(text) => push_escaped_between(bytes, b"\"", text, b"\""),
        Content::Remark(text) => push_escaped_between(bytes, b"<!--", text, b"-->"),
    }
}

// Two spaces for each level.
fn push_indent(bytes: &mut Vec<u8>, level: usize) -> Result<(), AllocError>
    ensures ok { OnOk result (bytes.new.items ≡ bytes.old.items ++ indent level) }
{
    for _ in 0..level {
        bytes.extend_from_slice(b"  ")?;
    }
    Ok(())
}

// The line of a node with its indentation and its end. It has a frame of its own, and so that of
// `push_lines`, of which there is one for each level, is small.
#[inline(never)]
fn push_line(
    alloc: Global,
    bytes: &mut Vec<u8>,
    level: usize,
    content: &Content,
) -> Result<(), AllocError>
    ensures ok { OnOk result (bytes.new.items ≡ bytes.old.items
        ++ (indent level ++ node_line content.now ++ codes "\n")) }
{
    push_indent(bytes, level)?;
    push_node_line(alloc, bytes, content)?;
    bytes.extend_from_slice(b"\n")?;
    Ok(())
}

// The lines of the trees from a node on: its own and those of its later siblings.
fn push_lines(
    alloc: Global,
    bytes: &mut Vec<u8>,
    arena: &Arena,
    first: Option<NodeRef>,
    level: usize,
) -> Result<(), AllocError>
    requires held { IfSome first (λ r. Holds arena.now r) }
    requires inner { IsInner arena.now.trees (label first) }
    requires room { level + total (λ _ _. 1) (onward_at arena.now.trees (label first)) < 2 ^ 64 }
    ensures ok { OnOk result (bytes.new.items ≡ bytes.old.items
        ++ lines_of level (onward_at arena.now.trees (label first))) }
{
    arena.valid();
    let mut at = first;
    while let Some(node) = at {
        push_line(alloc, bytes, level, arena.content(node))?;
        push_lines(alloc, bytes, arena, arena.first_child(node), level + 1)?;
        at = arena.next(node);
    }
    Ok(())
}

/// The document as a listing, in UTF-8: a line for each node below the Document in tree order,
/// indented by two spaces for each level below the first. An element's line is its start tag, with
/// LF, CR and tab as `\n`, `\r` and `\t`; a text stands in quotes and a comment between `<!--` and
/// `-->`, each escaped. Its calls go as deep as the tree.
pub fn write_tree(alloc: Global, arena: &Arena) -> Result<Vec<u8>, AllocError>
    ensures { IfOk result (λ bytes. bytes.items ≡ document_lines arena.now.trees) }
{
    arena.valid();
    let mut bytes = Vec::new(alloc);
    push_lines(
        alloc,
        &mut bytes,
        arena,
        arena.first_child(arena.document()),
        0,
    )?;
    Ok(bytes)
}
