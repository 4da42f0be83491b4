//! Which element may stand in which, by their names alone.
ghost use Rattle.std.specs.Prelude.{◌≡◌};
ghost use Rattle.std.specs.List.{list_any};
ghost use Rattle.std.specs.Option.{option_map};
ghost use Rattle.std.specs.Str.{bytes_eq};
ghost use Rattle.html_names.specs.AllowedChildren as children;
ghost use Rattle.html_names.specs.ElementNames.{is_one_of};

use crate::elements::{has_inline_contents, is_heading, is_one_of, is_prohibited_child};

static COLGROUP_NAMES: [&[u8]; 1] = [b"colgroup"];

static COLGROUP_CONTENT: [&[u8]; 1] = [b"col"];

static TABLE_NAMES: [&[u8]; 1] = [b"table"];

static TABLE_CONTENT: [&[u8]; 9] = [
    b"caption",
    b"col",
    b"colgroup",
    b"tbody",
    b"td",
    b"tfoot",
    b"th",
    b"thead",
    b"tr",
];

static TABLE_SECTION_NAMES: [&[u8]; 3] = [b"tbody", b"tfoot", b"thead"];

static TABLE_SECTION_CONTENT: [&[u8]; 3] = [b"td", b"th", b"tr"];

static TABLE_ROW_NAMES: [&[u8]; 1] = [b"tr"];

static TABLE_ROW_CONTENT: [&[u8]; 2] = [b"td", b"th"];

static DESCRIPTION_LIST_NAMES: [&[u8]; 1] = [b"dl"];

static DESCRIPTION_LIST_CONTENT: [&[u8]; 2] = [b"dt", b"dd"];

static LIST_NAMES: [&[u8]; 3] = [b"dir", b"ol", b"ul"];

static LIST_CONTENT: [&[u8]; 4] = [b"dir", b"li", b"ol", b"ul"];

static HEADING_GROUP_NAMES: [&[u8]; 1] = [b"hgroup"];

static HEADING_GROUP_CONTENT: [&[u8]; 6] = [b"h1", b"h2", b"h3", b"h4", b"h5", b"h6"];

static BOUND_NAMES: [&[u8]; 17] = [
    b"body",
    b"caption",
    b"col",
    b"colgroup",
    b"frame",
    b"frameset",
    b"head",
    b"html",
    b"tbody",
    b"td",
    b"tfoot",
    b"th",
    b"thead",
    b"tr",
    b"dd",
    b"dt",
    b"li",
];

// Whether a parent that lists its children lists this one; `None` where the parent lists none.
#[tactic(auto, unfolding(crate::specs::AllowedChildren::listed_children, crate::specs::AllowedChildren::contents))]
fn is_listed(child: &[u8], parent: &[u8]) -> Option<bool>
    ensures { result
        ≡ option_map (λ row. is_one_of row.1 child.now) (children.listed_children parent.now) }
{
    if is_one_of(&COLGROUP_NAMES, parent) {
        return Some(is_one_of(&COLGROUP_CONTENT, child));
    }
    if is_one_of(&TABLE_NAMES, parent) {
        return Some(is_one_of(&TABLE_CONTENT, child));
    }
    if is_one_of(&TABLE_SECTION_NAMES, parent) {
        return Some(is_one_of(&TABLE_SECTION_CONTENT, child));
    }
    if is_one_of(&TABLE_ROW_NAMES, parent) {
        return Some(is_one_of(&TABLE_ROW_CONTENT, child));
    }
    if is_one_of(&DESCRIPTION_LIST_NAMES, parent) {
        return Some(is_one_of(&DESCRIPTION_LIST_CONTENT, child));
    }
    if is_one_of(&LIST_NAMES, parent) {
        return Some(is_one_of(&LIST_CONTENT, child));
    }
    if is_one_of(&HEADING_GROUP_NAMES, parent) {
        return Some(is_one_of(&HEADING_GROUP_CONTENT, child));
    }
    None
}

// Whether both elements have this name.
fn are_both(child: &[u8], parent: &[u8], name: &[u8]) -> bool
    ensures { result ≡ children.both name.now child.now parent.now }
{
    child == name && parent == name
}

// Whether the child may not stand in the parent, where neither is bound to certain places.
#[tactic(auto, unfolding(crate::specs::AllowedChildren::is_kept_out))]
fn is_kept_out(child: &[u8], parent: &[u8]) -> bool
    ensures { result ≡ children.is_kept_out child.now parent.now }
{
    are_both(child, parent, b"a")
        || (is_heading(child) && is_heading(parent))
        || are_both(child, parent, b"nobr")
        || (is_prohibited_child(child) && has_inline_contents(parent))
}

/// Whether an element of the name `child` is an allowed child of the name `parent` (HTML Editing
/// APIs, "allowed child"), whatever stands above the parent.
#[tactic(auto, unfolding(crate::specs::AllowedChildren::allowed_child, crate::specs::AllowedChildren::bound_names))]
pub fn allowed_child(child: &[u8], parent: &[u8]) -> bool
    ensures { result ≡ children.allowed_child child.now parent.now }
{
    match is_listed(child, parent) {
        Some(listed) => listed,
        None => !is_one_of(&BOUND_NAMES, child) && !is_kept_out(child, parent),
    }
}
