//! What a node's style and name say of it: the resolved values of style properties, blocks and
//! whitespace, the classes of elements that editing commands speak of, and which node may stand in
//! which.
//!
//! Styles come from the attribute `style`, from the hints of `font` and of `align`, and from a
//! table by names; there are no style sheets. The terms are those of the W3C's *HTML Editing APIs*.
//! Only [`resolved`] takes memory.
#![tactic(auto)]

mod allowed;
mod blocks;
mod hints;
mod lineage;
mod names;
mod own;
mod values;

pub use allowed::{allowed_in, allowed_in_name, are_spaces, name_allowed_in};
pub use blocks::{
    has_no_box, is_block, is_block_content, is_hidden, is_whitespace, nearest_block, own_or_inline,
};
pub use css_value as css;
pub use css_value::element_names;
pub use hints::{family_hint, font_attribute, pixels_of, read_legacy_size};
pub use lineage::{
    Test, has_in_lineage, is_editable, is_element, is_host, is_named, nearest, turn_bound,
};
pub use names::{
    is_format_candidate, is_formattable_block, is_indentation, is_non_list_single_line,
    is_simple_indentation, is_single_line,
};
pub use node_arena as arena;
pub use node_arena::dom;
pub use own::{
    Family, attribute, declared, is_element_named, own_background_color, own_text_decoration,
};
pub use style_table as properties;
pub use values::{
    background_color, color, display, font_family, font_size, font_style, font_weight, resolved,
    text_align, text_decoration, white_space,
};
