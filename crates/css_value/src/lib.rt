//! The declarations of `style` attributes and the values of their properties, read from texts and
//! printed.
#![tactic(auto)]

mod colours;
mod declarations;
mod decoration;
mod only;
mod printed;
mod readers;
mod size_keywords;
mod sizes;
mod style_text;
mod value_text;
mod values;

pub use colours::Colour;
pub use declarations::Declarations;
pub use decoration::{
    DecorationLine, TextDecoration, has_line, read_text_decoration, without_line,
};
pub use html_names as element_names;
pub use only::{Only, sets_only};
pub use printed::{is_decimal, is_pixels};
pub use readers::find;
pub use size_keywords::size_keyword;
pub use sizes::legacy_size;
pub use style_text::{has_codes, trimmed};
pub use value_text::{print_font_size, print_font_weight};
pub use values::{
    Display, FontStyle, TextAlign, WhiteSpace, keyword_size, read_display, read_font_size,
    read_font_style, read_font_weight, read_text_align, read_white_space,
};
