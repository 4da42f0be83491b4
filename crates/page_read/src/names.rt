//! Names of elements with a meaning in the grammar of pages.

ghost use Rattle.std.specs.Prelude.{◌≡◌};
ghost use Rattle.page_grammar.specs.Names as names;

/// Whether a page may not have an element of this name.
#[tactic(auto, unfolding(crate::specs::Below::is_supported, page_grammar::specs::Names::is_refused))]
pub(crate) fn is_refused(name: &[u8]) -> bool
    ensures { result ≡ names.is_refused name.now }
{
    !page_grammar::element_names::is_supported(name)
}
