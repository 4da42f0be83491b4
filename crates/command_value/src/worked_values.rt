//! What the definitions of command values say of small pages. Each function has an empty body: its
//! contract is the rows.

ghost use Rattle.std.specs.Prelude.{◌≡◌, Bool, Some, None, codes};
ghost use Rattle.node_styles.specs.HtmlNames.declared.commands.Command.TheVariants as command;
ghost use Rattle.command_value.specs.EffectiveValues as effective;
ghost use Rattle.command_value.specs.Equivalence as values;
ghost use Rattle.command_value.specs.SpecifiedValues as specified;
ghost use Rattle.command_value.specs.WorkedPages.{bold_page, script_page, size_page};

/// Of `<b>x</b>`: the text has the effective weight 700, and the element the specified weight bold,
/// which is equivalent.
pub fn bold_values()
    ensures effective { effective.effective bold_page 2 command.Bold ≡ Some (codes "700") }
    ensures specified { specified.specified bold_page 1 command.Bold ≡ Some (codes "bold") }
    ensures equivalent { values.equivalent command.Bold
        (effective.effective bold_page 2 command.Bold)
        (specified.specified bold_page 1 command.Bold) ≡ Bool.true }
{}

/// Of `<sub>a<sup>b</sup></sub>`: the first text is subscript, and the second one mixed.
pub fn script_values()
    ensures single { effective.effective script_page 2 command.Subscript
        ≡ Some (codes "subscript") }
    ensures mixed { effective.effective script_page 4 command.Subscript ≡ Some (codes "mixed") }
{}

/// Of `<font size="+1">x</font>`: the element specifies large, and the text has the effective size
/// 18px, which is alike but not equivalent.
pub fn size_values()
    ensures specified { specified.specified size_page 1 command.FontSize ≡ Some (codes "large") }
    ensures effective { effective.effective size_page 2 command.FontSize ≡ Some (codes "18px") }
    ensures alike { values.alike command.FontSize (specified.specified size_page 1 command.FontSize)
        (effective.effective size_page 2 command.FontSize) ≡ Bool.true }
    ensures apart { values.equivalent command.FontSize
        (specified.specified size_page 1 command.FontSize)
        (effective.effective size_page 2 command.FontSize) ≡ Bool.false }
{}
