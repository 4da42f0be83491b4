//! Inserting a paragraph: where it extracts a tail, and what it keeps.

ghost use Rattle.caret_laws.specs.ParagraphLaws.{ParagraphsExtractSingly, PartsExtractSingly};
ghost use Rattle.caret_laws.specs.ParagraphOrder.{PartingKeeps, InsertParagraphKeeps, LinesKeep};

/// Inserting a paragraph ends in the state in which it would end with the tail extracted by the
/// single edits of the standard, wherever a command comes to it: trees, points, edits and all.
pub fn paragraphs_extract_singly()
    ensures { ParagraphsExtractSingly }
{}

/// So do its steps after the first one, which erases what is selected.
pub fn parts_extract_singly()
    ensures { PartsExtractSingly }
{}

/// At a caret that stands in no image and no rule, in a line with a container of its own that is no
/// empty entry of a list, inserting a paragraph loses no image, no rule and no character other than
/// tab, LF, CR, space and U+00A0, keeps their order, and brings no other.
pub fn parting_keeps()
    ensures { PartingKeeps }
{}

/// At a caret that stands in no image and no rule, inserting a paragraph loses no image, no rule and
/// no character other than tab, LF, CR, space and U+00A0, keeps their order, and brings no other,
/// where nothing that it removes after the erasing bears one.
pub fn insert_paragraph_keeps()
    ensures { InsertParagraphKeeps }
{}

/// Where no node at, above or below the host has display none, and below it each rule is a block and
/// no image, rule or line break has children, inserting a paragraph at a caret that stands in no
/// image, no rule and no empty entry of a list loses no image, no rule and no character other than
/// tab, LF, CR, space and U+00A0, keeps their order, and brings no other.
pub fn lines_keep()
    ensures { LinesKeep }
{}
