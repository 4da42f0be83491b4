//! Erasing what is selected, the first step of the commands that insert something.

ghost use Rattle.caret_laws.specs.ErasingLaws.{ErasingKeeps};

/// At a caret it loses no image, no rule and no character other than tab, LF, CR, space and U+00A0,
/// keeps their order, brings no other, and leaves a caret: it lays out blanks anew alone.
pub fn erasing_keeps()
    ensures { ErasingKeeps }
{}
