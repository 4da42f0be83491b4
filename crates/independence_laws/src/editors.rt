//! The laws of editors.

ghost use Rattle.independence_laws.specs.Editors.{MarksAreIgnored, MarksAreIgnoredWhereDenied, MarksAreIgnoredAtRanges, CapsOnlyRefuse, QuestionsIgnoreMarks};

/// What a command comes to doesn't depend on the marks, on the history or, unless it is refused for
/// want of labels, on the cap: of two editors whose states are the same but for these it is refused
/// in both for one cause, or answers the same and leaves such editors.
pub fn marks_are_ignored()
    ensures { MarksAreIgnored }
{}

/// So it is where a host program denies commands by their names.
pub fn marks_are_ignored_where_denied()
    ensures { MarksAreIgnoredWhereDenied }
{}

/// So it is with the replacement of a range by a text.
pub fn marks_are_ignored_at_ranges()
    ensures { MarksAreIgnoredAtRanges }
{}

/// What is refused at a cap is refused at every smaller one. So two editors with one cap both
/// refuse a command for want of labels, or neither does.
pub fn caps_only_refuse()
    ensures { CapsOnlyRefuse }
{}

/// What is answered to a question doesn't depend on the marks or the cap.
pub fn questions_ignore_marks()
    ensures { QuestionsIgnoreMarks }
{}
