//! How the calls of an editor end.

ghost use Rattle.std.specs.Prelude.{◌≡◌, Bool};
ghost use Rattle.hedit_c.specs.Statuses.{number_of, answer_status};

/// The status of a call. C sees the number, which is that of the program's status of the same
/// meaning, if there is one.
#[derive(Clone, Copy, PartialEq, Eq, Debug)]
pub enum Status {
    /// The call was done. Its answer, if it has one, is true.
    Done = 0,
    /// The answer is false.
    No = 1,
    /// Memory ran out. The editor is unchanged.
    Memory = 5,
    /// The bytes aren't a page.
    PageRefused = 6,
    /// The buffer is too small for the text. The call gives the length that it needs.
    TooSmall = 9,
    /// A node that the command makes would have a label that isn't below the cap.
    Full = 10,
    /// The document has more than 250 levels.
    Deep = 11,
    /// A path names no node, or an offset is past its length.
    BadPlace = 12,
    /// There are 16 markers of other names.
    TooManyMarks = 13,
    /// A number is invalid, a text isn't UTF-8, or a limit is 0.
    BadArgument = 14,
    /// The handle has no editor.
    Closed = 15,
}

impl Status {
    /// The number that C sees.
    pub(crate) fn number(self) -> u32
        ensures { result ≡ number_of self }
    {
        self as u32
    }

    /// The status of a call that answers.
    pub(crate) fn answer(answer: bool) -> Status
        ensures { result ≡ answer_status answer }
    {
        if answer { Status::Done } else { Status::No }
    }
}
