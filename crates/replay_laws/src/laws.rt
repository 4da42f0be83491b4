//! The laws of logs, and of what the calls of an editor leave.

ghost use Rattle.edit_engine.specs.Editing.{Editing};
ghost use Rattle.replay_laws.specs.Bytes.{SessionLogsReplay, SessionsReadBack};
ghost use Rattle.replay_laws.specs.Beginnings.{BeginsWithPage, DrawsNewLabels, SpellsEntries};
ghost use Rattle.replay_laws.specs.Clauses.{ClausesAreCalls};
ghost use Rattle.replay_laws.specs.Lines.{LinesReplay, StepsAreLines};
ghost use Rattle.replay_laws.specs.ReadBack.{CallsReadBack, LabelsSuffice};
ghost use Rattle.replay_laws.specs.Sessions.{LinesAreCalls};
ghost use Rattle.replay_laws.specs.Steps.{CallsReplay};
ghost use Rattle.replay_laws.specs.Texts.{CallsTextReplays};

use edit_model::arena::Arena;

/// The text of steps has a line for each of them, and where steps that lines stand for are replayed
/// `replay` takes their lines.
pub fn steps_are_lines()
    ensures lines { StepsAreLines }
    ensures replayed { LinesReplay }
{}

/// What the clauses of the editor's calls say of them is what the definition of calls says.
pub fn clauses_are_calls()
    ensures { ClausesAreCalls }
{}

/// The lines of a session make calls of its editor.
pub fn lines_are_calls()
    ensures { LinesAreCalls }
{}

/// The log of an editor that dropped no entry begins with the document of the page, whatever calls
/// came. What its entries made are elements and texts with labels that no node of the page has, and
/// they changed the characters of texts alone.
pub fn logs_begin_with_the_page(page: &Arena)
    ensures begins { (e : Editing) → BeginsWithPage page.now e }
    ensures labels { (e : Editing) → DrawsNewLabels page.now e }
    ensures entries { (e : Editing) → SpellsEntries page.now e }
{
    page.valid();
}

/// So the steps of the log, replayed on the page, are refused nowhere and give the document that
/// the editor has, where that was never deeper than 1,000.
pub fn logs_replay(page: &Arena)
    ensures { (e : Editing) → CallsReplay page.now e }
{
    page.valid();
}

/// And so does the text of the log after the page block: `replay` prints the HTML and the numbers of
/// the document that the editor has.
pub fn log_texts_replay(page: &Arena)
    ensures { (e : Editing) → CallsTextReplays page.now e }
{
    page.valid();
}

/// The document that calls leave, printed as HTML and read again, is the same but that texts side
/// by side are joined and empty ones gone, where no void element has children, and the depth and the
/// length are within what is read. Labels below the cap of the editor suffice for it.
pub fn documents_read_back(page: &Arena)
    ensures same { (e : Editing) → CallsReadBack page.now e }
    ensures labels { (e : Editing) → LabelsSuffice page.now e }
{
    page.valid();
}

/// So it is of the bytes of every session that the program answers: after a block of its page, what
/// it answers to `log` is answered by `replay` with the HTML and the numbers that the session
/// answers to `html` and `stat`. The next label may be a lower one.
pub fn session_logs_replay()
    ensures { SessionLogsReplay }
{}

/// And what it answers to `html` is a page, which a session prints again.
pub fn sessions_read_back()
    ensures { SessionsReadBack }
{}
