//! Step lines, replayed on the nodes of a page.

ghost use Rattle.std.specs.Prelude.{◌≡◌, ◌<◌, ◌≤◌, ◌+◌, ◌^◌, IfOk, length};
ghost use Rattle.step_text.specs.Applying.{labelled};
ghost use Rattle.edit_session.specs.Block.{lines_of};
ghost use Rattle.edit_session.specs.Replay.{tallied, replayed, line_replayed, replay, ReplaysLine, Replays};

use crate::block::{after_line, line_end};
use std::alloc::Global;
use step_text::{Replay, StepFault, StepLine, read_step};

/// How many entries began, and how many steps were taken other than those that make a node.
#[derive(Clone, Copy, PartialEq, Eq, Debug)]
pub struct Tally {
    pub entries: usize,
    pub steps: usize,
}

/// The first line that doesn't fit, from 1, and why.
#[derive(Clone, Copy, PartialEq, Eq, Debug)]
pub struct Refusal {
    pub number: usize,
    pub fault: StepFault,
}

impl Tally {
    fn with(self, step: &StepLine) -> Tally
        requires entries { self.entries < 2 ^ 32 }
        requires steps { self.steps < 2 ^ 32 }
        ensures tallied { result ≡ tallied step.now self }
        ensures entries { result.entries ≤ self.entries + 1 }
        ensures steps { result.steps ≤ self.steps + 1 }
    {
        match step {
            StepLine::Entry => Tally {
                entries: self.entries + 1,
                ..self
            },
            StepLine::Make { .. } => self,
            _ => Tally {
                steps: self.steps + 1,
                ..self
            },
        }
    }
}

// Applies the step of a line.
#[tactic(auto, unfolding(crate::specs::Replay::line_replayed))]
fn replay_line(
    alloc: Global,
    page: &mut Replay,
    tally: Tally,
    line: &[u8],
) -> Result<Tally, StepFault>
    requires entries { tally.entries < 2 ^ 32 }
    requires steps { tally.steps < 2 ^ 32 }
    requires short { length line.now < 2 ^ 32 }
    ensures told { ReplaysLine result (labelled page.new) (line_replayed line.now
        (replayed tally (labelled page.old))) }
    ensures entries { IfOk result (λ t. t.entries ≤ tally.entries + 1) }
    ensures steps { IfOk result (λ t. t.steps ≤ tally.steps + 1) }
{
    let step = read_step(alloc, line)?;
    let tally = tally.with(&step);
    page.apply(step)?;
    Ok(tally)
}

/// Applies the steps of lines to the nodes of a page, up to the first that doesn't fit.
pub(crate) fn replay_lines(alloc: Global, page: &mut Replay, lines: &[u8]) -> Result<Tally, Refusal>
    requires { length lines.now < 2 ^ 32 }
    ensures { Replays result (labelled page.new)
        (replay (lines_of lines.now) (labelled page.old)) }
{
    let mut tally = Tally {
        entries: 0,
        steps: 0,
    };
    let mut number = 1;
    let mut rest = lines;
    while !rest.is_empty() {
        let end = line_end(rest);
        match replay_line(alloc, page, tally, &rest[..end]) {
            Ok(next) => tally = next,
            Err(fault) => return Err(Refusal { number, fault }),
        }
        number += 1;
        rest = after_line(rest, end);
    }
    Ok(tally)
}
