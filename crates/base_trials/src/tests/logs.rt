//! A list of numbers, edited by writes and swaps under a log of their inverses.
ghost use Rattle.std.specs.Prelude.{◌≡◌, ◌<◌, ◌↔◌, IsTrue, length};

use edit_model::stepping::Steps;
use std::alloc::{AllocError, Global};
use std::marker::{Brand, Model};
use std::sync::ledger::{Blank, Ledger};
use std::test::Fail;
use undo_log::{Committed, Invertible, UndoLog, Watch, laws};

type Numbers = [u32; 4];

#[derive(Clone, Copy)]
enum Edit {
    Write(usize, u32),
    Swap(usize, usize),
}

impl Invertible<Numbers> for Edit {
    ghost use Rattle.std.specs.Prelude.{◌<◌, length, List, ℕ, slice_set, slice_index, refl};
    ghost use Rattle.std.specs.List.{swap};
    ghost use Rattle.base_trials.specs.Numbers.{write_twice, swap_twice};
    ghost use Rattle.base_trials.specs.declared.tests.logs.Edit.TheVariants.{Write, Swap};
    ghost use Rattle.std.proofs.Common.{rules};
    ghost use Rattle.std.proofs.lemmas.Grind.{common_steps};

    ghost fits = { λ e xs.
        elim e as (λ _.
        Type 0) [
          | Write at value ↦ at < length xs
          | Swap left right ↦ (left < length xs)
              × (right < length xs)
        ] };

    ghost applied = { λ e xs. elim e as (λ _.
        List ℕ) [ Write at value ↦ slice_set xs at value | Swap left right ↦ swap xs left right ] };

    ghost inverse = { λ e xs. elim e
        [ Write at value ↦ Write at (slice_index xs at) | Swap left right ↦ Swap left right ] };

    ghost fits_again = { elim [
      | Write at value ↦ Prim.search (rules, common_steps)
      | Swap left right ↦ Prim.search
          (rules, common_steps)
    ] };

    ghost state_again = { elim [
      | Write at value ↦ λ s h. write_twice s at value
      | Swap left right ↦ λ s h.
          swap_twice s left right h.0 h.1
    ] };

    ghost step_again = { elim [
      | Write at value ↦ Prim.search (rules, common_steps)
      | Swap left right ↦ λ s h.
          refl
    ] };

    fn apply(&mut self, numbers: &mut Numbers) {
        match *self {
            Edit::Write(at, value) => {
                *self = Edit::Write(at, numbers[at]);
                numbers[at] = value;
            }
            Edit::Swap(left, right) => numbers.swap(left, right),
        }
    }
}

// A state and the log of its edits, as a caller keeps them: the log follows the state at every
// moment.
#[derive(Drop)]
pub(crate) struct Session<T: Invertible<S> + Drop, S: Drop, L: Ledger> {
    log: UndoLog<T>,
    state: S,
    steps: Steps<L>,
    busy: bool,
}

impl<T: Invertible<S> + Drop, S: Drop, L: Ledger> Model for Session<T, S, L> {
    ghost use Rattle.undo_log.specs.Log.{is_open};
    ghost use Rattle.undo_log.specs.States.{Follows};
    ghost use Rattle.std.specs.Prelude.{◌≡◌};

    ghost Value = { S };

    ghost coded = { S.code };

    ghost view = { λ s. s.state };

    ghost invariant = { λ s. Follows T.applied T.fits s.log s.state × (s.busy ≡ is_open s.log.open_entry) };
}

impl<T: Invertible<S> + Drop, S: Drop, L: Ledger> Session<T, S, L> {
    pub(crate) fn new(
        alloc: Global,
        depth: usize,
        state: S,
        steps: Steps<L>,
    ) -> Result<Self, AllocError>
        requires { 0 < depth }
    {
        laws::starts::<T, S>();
        let log = UndoLog::new(alloc, depth)?;
        Ok(Session {
            log,
            state,
            steps,
            busy: false,
        })
    }

    pub(crate) fn state(&self) -> &S
        ensures { result.now ≡ self.now }
    {
        &self.state
    }

    // What `undo_len`, `redo_len` and `entry_len` answer.
    pub(crate) fn lens(&self) -> [usize; 3] {
        [
            self.log.undo_len(),
            self.log.redo_len(),
            self.log.entry_len(),
        ]
    }

    pub(crate) fn begin(&mut self) {
        if !self.busy {
            laws::opens::<T, S>();
            self.log.begin();
            self.busy = true;
        }
    }

    pub(crate) fn resume(&mut self) -> bool {
        if self.busy {
            return false;
        }
        laws::opens::<T, S>();
        let resumed = self.log.resume();
        self.busy = resumed;
        resumed
    }

    pub(crate) fn edit(&mut self, step: T) -> Result<(), AllocError>
        requires { T.fits step self.old }
    {
        if !self.busy {
            return Ok(());
        }
        laws::notes::<T, S>();
        let mut step = step;
        step.apply(&mut self.state);
        match self.log.note(step) {
            Ok(()) => Ok(()),
            Err(mut step) => {
                step.apply(&mut self.state);
                Err(AllocError)
            }
        }
    }

    pub(crate) fn commit(&mut self) -> Committed {
        if !self.busy {
            return Committed::Nothing;
        }
        laws::commits::<T, S>();
        self.log.valid();
        self.busy = false;
        self.log.commit()
    }

    pub(crate) fn abandon(&mut self) {
        if self.busy {
            laws::allows::<T, S>();
            self.log.abandon(&mut self.state);
            self.busy = false;
        }
    }

    pub(crate) fn undo(&mut self) -> bool {
        if self.busy {
            return false;
        }
        laws::allows::<T, S>();
        self.log.undo(&mut self.state, &mut self.steps)
    }

    pub(crate) fn redo(&mut self) -> bool {
        if self.busy {
            return false;
        }
        laws::allows::<T, S>();
        self.log.redo(&mut self.state, &mut self.steps)
    }

    fn watch_last<W: Watch<T, S>>(&mut self, kept: usize, watcher: &mut W) {
        if self.busy || self.log.entry_len() < kept {
            return;
        }
        laws::allows::<T, S>();
        self.log.watch_last(kept, &mut self.state, watcher);
    }

    fn watch_undone<W: Watch<T, S>>(&mut self, watcher: &mut W) {
        if self.busy {
            return;
        }
        laws::allows::<T, S>();
        self.log.watch_undone(&mut self.state, watcher);
    }

    fn pop_redo(&mut self) -> Option<Vec<T>> {
        laws::drops::<T, S>();
        self.log.pop_redo()
    }

    fn pop_oldest(&mut self) -> Option<Vec<T>> {
        if self.busy {
            return None;
        }
        laws::drops::<T, S>();
        self.log.pop_oldest()
    }
}

#[derive(Clone, Copy)]
enum Call {
    Begin,
    Write(usize, u32),
    Swap(usize, usize),
    Commit,
    Abandon,
    Undo,
    Redo,
    Resume,
    PopRedo,
    PopOldest,
}

// A call, its answer, and afterwards the numbers and what `undo_len`, `redo_len` and `entry_len`
// answer.
type Row = (Call, usize, Numbers, [usize; 3]);

// At a depth of 2, from 1 2 3 4.
static ROWS: [Row; 44] = [
    // nothing there
    (Call::Undo, 0, [1, 2, 3, 4], [0, 0, 0]),
    (Call::Redo, 0, [1, 2, 3, 4], [0, 0, 0]),
    (Call::Resume, 0, [1, 2, 3, 4], [0, 0, 0]),
    (Call::PopOldest, 0, [1, 2, 3, 4], [0, 0, 0]),
    (Call::Begin, 0, [1, 2, 3, 4], [0, 0, 0]),
    (Call::Commit, 0, [1, 2, 3, 4], [0, 0, 0]),
    // an entry of two steps, undone and redone
    (Call::Begin, 0, [1, 2, 3, 4], [0, 0, 0]),
    (Call::Write(0, 9), 1, [9, 2, 3, 4], [0, 0, 0]),
    (Call::Swap(0, 3), 1, [4, 2, 3, 9], [0, 0, 0]),
    (Call::Commit, 1, [4, 2, 3, 9], [1, 0, 2]),
    (Call::Undo, 1, [1, 2, 3, 4], [0, 1, 0]),
    (Call::Resume, 0, [1, 2, 3, 4], [0, 1, 0]),
    (Call::Redo, 1, [4, 2, 3, 9], [1, 0, 2]),
    // resumed: one step more, then one that is abandoned, then none
    (Call::Resume, 1, [4, 2, 3, 9], [1, 0, 2]),
    (Call::Write(1, 7), 1, [4, 7, 3, 9], [1, 0, 2]),
    (Call::Commit, 1, [4, 7, 3, 9], [1, 0, 3]),
    (Call::Undo, 1, [1, 2, 3, 4], [0, 1, 0]),
    (Call::Redo, 1, [4, 7, 3, 9], [1, 0, 3]),
    (Call::Resume, 1, [4, 7, 3, 9], [1, 0, 3]),
    (Call::Swap(0, 1), 1, [7, 4, 3, 9], [1, 0, 3]),
    (Call::Write(0, 5), 1, [5, 4, 3, 9], [1, 0, 3]),
    (Call::Abandon, 0, [4, 7, 3, 9], [1, 0, 3]),
    (Call::Resume, 1, [4, 7, 3, 9], [1, 0, 3]),
    (Call::Commit, 0, [4, 7, 3, 9], [1, 0, 3]),
    // the third entry drops the first
    (Call::Begin, 0, [4, 7, 3, 9], [1, 0, 3]),
    (Call::Swap(2, 3), 1, [4, 7, 9, 3], [1, 0, 3]),
    (Call::Commit, 1, [4, 7, 9, 3], [2, 0, 1]),
    (Call::Begin, 0, [4, 7, 9, 3], [2, 0, 1]),
    (Call::Write(3, 1), 1, [4, 7, 9, 1], [2, 0, 1]),
    (Call::Commit, 1, [4, 7, 9, 1], [2, 0, 1]),
    (Call::Undo, 1, [4, 7, 9, 3], [1, 1, 1]),
    (Call::Undo, 1, [4, 7, 3, 9], [0, 2, 0]),
    (Call::Undo, 0, [4, 7, 3, 9], [0, 2, 0]),
    (Call::Redo, 1, [4, 7, 9, 3], [1, 1, 1]),
    // an abandoned entry keeps the one that redo would take, and a new one drops it
    (Call::Begin, 0, [4, 7, 9, 3], [1, 1, 1]),
    (Call::Write(0, 0), 1, [0, 7, 9, 3], [1, 1, 1]),
    (Call::Abandon, 0, [4, 7, 9, 3], [1, 1, 1]),
    (Call::Begin, 0, [4, 7, 9, 3], [1, 1, 1]),
    (Call::Write(0, 0), 1, [0, 7, 9, 3], [1, 1, 1]),
    (Call::Commit, 1, [0, 7, 9, 3], [2, 0, 1]),
    (Call::Redo, 0, [0, 7, 9, 3], [2, 0, 1]),
    // entries taken out at both ends: how many steps they have
    (Call::Undo, 1, [4, 7, 9, 3], [1, 1, 1]),
    (Call::PopRedo, 1, [4, 7, 9, 3], [1, 0, 1]),
    (Call::PopOldest, 1, [4, 7, 9, 3], [0, 0, 0]),
];

// The row that drops the first entry.
const THIRD_ENTRY: usize = 29;

// An array's length is a number here, and a list's in what `edit` requires.
fn has(numbers: &[u32], at: usize) -> bool
    ensures { IsTrue result ↔ (at < length numbers.now) }
{
    at < numbers.len()
}

fn count(steps: Option<Vec<Edit>>) -> usize {
    match steps {
        Some(steps) => steps.len(),
        None => 0,
    }
}

fn answer<L: Ledger>(
    session: &mut Session<Edit, Numbers, L>,
    call: Call,
) -> Result<usize, AllocError> {
    let answer = match call {
        Call::Begin => {
            session.begin();
            0
        }
        Call::Write(at, value) => {
            if has(&session.state, at) {
                session.edit(Edit::Write(at, value))?;
            }
            1
        }
        Call::Swap(left, right) => {
            if has(&session.state, left) && has(&session.state, right) {
                session.edit(Edit::Swap(left, right))?;
            }
            1
        }
        Call::Commit => (session.commit() == Committed::Entry) as usize,
        Call::Abandon => {
            session.abandon();
            0
        }
        Call::Undo => session.undo() as usize,
        Call::Redo => session.redo() as usize,
        Call::Resume => session.resume() as usize,
        Call::PopRedo => count(session.pop_redo()),
        Call::PopOldest => count(session.pop_oldest()),
    };
    Ok(answer)
}

// Whether a log has these lengths, has the next entry where it has one to redo, and has dropped one
// or none.
fn has_lengths(log: &UndoLog<Edit>, lens: [usize; 3], dropped: bool) -> bool {
    let has_next = match log.next_entry() {
        Some(steps) => !steps.is_empty(),
        None => false,
    };
    [log.undo_len(), log.redo_len(), log.entry_len()] == lens
        && has_next == (log.redo_len() > 0)
        && log.has_dropped() == dropped
}

// The first row that is not met.
fn first_other<L: Ledger>(
    session: &mut Session<Edit, Numbers, L>,
) -> Result<Option<usize>, AllocError> {
    for (at, (call, wanted, numbers, lens)) in ROWS.iter().enumerate() {
        let got = answer(session, *call)?;
        let is_as_told = has_lengths(&session.log, *lens, THIRD_ENTRY <= at);
        if got != *wanted || session.state != *numbers || !is_as_told {
            return Ok(Some(at));
        }
    }
    Ok(None)
}

fn run<L: Ledger>(alloc: Global, blank: Blank) -> Result<Option<usize>, AllocError>
    requires name { blank.name ≡ L.name }
    requires parts { blank.parts ≡ L.parts }
    requires some { 0 < blank.parts }
{
    let steps = Steps::<L>::open(blank);
    let mut session = Session::<Edit, Numbers, L>::new(alloc, 2, [1, 2, 3, 4], steps)?;
    first_other(&mut session)
}

#[test]
fn keeps_the_numbers(rt: HostRuntime) -> Result<(), Fail> {
    let other = run::<Brand>(rt.alloc(), Blank::new(1))?;
    assert_eq!(rt; other, None);
    Ok(())
}

// A watcher: how many steps it saw, up to two, and the numbers before each of those.
#[derive(Clone, Copy, PartialEq, Eq, Debug)]
struct Sights {
    count: usize,
    numbers: [Numbers; 2],
}

impl Watch<Edit, Numbers> for Sights {
    ghost seen = { λ before step numbers after. Unit {0} };

    fn see(&mut self, _step: &Edit, numbers: &Numbers) {
        if self.count < 2 {
            self.numbers[self.count] = *numbers;
            self.count += 1;
        }
    }
}

static NONE: Sights = Sights {
    count: 0,
    numbers: [[0; 4]; 2],
};

// What is seen of an entry that writes 9 at 0 and swaps 0 and 3, from 1 2 3 4, past each count of
// its steps.
static MADE: [Sights; 3] = [
    Sights {
        count: 2,
        numbers: [[1, 2, 3, 4], [9, 2, 3, 4]],
    },
    Sights {
        count: 1,
        numbers: [[9, 2, 3, 4], [0; 4]],
    },
    NONE,
];

// What is seen of how undo took it back.
static UNDONE: Sights = Sights {
    count: 2,
    numbers: [[4, 2, 3, 9], [9, 2, 3, 4]],
};

fn last_sights<L: Ledger>(session: &mut Session<Edit, Numbers, L>, kept: usize) -> Sights {
    let mut sights = NONE;
    session.watch_last(kept, &mut sights);
    sights
}

fn undone_sights<L: Ledger>(session: &mut Session<Edit, Numbers, L>) -> Sights {
    let mut sights = NONE;
    session.watch_undone(&mut sights);
    sights
}

// What is seen with an entry and once it is undone, of the last entry past each count of steps, and
// of the one that redo would take.
fn watch_entry<L: Ledger>(
    alloc: Global,
    blank: Blank,
) -> Result<([Sights; 4], [Sights; 2], Numbers), AllocError>
    requires name { blank.name ≡ L.name }
    requires parts { blank.parts ≡ L.parts }
    requires some { 0 < blank.parts }
{
    let steps = Steps::<L>::open(blank);
    let mut session = Session::<Edit, Numbers, L>::new(alloc, 2, [1, 2, 3, 4], steps)?;
    for call in [
        Call::Begin,
        Call::Write(0, 9),
        Call::Swap(0, 3),
        Call::Commit,
    ] {
        answer(&mut session, call)?;
    }
    let made = [
        last_sights(&mut session, 0),
        last_sights(&mut session, 1),
        last_sights(&mut session, 2),
        undone_sights(&mut session),
    ];
    session.undo();
    let undone = [last_sights(&mut session, 0), undone_sights(&mut session)];
    session.redo();
    Ok((made, undone, session.state))
}

#[test]
fn shows_an_entry(rt: HostRuntime) -> Result<(), Fail> {
    let (made, undone, numbers) = watch_entry::<Brand>(rt.alloc(), Blank::new(1))?;
    assert_eq!(rt; made, [MADE[0], MADE[1], MADE[2], NONE]);
    assert_eq!(rt; undone, [NONE, UNDONE]);
    assert_eq!(rt; numbers, [4, 2, 3, 9]);
    Ok(())
}
