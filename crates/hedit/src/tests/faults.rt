//! What the faults of calls of the editor print.

use edit_engine::{ExecFault, LogFault, PlaceFault, ViewFault};
use std::alloc::Global;
use std::fmt::Display;

// Whether a fault prints itself so.
fn prints<F: Display>(alloc: Global, fault: &F, want: &str) -> bool {
    match format!(in alloc; "{fault}") {
        Ok(text) => text.as_str() == want,
        Err(_) => false,
    }
}

// Whether faults print themselves so.
fn each_prints<F: Display>(alloc: Global, rows: &[(F, &str)]) -> bool {
    for (fault, want) in rows {
        if !prints(alloc, fault, want) {
            return false;
        }
    }
    true
}

static EXEC_FAULTS: [(ExecFault, &str); 3] = [
    (ExecFault::Full, "no label is left below the cap"),
    (ExecFault::Deep, "the document is too deep"),
    (ExecFault::Memory, "out of memory"),
];

static PLACE_FAULTS: [(PlaceFault, &str); 3] = [
    (PlaceFault::BadPlace, "the document has no such place"),
    (
        PlaceFault::TooManyMarks,
        "16 marks of other names are there already",
    ),
    (PlaceFault::Memory, "out of memory"),
];

static LOG_FAULTS: [(LogFault, &str); 2] = [
    (LogFault::LogCut, "the oldest entries of the log are gone"),
    (LogFault::Memory, "out of memory"),
];

static VIEW_FAULTS: [(ViewFault, &str); 2] = [
    (ViewFault::BadPlace, "the document has no such node"),
    (ViewFault::Memory, "out of memory"),
];

#[test]
fn faults_of_calls_and_views(rt: HostRuntime) {
    let alloc = rt.alloc();
    assert!(rt; each_prints(alloc, &EXEC_FAULTS));
    assert!(rt; each_prints(alloc, &PLACE_FAULTS));
    assert!(rt; each_prints(alloc, &LOG_FAULTS));
    assert!(rt; each_prints(alloc, &VIEW_FAULTS));
}
