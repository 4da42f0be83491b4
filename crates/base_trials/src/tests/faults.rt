//! What faults print.

use super::rows::assert_row;
use edit_io::{Failed, ReadAllFault, SinkFault};
use edit_model::EditFault;
use edit_model::arena::MakeFault;
use edit_model::dom_ranges::MarkFault;
use page_read::{PageFault, PageKind};
use std::alloc::Global;
use std::fmt::Display;
use step_text::StepFault;
use step_text::script::LineFault;

// Whether a fault prints itself so.
fn prints<F: Display>(alloc: Global, fault: &F, want: &str) -> bool {
    match format!(in alloc; "{fault}") {
        Ok(text) => text.as_str() == want,
        Err(_) => false,
    }
}

// Whether faults print themselves so.
fn each_prints<F: Display>(alloc: Global, rows: &[(F, &str)]) -> bool {
    for (fault, want) in rows {
        if !prints(alloc, fault, want) {
            return false;
        }
    }
    true
}

static READ_ALL_FAULTS: [(ReadAllFault, &str); 3] = [
    (ReadAllFault::Failed, "a read failed"),
    (ReadAllFault::TooLong, "the input is too long"),
    (ReadAllFault::Memory, "out of memory"),
];

static MAKE_FAULTS: [(MakeFault, &str); 2] = [
    (MakeFault::Full, "no label is left below the cap"),
    (MakeFault::Memory, "out of memory"),
];

static EDIT_FAULTS: [(EditFault, &str); 2] = [
    (EditFault::Full, "no label is left below the cap"),
    (EditFault::Memory, "out of memory"),
];

static MARK_FAULTS: [(MarkFault, &str); 2] = [
    (
        MarkFault::TooManyMarks,
        "16 marks of other names are there already",
    ),
    (MarkFault::Memory, "out of memory"),
];

#[test]
fn faults_of_streams_nodes_and_points(rt: HostRuntime) {
    let alloc = rt.alloc();
    assert!(rt; prints(alloc, &Failed, "the read failed"));
    assert!(rt; prints(alloc, &SinkFault::Failed, "the write failed"));
    assert!(rt; each_prints(alloc, &READ_ALL_FAULTS));
    assert!(rt; each_prints(alloc, &MAKE_FAULTS));
    assert!(rt; each_prints(alloc, &EDIT_FAULTS));
    assert!(rt; each_prints(alloc, &MARK_FAULTS));
}

// What a fault at byte 7 prints.
static PAGE_FAULTS: [(PageKind, &str); 12] = [
    (PageKind::NotUtf8, "byte 7: the text is not UTF-8"),
    (PageKind::BadTag, "byte 7: the tag is malformed"),
    (PageKind::Unclosed, "byte 7: the page ends too early"),
    (
        PageKind::StrayEnd,
        "byte 7: no open element has this end tag",
    ),
    (
        PageKind::BadAttribute,
        "byte 7: the attributes are malformed",
    ),
    (
        PageKind::RepeatedAttribute,
        "byte 7: the tag has this attribute already",
    ),
    (
        PageKind::UnknownReference,
        "byte 7: the character reference is unknown",
    ),
    (
        PageKind::UnsupportedElement,
        "byte 7: a page may not have this element",
    ),
    (PageKind::TooDeep, "byte 7: the document would be too deep"),
    (PageKind::TooLong, "byte 7: the page is too long"),
    (PageKind::Full, "byte 7: no label is left below the cap"),
    (PageKind::Memory, "out of memory"),
];

static LINE_FAULTS: [(LineFault, &str); 4] = [
    (
        LineFault::Syntax,
        "the line is outside the grammar of its act",
    ),
    (
        LineFault::UnknownAct,
        "the first word of the line is no act",
    ),
    (LineFault::LongLine, "the line has more than 8192 bytes"),
    (LineFault::Memory, "out of memory"),
];

static STEP_FAULTS: [(StepFault, &str); 5] = [
    (StepFault::Syntax, "the line is no step"),
    (
        StepFault::BadLabel,
        "the label is taken, unknown or not below the cap",
    ),
    (
        StepFault::BadPlace,
        "the node can't go there, or isn't of the kind",
    ),
    (StepFault::TooDeep, "the document would be too deep"),
    (StepFault::Memory, "out of memory"),
];

#[test]
fn faults_of_pages_and_lines(rt: HostRuntime) {
    let alloc = rt.alloc();
    for (kind, want) in &PAGE_FAULTS {
        let fault = PageFault { at: 7, kind: *kind };
        assert_row(&rt, prints(alloc, &fault, want), want);
    }
    assert!(rt; each_prints(alloc, &LINE_FAULTS));
    assert!(rt; each_prints(alloc, &STEP_FAULTS));
}
