//! edit_bench: makes an edit in a page, time and again, so that a script can measure what one time costs.
//!
//! `edit_bench ACT LABEL ROUNDS` reads a page from standard input, whose first node is an editing host. In each round a command
//! begins, does the act to the node of that label, and is committed and undone. It prints how many edits all rounds
//! made.
//!
//! | ACT | Does |
//! |---|---|
//! | `split` | splits the parent of the node |
//! | `unwrap` | removes the node, and its children stay |
//! | `wrap` | wraps the node in a new div |
//! | `join` | wraps the node in the simple indentation element beside it |
#![tactic(auto)]

mod acts;

ghost use Rattle.std.specs.Prelude.{IfOk, IfSome};
ghost use Rattle.inline_value.specs.EditDoc.Whole.{HasNoLoose, IsClosed};

use acts::{Act, act_named, run_rounds};
use edit_io::{ReadSource, read_all};
use inline_value::doc::{Arena, Doc};
use page_read::read_page;
use script_read::read_number;
use std::alloc::Global;
use std::env;
use std::env::Env;
use std::process::ExitCode;

// What is done, to which node, and how often.
#[derive(Clone, Copy)]
struct Order {
    act: Act,
    label: u32,
    rounds: u32,
}

fn read_order<R: Env + Alloc<A = Global>>(rt: &R) -> Option<Order> {
    let mut words = env::args(rt).ok()?.skip(1);
    let act = act_named(words.next()?.as_str())?;
    let label = read_number(words.next()?.as_str().as_bytes())?;
    let rounds = read_number(words.next()?.as_str().as_bytes())?;
    Some(Order { act, label, rounds })
}

fn arena_of(alloc: Global, page: &[u8]) -> Option<Arena>
    ensures { IfSome result HasNoLoose }
{
    read_page(alloc, page, 2_000_000).ok()
}

#[tactic(auto, unfolding(crate::specs::Below::first_doc))]
fn doc_of(alloc: Global, page: &[u8]) -> Option<Doc>
    ensures { IfSome result (λ doc. IsClosed doc) }
{
    let arena = arena_of(alloc, page)?;
    Doc::new(alloc, arena, 1).ok()
}

// How many edits the order makes in the page.
fn edits_of(alloc: Global, page: &[u8], order: Order) -> Option<u64> {
    let mut doc = doc_of(alloc, page)?;
    run_rounds(alloc, &mut doc, order.act, order.label, order.rounds)
}

fn main(rt: HostRuntime) -> ExitCode {
    let Some(order) = read_order(&rt) else {
        return ExitCode::from(2);
    };
    let mut input = ReadSource::new(rt.stdin());
    let Ok(page) = read_all(rt.alloc(), &mut input, 4_194_304) else {
        return ExitCode::from(3);
    };
    let Some(edits) = edits_of(rt.alloc(), &page, order) else {
        return ExitCode::from(5);
    };
    match println!(rt; "edits {edits}") {
        Ok(()) => ExitCode::from(0),
        Err(_) => ExitCode::from(4),
    }
}
