//! Steps of commands, each row of a table with what an editing host holds, nodes of it by their
//! labels (1 is the host), and what the host then holds. Whole commands are in the sessions of
//! `tests/sessions`.
//!
//! A module a layer: `inline` for `inline_value`, `deleting` for `delete_core`.

mod deleting;
mod inline;
