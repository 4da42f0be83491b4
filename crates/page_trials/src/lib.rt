//! Tests over pages that are read, of what no session of the program shows: each row of a table is a
//! page, or what an editing host holds, nodes of it by their labels (the labels count the nodes in
//! tree order, from 0 for the Document), and what has to come.
//!
//! A module a layer: `nodes` for `node_tests`, `values` for `command_value`, `wraps` for
//! `wrap_split`, `commands` for steps of commands. `fixtures` makes the pages and goes through the
//! tables.
#![tactic(auto)]

#[cfg(test)]
mod tests;
