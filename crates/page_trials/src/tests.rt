mod commands;
mod fixtures;
mod nodes;
mod values;
mod wraps;
