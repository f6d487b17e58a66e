// The commands that a callback records, and what it is lent.
mod commands;
mod lending;
