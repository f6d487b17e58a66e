//! Worked examples of fields, names and tables of the wire, as tests.
#![tactic(auto)]

#[cfg(test)]
mod calls;
#[cfg(test)]
mod channel_type;
#[cfg(test)]
mod lists;
#[cfg(test)]
mod methods;
#[cfg(test)]
mod open;
#[cfg(test)]
mod pty;
#[cfg(test)]
mod reader;
#[cfg(test)]
mod reasons;
#[cfg(test)]
mod sig;
