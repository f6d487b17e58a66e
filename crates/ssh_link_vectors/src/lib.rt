//! Worked examples of links, frames and commands, of the table of channels and of the hub that
//! threads share, as tests.
#![tactic(auto)]

#[cfg(test)]
mod carried;
#[cfg(test)]
mod command;
#[cfg(test)]
mod frame;
#[cfg(test)]
mod hub;
#[cfg(test)]
mod outsides;
#[cfg(test)]
mod plain_kex;
#[cfg(test)]
mod table;
#[cfg(test)]
mod values;
