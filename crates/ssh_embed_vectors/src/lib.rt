//! Worked examples of connections whose owner holds the transport, as tests.
#![tactic(auto)]

#[cfg(test)]
mod connections;
