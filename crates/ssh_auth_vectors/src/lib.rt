//! Worked examples of keys, certificates and signatures, and of the state of authentication, as
//! tests.
#![tactic(auto)]

#[cfg(test)]
mod asked;
#[cfg(test)]
mod auth_request;
#[cfg(test)]
mod auth_result;
#[cfg(test)]
mod gssapi;
#[cfg(test)]
mod keys;
#[cfg(test)]
mod response;
#[cfg(test)]
mod values;
