//! Worked examples across the crates, as tests: whole scripts with the bytes that they print, and
//! what peers and outsides do that mean harm or fail. Scripts on channels, global requests and
//! exchanges of keys stand in `ssh_connection_vectors`, examples of sessions that no script drives
//! in `ssh_session_vectors` and `ssh_globals_vectors`, of handlers in `ssh_handler_vectors`.
#![tactic(auto)]

#[cfg(test)]
mod bad_lines;
#[cfg(test)]
mod documented;
#[cfg(test)]
mod ends;
#[cfg(test)]
mod failing;
#[cfg(test)]
mod files;
#[cfg(test)]
mod gateways;
#[cfg(test)]
mod hostile;
#[cfg(test)]
mod keys;
#[cfg(test)]
mod prompts;
#[cfg(test)]
mod transcripts;
