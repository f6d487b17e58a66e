//! A connection for callers that are not Rattle: the functions of `include/gidzork.h`, over
//! `ssh_embed`, and file servers over `ssh_sftp`.
#![tactic(auto)]

mod calls;
mod codes;
mod config;
mod entries;
mod export;
mod given;
mod handle;
mod held;
mod notices;
mod parts;
mod questions;
mod sftp;
mod slot;
