//! The packets and the files of a file server: version 3 of the SSH file transfer protocol
//! (draft-ietf-secsh-filexfer-02), as far as one flat map from paths to bytes serves it.
#![tactic(auto)]

mod attributes;
mod files;
pub mod flag;
mod handles;
pub mod kind;
pub mod laws;
mod path;
mod request;
mod response;
mod status;
mod tree;

pub use files::Files;
pub use request::Request;
pub use response::Response;
pub use status::Status;
