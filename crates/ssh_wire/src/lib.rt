//! The wire format of SSH: the fields that messages are made of, and the names, numbers and
//! tables of the protocol (RFC 4251 section 5, RFC 4252, RFC 4254).
//!
//! What the crates above rely on: a call reads or writes exactly the bytes that its layout gives,
//! and a refusal leaves the reader's position, or the output, as it was.
#![tactic(auto)]

mod blobs;
mod channel_id;
mod channel_type;
mod disconnect;
mod error;
mod limits;
pub mod message;
mod method;
mod method_set;
mod modes;
mod name_list;
mod open;
mod open_failure;
mod pty;
mod reader;
mod sig;
mod text;
mod writer;

pub use blobs::Blobs;
pub use channel_id::ChannelId;
pub use channel_type::{ChannelType, StreamLocalChannelInfo, TcpChannelInfo};
pub use disconnect::Disconnect;
pub use error::{LayoutError, WireError};
pub use limits::Limits;
pub use method::{MethodKind, method_from_own_name};
pub use method_set::MethodSet;
pub use modes::Modes;
pub use name_list::NameList;
pub use open::{ChannelOpenConfirmation, OpenChannelMessage, one_confirmation, one_open};
pub use open_failure::ChannelOpenFailure;
pub use pty::Pty;
pub use reader::{Reader, fields_of};
pub use sig::Sig;
pub use text::Text;
pub use writer::{put_bytes, put_text, put_u8, put_u32, put_u64};
