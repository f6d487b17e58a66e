//! The types of the packets (draft-ietf-secsh-filexfer-02 section 3).

/// SSH_FXP_INIT: the client begins (section 4).
pub const INIT: u8 = 1;

/// SSH_FXP_VERSION: the server's answer to it (section 4).
pub const VERSION: u8 = 2;

/// SSH_FXP_OPEN: a handle of a file is asked for (section 6.3).
pub const OPEN: u8 = 3;

/// SSH_FXP_CLOSE: a handle is given up (section 6.3).
pub const CLOSE: u8 = 4;

/// SSH_FXP_READ: bytes of a file are asked for (section 6.4).
pub const READ: u8 = 5;

/// SSH_FXP_WRITE: bytes are put into a file (section 6.4).
pub const WRITE: u8 = 6;

/// SSH_FXP_LSTAT: the attributes of a file, of a link itself (section 6.8).
pub const LSTAT: u8 = 7;

/// SSH_FXP_FSTAT: the attributes of the file of a handle (section 6.8).
pub const FSTAT: u8 = 8;

/// SSH_FXP_REMOVE: a file is removed (section 6.5).
pub const REMOVE: u8 = 13;

/// SSH_FXP_REALPATH: the full name of a path is asked for (section 6.11).
pub const REALPATH: u8 = 16;

/// SSH_FXP_STAT: the attributes of a file (section 6.8).
pub const STAT: u8 = 17;

/// SSH_FXP_RENAME: a file gets another path (section 6.5).
pub const RENAME: u8 = 18;

/// SSH_FXP_STATUS: how a request came out (section 7).
pub const STATUS: u8 = 101;

/// SSH_FXP_HANDLE: a handle is given (section 7).
pub const HANDLE: u8 = 102;

/// SSH_FXP_DATA: bytes of a file (section 7).
pub const DATA: u8 = 103;

/// SSH_FXP_NAME: names of files (section 7).
pub const NAME: u8 = 104;

/// SSH_FXP_ATTRS: attributes of a file (section 7).
pub const ATTRS: u8 = 105;
