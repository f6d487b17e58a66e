//! The flags of OPEN (draft-ietf-secsh-filexfer-02 section 6.3).

/// SSH_FXF_READ: the handle is to read.
pub const READS: u32 = 1;

/// SSH_FXF_WRITE: the handle is to write.
pub const WRITES: u32 = 2;

/// SSH_FXF_APPEND: what is written goes to the end of the file, whatever its offset.
pub const APPENDS: u32 = 4;

/// SSH_FXF_CREAT: a file that is not there is made, empty.
pub const CREATES: u32 = 8;

/// SSH_FXF_TRUNC: a file that is there is emptied.
pub const TRUNCATES: u32 = 16;

/// SSH_FXF_EXCL: with `CREATES`, a file that is there is refused.
pub const IS_NEW: u32 = 32;
