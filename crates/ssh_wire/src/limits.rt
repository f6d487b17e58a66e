// When keys are exchanged again.
ghost use Rattle.std.specs.Prelude.{◌≡◌, ◌^◌};

/// How much may pass under one set of keys (RFC 4253 section 9).
#[derive(Clone, Copy, Debug, PartialEq, Eq)]
pub struct Limits {
    /// Bytes that are sent.
    pub rekey_write_limit: u64,
    /// Bytes that are received.
    pub rekey_read_limit: u64,
    /// Milliseconds.
    pub rekey_time_limit: u64,
}

impl Limits {
    /// These limits: bytes sent, bytes received and milliseconds.
    pub fn new(rekey_write_limit: u64, rekey_read_limit: u64, rekey_time_limit: u64) -> Limits
        ensures write { result.rekey_write_limit ≡ rekey_write_limit }
        ensures read { result.rekey_read_limit ≡ rekey_read_limit }
        ensures time { result.rekey_time_limit ≡ rekey_time_limit }
    {
        Limits {
            rekey_write_limit,
            rekey_read_limit,
            rekey_time_limit,
        }
    }

    /// A gigabyte each way and an hour, as RFC 4253 section 9 advises.
    pub fn standard() -> Limits
        ensures write { result.rekey_write_limit ≡ 2 ^ 30 }
        ensures read { result.rekey_read_limit ≡ 2 ^ 30 }
        ensures time { result.rekey_time_limit ≡ 3600000 }
    {
        Limits::new(1 << 30, 1 << 30, 60 * 60 * 1000)
    }
}
