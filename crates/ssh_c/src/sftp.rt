// File servers for callers that are not Rattle: version 3 of the SSH file transfer protocol
// (draft-ietf-secsh-filexfer-02) on one channel each, with the files in memory.
mod export;
mod handle;
mod server;
mod slot;
