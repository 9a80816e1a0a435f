//! How long the runs of blocks are that buffers read or write by one call.

/// How many bytes of blocks a buffer has room for: 16 blocks of the largest size.
pub(crate) const RUN_BYTES: usize = 65536;
