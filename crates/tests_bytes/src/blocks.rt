//! Blocks that several tests read or write, by the bytes with which they begin; zeros come after them.

/// The name of each journal that is made here.
pub static UUID: [u8; 16] = [0, 1, 2, 3, 4, 5, 6, 7, 8, 9, 10, 11, 12, 13, 14, 15];

/// A revoke block of number 2: home 7.
pub const REVOKE: [u8; 20] = [
    0xc0, 0x3b, 0x39, 0x98, 0, 0, 0, 5, 0, 0, 0, 2, 0, 0, 0, 0x14, 0, 0, 0, 7,
];

/// A descriptor of number 2: home 5, whose data begins with the magic.
pub const DESCRIPTOR: [u8; 36] = [
    0xc0, 0x3b, 0x39, 0x98, 0, 0, 0, 1, 0, 0, 0, 2, 0, 0, 0, 5, 0, 0, 0, 9, 0, 1, 2, 3, 4, 5, 6, 7,
    8, 9, 10, 11, 12, 13, 14, 15,
];

/// That data, escaped.
pub const DATA: [u8; 8] = [0, 0, 0, 0, 1, 2, 3, 4];

/// A commit block of number 2.
pub const COMMIT: [u8; 12] = [0xc0, 0x3b, 0x39, 0x98, 0, 0, 0, 2, 0, 0, 0, 2];

/// Three tags with 64-bit block numbers as `debugfs` of e2fsprogs 1.47.0 writes them (`jw -b 333,334,335`): the second
/// copy is escaped, the UUID is zero, and the bytes after the last tag are left over from another block.
pub const WIDE_DESCRIPTOR: [u8; 72] = [
    0xc0, 0x3b, 0x39, 0x98, 0, 0, 0, 1, 0, 0, 0, 1, 0, 0, 1, 0x4d, 0, 0, 0, 0, 0, 0, 0, 0, 0, 0, 0,
    0, 0, 0, 0, 0, 0, 0, 0, 0, 0, 0, 0, 0, 0, 0, 1, 0x4e, 0, 0, 0, 3, 0, 0, 0, 0, 0, 0, 1, 0x4f, 0,
    0, 0, 10, 0, 0, 0, 0, 0x00, 0x11, 0x22, 0x33, 0x44, 0x55, 0x66, 0x77,
];

/// Three homes with 64-bit block numbers as `debugfs` of e2fsprogs 1.47.0 writes them (`jw -r 333,340,341`).
pub const WIDE_REVOKE: [u8; 40] = [
    0xc0, 0x3b, 0x39, 0x98, 0, 0, 0, 5, 0, 0, 0, 2, 0, 0, 0, 0x28, 0, 0, 0, 0, 0, 0, 1, 0x4d, 0, 0,
    0, 0, 0, 0, 1, 0x54, 0, 0, 0, 0, 0, 0, 1, 0x55,
];
