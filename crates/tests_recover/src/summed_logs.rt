//! Small logs with checksums, of the UUID 00010203-0405-0607-0809-0a0b0c0d0e0f: a revoke of home 7 and an escaped copy
//! of home 5, of number 2, and its commit block. debugfs writes the same, and e2fsck replays it
//! (`oracle/checksums_vectors.py`).

use crate::images::Row;
use crate::small::{HOMES, MAGIC};

/// `s_uuid`.
const UUID: Row = (0, 3, [0x0001_0203, 0x0405_0607, 0x0809_0A0B, 0x0C0D_0E0F]);

/// `s_checksum_type` 4.
const CRC32C: Row = (0, 5, [0x0400_0000, 0, 0, 0]);

/// The copy of home 5 in the log.
const DATA: Row = (3, 0, [0, 0x0102_0304, 0, 0]);

/// The commit block, and its checksum.
const COMMIT: Row = (4, 0, [MAGIC, 2, 2, 0]);

const COMMIT_SUM: Row = (4, 1, [0x2403_77D2, 0, 0, 0]);

/// Home 5 after a recovery.
const RECOVERED: Row = (HOMES + 5, 0, [MAGIC, 0x0102_0304, 0, 0]);

/// What a recovery moves in block 0.
const MOVED: Row = (0, 1, [33, 1, 3, 0]);

/// With checksums of 32 bits in the tags (`JBD2_FEATURE_INCOMPAT_CSUM_V3`).
pub const V3: [Row; 14] = [
    (0, 2, [0, 0, 0x11, 0]),
    UUID,
    CRC32C,
    (0, 15, [0, 0, 0, 0x2557_ADDB]),
    (1, 0, [MAGIC, 5, 2, 20]),
    (1, 1, [7, 0, 0, 0]),
    (1, 63, [0, 0, 0, 0x863E_8DBD]),
    (2, 0, [MAGIC, 1, 2, 5]),
    (2, 1, [9, 0, 0x408B_7374, 0x0001_0203]),
    (2, 2, [0x0405_0607, 0x0809_0A0B, 0x0C0D_0E0F, 0]),
    (2, 63, [0, 0, 0, 0x4B75_3EA6]),
    DATA,
    COMMIT,
    COMMIT_SUM,
];

/// What recovery changes then.
pub const V3_AFTER: [Row; 3] = [MOVED, (0, 15, [0, 0, 0, 0x8052_7EBC]), RECOVERED];

/// And with 64-bit block numbers.
pub const V3_WIDE: [Row; 14] = [
    (0, 2, [0, 0, 0x13, 0]),
    UUID,
    CRC32C,
    (0, 15, [0, 0, 0, 0x1CF2_358E]),
    (1, 0, [MAGIC, 5, 2, 24]),
    (1, 1, [0, 7, 0, 0]),
    (1, 63, [0, 0, 0, 0xC441_0AEF]),
    (2, 0, [MAGIC, 1, 2, 5]),
    (2, 1, [9, 0, 0x408B_7374, 0x0001_0203]),
    (2, 2, [0x0405_0607, 0x0809_0A0B, 0x0C0D_0E0F, 0]),
    (2, 63, [0, 0, 0, 0x4B75_3EA6]),
    DATA,
    COMMIT,
    COMMIT_SUM,
];

/// What recovery changes then.
pub const V3_WIDE_AFTER: [Row; 3] = [MOVED, (0, 15, [0, 0, 0, 0xB9F7_E6E9]), RECOVERED];

/// With checksums of 16 bits in the tags (`JBD2_FEATURE_INCOMPAT_CSUM_V2`).
pub const V2: [Row; 14] = [
    (0, 2, [0, 0, 9, 0]),
    UUID,
    CRC32C,
    (0, 15, [0, 0, 0, 0x0B01_78D6]),
    (1, 0, [MAGIC, 5, 2, 20]),
    (1, 1, [7, 0, 0, 0]),
    (1, 63, [0, 0, 0, 0x863E_8DBD]),
    (2, 0, [MAGIC, 1, 2, 5]),
    (2, 1, [0x7374_0009, 1, 0x0203_0405, 0x0607_0809]),
    (2, 2, [0x0A0B_0C0D, 0x0E0F_0000, 0, 0]),
    (2, 63, [0, 0, 0, 0xC5C9_ED73]),
    DATA,
    COMMIT,
    COMMIT_SUM,
];

/// What recovery changes then.
pub const V2_AFTER: [Row; 3] = [MOVED, (0, 15, [0, 0, 0, 0xAE04_ABB1]), RECOVERED];

/// And with 64-bit block numbers.
pub const V2_WIDE: [Row; 14] = [
    (0, 2, [0, 0, 0xB, 0]),
    UUID,
    CRC32C,
    (0, 15, [0, 0, 0, 0x32A4_E083]),
    (1, 0, [MAGIC, 5, 2, 24]),
    (1, 1, [0, 7, 0, 0]),
    (1, 63, [0, 0, 0, 0xC441_0AEF]),
    (2, 0, [MAGIC, 1, 2, 5]),
    (2, 1, [0x7374_0009, 0, 1, 0x0203_0405]),
    (2, 2, [0x0607_0809, 0x0A0B_0C0D, 0x0E0F_0000, 0]),
    (2, 63, [0, 0, 0, 0x2FB7_103D]),
    DATA,
    COMMIT,
    COMMIT_SUM,
];

/// What recovery changes then.
pub const V2_WIDE_AFTER: [Row; 3] = [MOVED, (0, 15, [0, 0, 0, 0x97A1_33E4]), RECOVERED];

/// Homes 5 and 6 are copied, and 6 is revoked in a later transaction; the checksums are of 32 bits.
pub const REVOKED_6: [Row; 17] = [
    (0, 2, [0, 0, 0x11, 0]),
    UUID,
    CRC32C,
    (0, 15, [0, 0, 0, 0x2557_ADDB]),
    (1, 0, [MAGIC, 1, 2, 5]),
    (1, 1, [2, 0, 0xE9E4_7E9B, 6]),
    (1, 2, [10, 0, 0x5B81_2E2B, 0]),
    (1, 63, [0, 0, 0, 0x0B02_13FB]),
    (2, 0, [1, 2, 3, 4]),
    (3, 0, [6, 6, 6, 6]),
    COMMIT,
    COMMIT_SUM,
    (5, 0, [MAGIC, 5, 3, 20]),
    (5, 1, [6, 0, 0, 0]),
    (5, 63, [0, 0, 0, 0x8104_FA8A]),
    (6, 0, [MAGIC, 2, 3, 0]),
    (6, 1, [0xAB4C_2F60, 0, 0, 0]),
];

/// What recovery changes then.
pub const REVOKED_6_AFTER: [Row; 3] = [
    (0, 1, [33, 1, 4, 0]),
    (0, 15, [0, 0, 0, 0x5233_2088]),
    (HOMES + 5, 0, [1, 2, 3, 4]),
];
