//! Journals that debugfs of e2fsprogs 1.47.0 wrote; the crate's README.md says how they were made.

use crate::checks::By;
use crate::journals::{check_dump, journal_of};
use std::alloc::Global;
use tests_support::Test;

/// Homes 3001 and 3002 logged, and 3002 revoked in a later session.
const REVOKED: &str = "0:c03b3998 4 0 400 400 1 1 1 0 0 1 0 10203 4050607 8090a0b c0d0e0f 1
400:c03b3998 1 1 bb9 1 0 0 0 0 bba a 46c:10203 4050607 8090a0b c0d0e0f
804:1020304 64617461 2030340a
c00:706c6169 6e206461 74612030 310a0000
1000:c03b3998 2 1 1030:6b02b753 0 19dae198
1400:c03b3998 5 2 14 bba
1800:c03b3998 2 2 1830:6b02b754 0 275e3770";

const REVOKED_TEXT: &str =
    "super bs=1024 maxlen=1024 first=1 sequence=1 start=1 errno=0 compat=00000000 incompat=00000001 \
     rocompat=00000000 max=0 limit=255
uuid 000102030405060708090a0b0c0d0e0f
1 descriptor number=1 tags=2
2 copy home=3001 flags=1 head=0000000001020304
3 copy home=3002 flags=10 head=706c61696e206461
4 commit number=1 sec=7710927079121879040 nsec=433775000
5 revoke number=2 count=20 homes=3002
6 commit number=2 sec=7710927083416846336 nsec=660486000
end transactions=2 expected=3
";

/// Four transactions of one session: copies, revokes, copies again, and copies with revokes after them.
pub const SESSION: &str = "0:c03b3998 4 0 400 400 1 1 1 0 0 1 0 10203 4050607 8090a0b c0d0e0f 1
400:c03b3998 1 1 bb9 1 0 0 0 0 bba a 46c:10203 4050607 8090a0b c0d0e0f
804:1020304 64617461 2030340a
c00:706c6169 6e206461 74612030 310a0000
1000:c03b3998 2 1 1030:6b02d441 0 38044d30
1400:c03b3998 5 2 18 bb9 bba
1800:c03b3998 2 2 1830:6b02d441 0 38046888
1c00:c03b3998 1 3 bba 1c24:bbb b 1c6c:10203 4050607 8090a0b c0d0e0f
2000:706c6169 6e206461 74612030 320a0000
2404:1020305 64617461 2030350a
2800:c03b3998 2 3 2830:6b02d441 0 3804ca30
2c00:c03b3998 1 4 bbc 2c24:bbd a 2c6c:10203 4050607 8090a0b c0d0e0f
3000:706c6169 6e206461 74612030 330a0000
3400:706c6169 6e206461 74612030 340a0000
3800:c03b3998 5 4 18 bbb bbe
3c00:c03b3998 2 4 3c30:6b02d441 0 38053b78";

pub const SESSION_TEXT: &str =
    "super bs=1024 maxlen=1024 first=1 sequence=1 start=1 errno=0 compat=00000000 incompat=00000001 \
     rocompat=00000000 max=0 limit=255
uuid 000102030405060708090a0b0c0d0e0f
1 descriptor number=1 tags=2
2 copy home=3001 flags=1 head=0000000001020304
3 copy home=3002 flags=10 head=706c61696e206461
4 commit number=1 sec=7710958887649673216 nsec=939806000
5 revoke number=2 count=24 homes=3001,3002
6 commit number=2 sec=7710958887649673216 nsec=939813000
7 descriptor number=3 tags=2
8 copy home=3002 flags=0 head=706c61696e206461
9 copy home=3003 flags=11 head=0000000001020305
10 commit number=3 sec=7710958887649673216 nsec=939838000
11 descriptor number=4 tags=2
12 copy home=3004 flags=0 head=706c61696e206461
13 copy home=3005 flags=10 head=706c61696e206461
14 revoke number=4 count=24 homes=3003,3006
15 commit number=4 sec=7710958887649673216 nsec=939867000
end transactions=4 expected=5
";

/// Three transactions of one session in blocks of 4,096 bytes.
const LARGE_BLOCKS: &str = "0:c03b3998 4 0 1000 400 1 1 1 0 0 1 0 10203 4050607 8090a0b c0d0e0f 1
1000:c03b3998 1 1 bb9 1 0 0 0 0 bba a 106c:10203 4050607 8090a0b c0d0e0f
2004:1020304 64617461 2030340a
3000:706c6169 6e206461 74612030 310a0000
4000:c03b3998 2 1 4030:6b02d445 0 1cb98400
5000:c03b3998 5 2 14 bba
6000:c03b3998 2 2 6030:6b02d445 0 1cb9a340
7000:c03b3998 1 3 bba 7024:bbb b 706c:10203 4050607 8090a0b c0d0e0f
8000:706c6169 6e206461 74612030 320a0000
9004:1020305 64617461 2030350a
a000:c03b3998 5 3 14 bb9
b000:c03b3998 2 3 b030:6b02d445 0 1cba2428";

const LARGE_BLOCKS_TEXT: &str =
    "super bs=4096 maxlen=1024 first=1 sequence=1 start=1 errno=0 compat=00000000 incompat=00000001 \
     rocompat=00000000 max=0 limit=255
uuid 000102030405060708090a0b0c0d0e0f
1 descriptor number=1 tags=2
2 copy home=3001 flags=1 head=0000000001020304
3 copy home=3002 flags=10 head=706c61696e206461
4 commit number=1 sec=7710958904829542400 nsec=481920000
5 revoke number=2 count=20 homes=3002
6 commit number=2 sec=7710958904829542400 nsec=481928000
7 descriptor number=3 tags=2
8 copy home=3002 flags=0 head=706c61696e206461
9 copy home=3003 flags=11 head=0000000001020305
10 revoke number=3 count=20 homes=3001
11 commit number=3 sec=7710958904829542400 nsec=481961000
end transactions=3 expected=4
";

/// As SESSION, in a file system with 64-bit block numbers.
const WIDE: &str = "0:c03b3998 4 0 400 400 1 1 1 0 0 3 0 10203 4050607 8090a0b c0d0e0f 1
400:c03b3998 1 1 bb9 1 428:bba a 49c:10203 4050607 8090a0b c0d0e0f
804:1020304 64617461 2030340a
c00:706c6169 6e206461 74612030 310a0000
1000:c03b3998 2 1 1030:6b03a430 0 39f2d6c0
1400:c03b3998 5 2 20 0 bb9 0 bba
1800:c03b3998 2 2 1830:6b03a430 0 39f2f600
1c00:c03b3998 1 3 bba 1c28:bbb b 1c9c:10203 4050607 8090a0b c0d0e0f
2000:706c6169 6e206461 74612030 320a0000
2404:1020305 64617461 2030350a
2800:c03b3998 2 3 2830:6b03a430 0 39f36360
2c00:c03b3998 1 4 bbc 2c28:bbd a 2c9c:10203 4050607 8090a0b c0d0e0f
3000:706c6169 6e206461 74612030 330a0000
3400:706c6169 6e206461 74612030 340a0000
3800:c03b3998 5 4 20 0 bbb 0 bbe
3c00:c03b3998 2 4 3c30:6b03a430 0 39f3c508";

const WIDE_TEXT: &str =
    "super bs=1024 maxlen=1024 first=1 sequence=1 start=1 errno=0 compat=00000000 incompat=00000003 \
     rocompat=00000000 max=0 limit=255
uuid 000102030405060708090a0b0c0d0e0f
1 descriptor number=1 tags=2
2 copy home=3001 flags=1 head=0000000001020304
3 copy home=3002 flags=10 head=706c61696e206461
4 commit number=1 sec=7711187513053806592 nsec=972216000
5 revoke number=2 count=32 homes=3001,3002
6 commit number=2 sec=7711187513053806592 nsec=972224000
7 descriptor number=3 tags=2
8 copy home=3002 flags=0 head=706c61696e206461
9 copy home=3003 flags=11 head=0000000001020305
10 commit number=3 sec=7711187513053806592 nsec=972252000
11 descriptor number=4 tags=2
12 copy home=3004 flags=0 head=706c61696e206461
13 copy home=3005 flags=10 head=706c61696e206461
14 revoke number=4 count=32 homes=3003,3006
15 commit number=4 sec=7711187513053806592 nsec=972277000
end transactions=4 expected=5
";

/// How many bytes each has, what is in it, and its text.
struct Journal(usize, &'static str, &'static str);

static JOURNALS: [Journal; 4] = [
    Journal(0x10_0000, REVOKED, REVOKED_TEXT),
    Journal(0x10_0000, SESSION, SESSION_TEXT),
    Journal(0x40_0000, LARGE_BLOCKS, LARGE_BLOCKS_TEXT),
    Journal(0x10_0000, WIDE, WIDE_TEXT),
];

/// Checks the text of a journal.
fn check_journal(test: &impl Test, alloc: Global, of: &Journal, row: u64) {
    let Journal(len, words, wanted) = of;
    let journal = journal_of(test, alloc, *len, words);
    check_dump(test, alloc, &journal, Ok(*wanted), row)
}

fn check_journals(test: &impl Test, alloc: Global) {
    for (row, of) in JOURNALS.iter().enumerate() {
        check_journal(test, alloc, of, row as u64)
    }
}

#[test]
fn journals_of_e2fsprogs(rt: HostRuntime) {
    check_journals(&By(&rt), rt.alloc())
}
