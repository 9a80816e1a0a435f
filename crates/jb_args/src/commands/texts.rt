//! What is at the end of the long help of a command: more about it, its statuses, and an example.

/// Of `jb cost`.
pub(crate) const COST: &str =
    "Status: 0 where they fit the text's limit, 1 where they do not, 2 where the
text cannot be read or breaks its form.

Example:
  printf 'bs 1024\\nlimit 7\\nh w1 w2 w3\\n' | jb cost -   # cost 5 limit 7 fits";

/// Of `jb plan`.
pub(crate) const PLAN: &str =
    "Status: 0 with a cut, 1 where none fits the limit, 2 where the text cannot be
read or breaks its form.

Example:
  jb plan queue.txt > queue.cert";

/// Of `jb check`.
pub(crate) const CHECK: &str =
    "Status: 0 where it is accepted, 1 where it is refused, by the name of its
first fault, 2 where a text cannot be read or breaks its form.

Example:
  jb check queue.txt queue.cert     # accepted";

/// Of `jb dump`.
pub(crate) const DUMP: &str =
    "With --home N these lines alone are printed: each copy of home block N, each
descriptor block with a tag of it, and each revoke block that names it; the
last two say the transaction's number. With --last N the lines of all
transactions before the last N are left out. Of several options each leaves
out its lines. The whole journal is read, and refused, whatever is printed.

With --super every field of the superblock alone is printed, also of a journal
that is refused, as it then is: the two lines of the dump, and a third one.
The log is not read.

Where FILE begins with no journal, and is a file system of ext2, ext3 or ext4,
its own journal is found. With --extents LIST or --journal JOURNAL the journal
is where jb recover has it.

With --summary the journal at a glance is printed in place of the lines,
whatever the other options say: how much of the log is used, the blocks of a
transaction, the copies and the homes that are written most, the revokes, and
when the first and the last transaction were committed. With --summary --draw
the log is drawn after them, a column for so many blocks, and the homes that
are written most.

With --checksums a journal with checksums (CSUM_V2 or CSUM_V3) is taken, too.
It is refused where a descriptor, revoke or commit block of a committed
transaction has a wrong one (jb: BadChecksum); the line of a copy ends in the
word wrong where its data has.

With --checksums --ring the rest of the log is searched, too, for a commit
block of the next transaction or a later one: it shows that a transaction was
committed, and is lost. Then the journal is refused after its lines, by that
block (jb: Lost), or by the wrong block of the transaction that ends the log
(jb: BadChecksum). FILE is a regular file or a block device then.

Status: 0 where they are printed, 1 where the journal is refused, by the name
of its fault, or a read fails, 2 where a file cannot be opened, or is in use.

Examples:
  jb dump journal.bin
  jb dump journal.bin --home 5 --last 2   # the last two transactions, home 5
  jb dump journal.bin --summary --draw
  jb dump fs.img --super
  jb dump fs.img --checksums --ring";

/// Of `jb cat`.
pub(crate) const CAT: &str =
    "The image is opened for reading, and nothing is written to it. Each block is
what the last copy of it that is not revoked makes of it, or the block as it
stands. For each block the log is read once, so many blocks of an image with a
long log are read faster after jb recover. A copy for another home block that
the image does not have is not looked at, though recover refuses it. Of a file
system of ext2, ext3 or ext4 its own journal is found, as jb recover finds it.

With --checksums a journal with checksums is taken, too, as by jb recover; of
the copies the one alone that is written is judged.

With --hex a block is lines as xxd prints them, with offsets from 0 on over
all the blocks, of 32 bits. With -n 0 nothing is written, but the image is
read, and refused, as for one block.

Status: 0 where they are written, 1 where the image is refused, by the name of
its fault, or does not have the block: the blocks before it are written then,
2 where the file cannot be opened or read, or is in use.

Example:
  jb cat a.img 5 --hex -n 2";

/// Of `jb format`.
pub(crate) const FORMAT: &str =
    "The image is made under another name, with .jb-unfinished after its own, and
gets its own when it is whole. What a killed run has left under that name is
removed, any other file stays, and nothing is made then. So a name has 241
bytes at most where the file system takes 255. It gets its own by a link,
which replaces no file: on a file system without links, as FAT, nothing is
made (jb: no links NAME).

Zeros are written over the whole image, so that it has its room: where the
disk has too little, nothing is made, and nothing is left (jb: cannot make
NAME). How much is free is not known before: an image that is much too large
fills the disk first, for as long as that takes, and then gives the room back.
With --sparse a block takes room when it is first written. A disk that is full
by then fails load and recover.

Status: 0 where the image is made, 1 where the numbers make no journal, 2
where an option is bad or the file cannot be made.

Example:
  jb format a.img --bs 1024 --journal 33 --homes 16     # formatted limit 8";

/// Of `jb load`.
pub(crate) const LOAD: &str =
    "Prints how many handles ran, the blocks that they touch, how many of them are
committed, and the groups and log blocks of these. Thread K of T runs handles
K, K+T, K+2T and so on, up to its first one that is refused; the text's limit
is not used, the image's is. Without --checkpoint what is committed waits in
the log for jb recover.

With --journal FILE, where IMAGE has the superblock of ext2, ext3 or ext4, the
journal is refused as jb recover refuses it: so its block size has to be the
file system's.

An IMAGE of ext2, ext3 or ext4 has its own journal found, as by jb recover.
The flag needs_recovery is to be set, as it mostly is after jb recover, or a
mount would empty the log unread (jb: FileSystem Clean). A queue with a handle
on one of the journal's own blocks is refused (jb: Extents Home N). So it is
with --extents.

A journal that is put back into its file system with a log is thrown away at
the next mount, and e2fsck -p stops at it, where the flag needs_recovery is
clear: set it by debugfs -w -R 'feature needs_recovery' fs.img before, and run
e2fsck or mount. OCFS2 has the flag dirty of the journal's inode in its place.

Status: 0 where all handles are committed, 1 where one is refused, or the
commits or the checkpoints ended early, or the image is refused, by the name
of its fault, 2 where a file or the text cannot be taken.

Example:
  jb load a.img queue.txt --hold
  # handles 3 changes 8 settled 3 groups 1 blocks 7";

/// Of `jb recover`.
pub(crate) const RECOVER: &str =
    "IMAGE is not to be mounted. A block device that is mounted, as far as
/proc/self/mountinfo says so, its partitions and loop devices too, or a file
that is by a loop device (mount -o loop), is refused (jb: in use NAME). Where
the system does not say it, as without /proc or /sys, IMAGE is refused too
(jb: mounts unknown NAME), unless --force is given. A mount that this process
does not see, or of a RAID or a mapped device that stands on it, is not found,
and jb cannot keep it from being mounted while it writes. So unmount it first.

The own journal of an ext2, ext3 or ext4 file system that is not mounted is
found, and recovered where it stands:
  jb recover fs.img
Its log is empty then, and a later e2fsck has nothing to replay. The line ends
in the word backup where the journal's inode is damaged, and the superblock's
copy of its map says where the journal stands.

With --extents its blocks are given, as debugfs -R 'stat <8>' fs.img lists
them after EXTENTS: or BLOCKS::
  jb recover fs.img --extents '(0-1023):8193-9216, (1024-4095):16385-19456'
Of ext2, ext3 and ext4 they have to be the file system's own. White space,
commas or both are between the words of the list, and words as (IND):8192 are
passed over. A stretch without a place, as 8193-9216, has the next blocks of
the journal: so those of OCFS2 are given, whose debugfs.ocfs2 -R 'stat
//journal:0000' prints the first block of each extent, and its clusters. The
list has exactly the journal's blocks (s_maxlen). --extents - reads it from
standard input, and --extents @FILE from a file.

Where IMAGE has no superblock of ext2, ext3 or ext4, a log that is not clean
but begins with no committed transaction, or that ends inside one at a block
that is none of a journal, may be that of another list: it is recovered with
--force alone.

With --journal FILE the journal is a copy, and the one inside the file system
stays full: run e2fsck at once, and write nothing before, or it replays the
log once more over what was written since.

Where IMAGE has the superblock of ext2, ext3 or ext4 and the journal is not at
its front, the journal has to be the file system's own: its block size has to
be the same, and unless --force is given its UUID (where the journal has one;
tune2fs -U changes the file system's alone) and the flag needs_recovery, which
e2fsck and an unmount take away. The journal of --journal is an old copy where
the file system was mounted after its last commit, by the times that both say:
then it is refused too, unless --force is given. So copy it out after the
crash that is to be recovered. A clock that was set back meanwhile may need
--force.

With --checksums a journal with checksums (CSUM_V2 or CSUM_V3, which ext4 has
from its first mount on since 2016) is taken, too. All is judged before
anything is written: where a block of a committed transaction has a wrong
checksum, or a copy that would be written, the image is refused and stays as
it is (jb: BadChecksum KIND PLACE). So what e2fsck and the kernel would write
and then lose is still there.

With --dry-run nothing is written, the image is opened for reading, and the
line is that of the recovery; with --list the home block of each copy that
would be written follows, as home N, in the log's order.

Once it has run for a second, a line on a terminal shows how far it has come;
not with -q or --no-progress.

Status: 0 where the image is recovered, 1 where it is refused, by the name of
its fault, and stays as it is, 2 where the file cannot be opened or read.
After jb: DeviceFault, status 1, it is to be called again.

Examples:
  jb recover a.img     # transactions 1 copies 5 revoked 0 next 4
  jb recover fs.img --extents '(0-4095):32801-36896' --dry-run --list
  jb recover fs.img --journal journal.bin";

/// Of `jb renumber`.
pub(crate) const RENUMBER: &str =
    "Of a file system of ext2, ext3 or ext4 that is not mounted its own journal is
found, as jb recover finds it; with --extents LIST the journal stands within
IMAGE, as there.

Status: 0 where the journal is renumbered, 1 where it is refused, by the name
of its fault, and stays as it is, 2 where the file cannot be opened or read.
After jb: NeedsRecovery it is to be recovered first; after jb: DeviceFault,
status 1, the command is to be called again.

Example:
  jb renumber a.img     # renumbered blocks 2 next 1";

/// Of `jb widen`.
pub(crate) const WIDEN: &str =
    "Of a file system of ext2, ext3 or ext4 that is not mounted its own journal is
found, as jb recover finds it; with --extents LIST the journal stands within
IMAGE, as there.

Status: 0 where the journal has block numbers of 64 bits now, 1 where it is
refused, by the name of its fault, and stays as it is, 2 where the file cannot
be opened or read. After jb: NeedsRecovery it is to be recovered first; after
jb: DeviceFault, status 1, the command is to be called again.

Example:
  jb widen a.img     # widened limit 8";

/// Of `jb completions`.
pub(crate) const COMPLETIONS: &str =
    "The script completes the commands, and the options of each, for the shell that
reads it:
  bash    jb completions bash > ~/.local/share/bash-completion/completions/jb
  zsh     jb completions zsh > ~/.zfunc/_jb       # a folder of fpath
  fish    jb completions fish > ~/.config/fish/completions/jb.fish

Status: 0 where it is printed, 2 where SHELL is another word.";
