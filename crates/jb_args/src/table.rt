//! The table of the lines on standard error.

/// Calls a macro with the table, after a name where one is given for it. Its lines are those on standard error: the
/// hint that is about it, the finer status, how it begins after `jb: `, what it has after that, and what to do, in
/// pieces of a line of the help; after a colon, what the second line says beside that. Its options are those that may
/// be bad: its name as a value and as a text, and what it may be, in pieces too. `#` stands for a number.
#[macro_export]
macro_rules! diagnostics {
    ($form:ident $(, $of:ident)?) => {
        $form! {
            $($of)?
            lines {
                QueueBlockSizeLine, 2, "queue line #: BlockSizeLine", "",
                    "the first line is bs 1024, bs 2048 or bs 4096, with or without the"
                    " word wide after it";
                QueueLimitLine, 2, "queue line #: LimitLine", "",
                    "the second line is limit and a number from 3 to 2147483646";
                QueueHandleLine, 2, "queue line #: HandleLine", "",
                    "a handle's line is h, or begins with h and one space; no line is"
                    " empty";
                QueueOpWord, 2, "queue line #: OpWord", "",
                    "a handle's words are w or r and a number, as w5 or r7, each after"
                    " one space";
                QueueDataWord, 2, "queue line #: DataWord", "",
                    "w5= has two hexadecimal digits for each byte after it, of one byte"
                    " at least and of a block at most";
                CertificateSyntax, 2, "certificate: Syntax ", "#",
                    "this line of the certificate is not as jb plan prints it";
                CertificateLength, 2, "certificate: Length", "",
                    "the certificate is of another queue: it has one price more than its"
                    " queue has handles";
                BadOption, 2, "bad option", "", "what the first bad option may be": "OPTION is VALUES";
                CannotMake, 2, "cannot make ", "NAME",
                    "take another name, or see to its folder, the permission and the"
                    " room, and to a file of the name with .jb-unfinished after it": "REASON";
                CannotRead, 2, "cannot read ", "NAME",
                    "it is to be a file that may be read; an image is a regular file or"
                    " block device, and may be written too": "REASON";
                InUse, 2, "in use ", "NAME",
                    "it is mounted, or another jb works on it: unmount it, or run the"
                    " command again when that one has ended": "HOLDER";
                MountsUnknown, 2, "mounts unknown ", "NAME",
                    "the system does not say whether it is mounted: see to /proc, /sys"
                    " and ulimit -n; recover --force goes on, where it is surely not"
                    " mounted";
                NoLinks, 2, "no links ", "NAME",
                    "the file system of its folder has no links, which a new image needs:"
                    " make it in another one, and copy it";
                SameFile, 2, "same file ", "NAME", "the image and the journal are to be two files";
                TooLong, 2, "too long ", "NAME",
                    "a queue text has at most 16777216 bytes, and a certificate 150994944";
                ReadFault, 4, "ReadFault", "",
                    "the file cannot be read to the end of its journal: it is a folder,"
                    " or its device fails": "REASON";
                SuperShortBlock, 3, "Super ShortBlock", "",
                    "a journal begins with a superblock of 1024 bytes, and the file is"
                    " shorter";
                SuperNoMagic, 3, "Super NoMagic", "",
                    "the file does not begin with a journal; that of a file system is"
                    " copied out by debugfs -R 'dump <8> FILE' DEVICE";
                SuperNotVersion2, 3, "Super NotVersion2 ", "#", "jb takes superblocks of version 2 alone";
                SuperBlockSize, 3, "Super BlockSize ", "#", "a block has 1024, 2048 or 4096 bytes";
                SuperGeometry, 3, "Super Geometry", "",
                    "the file has not all blocks of its journal, or the superblock's"
                    " numbers make none";
                JournalLength, 3, "JournalLength ", "# #",
                    "the file of --journal has more blocks, the first number, than its"
                    " superblock says, the second: copy it out again as it is, by debugfs"
                    " -R 'dump <8> FILE' DEVICE; the image is as it was";
                SuperFeature, 3, "Super Feature ", "# #",
                    "the journal has features that jb has not: 1 1 is checksums of"
                    " version 1, 2 4 commits out of order (async commit), 2 32 fast"
                    " commits, 2 8 and 2 16 checksums, and their sums are several of them:"
                    " run e2fsck, or mount the file system; it is as it was";
                SuperSummed, 3, "Super Feature 2 ", "#",
                    "the journal has checksums (8 or 16, from the first mount on since"
                    " 2016), with which dump, cat and recover take it by --checksums: give"
                    " that, or run e2fsck, or mount the file system; it is as it was";
                SuperChecksumType, 3, "Super ChecksumType ", "#",
                    "the journal's checksums are of a type that is not 4, CRC-32C, or its"
                    " superblock is damaged: run e2fsck, which makes the journal anew, and"
                    " what it held is lost; it is as it was";
                SuperChecksum, 3, "Super Checksum", "",
                    "the journal's superblock is damaged, by its checksum: run e2fsck,"
                    " which makes the journal anew, and what it held is lost; it is as it"
                    " was";
                FileSystemBlockSize, 3, "FileSystem BlockSize ", "#",
                    "the file system has blocks of so many bytes, and the journal others:"
                    " it is not its own; it is as it was";
                FileSystemUuid, 3, "FileSystem Uuid", "",
                    "the journal is that of another file system, or tune2fs -U has"
                    " changed the UUID since: recover --force writes to it then; it is as"
                    " it was";
                FileSystemClean, 3, "FileSystem Clean", "",
                    "the file system needs no recovery (needs_recovery is clear), so the"
                    " journal is an old copy, or the kernel would not read what is loaded"
                    " into it; it is as it was; recover --force writes to it all the same";
                FileSystemNewer, 3, "FileSystem Newer", "",
                    "the file system was mounted after the last commit of the journal, so"
                    " that is an old copy: copy it out again; it is as it was; recover"
                    " --force writes to it all the same, as where a clock was set back";
                FileSystemUnrecovered, 3, "FileSystem Unrecovered", "",
                    "the file system's own journal is to be recovered first, which would"
                    " undo what is loaded: run e2fsck on it, and copy its journal out"
                    " again; it is as it was";
                ExtentsOverlap, 3, "Extents Overlap ", "#",
                    "this block is in two of the extents: give the list as debugfs -R"
                    " 'stat <8>' prints it";
                ExtentsPastEnd, 3, "Extents PastEnd ", "#",
                    "this block of the extents is not in the image: give the list of this"
                    " image";
                ExtentsShort, 3, "Extents Short ", "#",
                    "the extents have so many blocks, and the journal more: give all of"
                    " them";
                ExtentsLong, 3, "Extents Long ", "#",
                    "the extents have so many blocks, and the journal fewer: give those"
                    " of the journal alone, without those of its block map, as debugfs -R"
                    " 'stat <8>' prints them";
                ExtentsNoJournal, 3, "Extents NoJournal", "",
                    "no journal begins at the first of the extents: give the list as"
                    " debugfs -R 'stat <8>' prints it";
                ExtentsBlockSizes, 3, "Extents BlockSizes ", "# #",
                    "a journal begins at the first of the extents in blocks of either"
                    " size, and no superblock of ext2, ext3 or ext4 says which is right:"
                    " copy the journal out, and give it by --journal";
                ExtentsFront, 3, "Extents Front ", "#",
                    "this block of the extents has byte 1024 of the image, where a"
                    " superblock is: give the list of this image's journal";
                ExtentsHome, 3, "Extents Home ", "#",
                    "this home block holds the journal itself: where it is a copy's, the"
                    " extents are not the journal's, or it is damaged; the image is as it"
                    " was";
                ExtentsNothing, 3, "Extents Nothing", "",
                    "the log is not clean, and begins with no committed transaction: the"
                    " extents are not the journal's, or nothing was committed since it was"
                    " last emptied; the image is as it was; recover --force empties it all"
                    " the same";
                ExtentsBroken, 3, "Extents Broken ", "#",
                    "the log ends at this block of the journal, inside a transaction, and"
                    " the block is none of a journal: the extents are not the journal's,"
                    " or a crash was in the midst of a commit; the image is as it was;"
                    " recover --force recovers what is before it";
                ExtentsOther, 3, "Extents Other ", "#",
                    "this block of the journal stands elsewhere, as the file system says"
                    " itself: leave out --extents; the image is as it was";
                OwnDevice, 3, "Own Device", "",
                    "the image is the journal of a file system that is elsewhere: run"
                    " e2fsck on that one";
                OwnFeature, 3, "Own Feature ", "#",
                    "the file system has features that jb does not know: run e2fsck, or"
                    " mount it; it is as it was";
                OwnNone, 3, "Own None", "", "the file system has no journal, so there is nothing to recover";
                OwnExternal, 3, "Own External", "",
                    "the journal is on another device: run e2fsck, or mount the file"
                    " system; it is as it was";
                OwnNoSystem, 3, "Own NoSystem", "", "the image is no longer a file system of ext2, ext3 or ext4";
                OwnField, 3, "Own Field ", "NAME #",
                    "this field of the file system's superblock is damaged: run e2fsck,"
                    " which may know a copy of the superblock; it is as it was";
                OwnDescriptor, 3, "Own Descriptor ", "#",
                    "the block with the descriptor of the journal's group is not in the"
                    " file system: run e2fsck; it is as it was";
                OwnTable, 3, "Own Table ", "#",
                    "the inodes of the journal's group are not in the file system: run"
                    " e2fsck; it is as it was";
                OwnInode, 3, "Own Inode ", "NAME",
                    "the journal's inode is damaged, and no copy of it serves: e2fsck may"
                    " delete the journal then; it is as it was";
                OwnMap, 3, "Own Map ", "NAME #",
                    "the map of the journal's blocks is damaged, and no copy of it"
                    " serves: e2fsck may delete the journal then; it is as it was";
                OwnDiffers, 3, "Own Differs", "",
                    "the journal's inode and the superblock's copy of it have other"
                    " blocks: debugfs -R 'stat <8>' shows the inode's; it is as it was";
                OwnNoSuper, 3, "Own NoSuper ", "#",
                    "this block is the first of the journal's file, and no journal begins"
                    " there: e2fsck makes it anew, and what it held is lost; it is as it"
                    " was";
                OwnShort, 3, "Own Short", "",
                    "the journal says more blocks than its file has: e2fsck makes it"
                    " anew, and what it held is lost; it is as it was";
                Geometry, 2, "Geometry", "", "--journal is 9 at least and 2147483647 at most";
                BadChecksum, 3, "BadChecksum ", "NAME #",
                    "this block of the journal is damaged, by its checksum; the image is"
                    " as it was: e2fsck recovers what is before it, and throws the rest"
                    " away";
                Lost, 3, "Lost ", "#",
                    "this block of the journal commits a transaction behind the end of"
                    " its log, so what that committed is lost: a header between them is"
                    " damaged; nothing was written: copy the journal out, before e2fsck or"
                    " a mount empties it";
                BadRevoke, 3, "BadRevoke ", "#", "this block of the journal is damaged; the image is as it was";
                HomeOutOfRange, 3, "HomeOutOfRange ", "# #",
                    "the image is as it was; it is to be made whole, or its journal given"
                    " by --journal, and now has so many home blocks": "#";
                NoHome, 3, "NoHome ", "#",
                    "home blocks are numbered from 0; jb widen gives numbers past"
                    " 4294967295; the image has so many": "#";
                NeedsRecovery, 3, "NeedsRecovery", "", "run jb recover on the image first";
                NumbersSpent, 3, "NumbersSpent", "", "run jb renumber on the image first";
                BlockSize, 3, "BlockSize", "", "the first line of the queue text is to have the image's block size";
                HandleTooManyCredits, 3, "handle #: TooManyCredits ", "#",
                    "a handle of this journal may touch so many blocks: part it, or"
                    " format a longer journal";
                HandleOutOfRange, 3, "handle #: OutOfRange ", "#",
                    "home blocks are numbered from 0, and the image has so many": "#";
                HandleFull, 3, "handle #: Full ", "#",
                    "the log had no room for ten seconds: leave out --hold, or format a"
                    " longer journal";
                HandleMemory, 5, "handle #: Memory", "",
                    "out of memory: run jb recover on the image, and load the handles"
                    " from this one on with fewer threads";
                HandleAborted, 4, "handle #: Aborted", "",
                    "run jb recover on the image, and see what it holds": "CALL: REASON";
                CommitRefused, 3, "commit Refused", "",
                    "the transactions have no number left: run jb recover and jb renumber"
                    " on the image";
                CommitMemory, 5, "commit Memory", "",
                    "out of memory: run jb recover on the image, and see what it holds";
                CommitAborted, 4, "commit Aborted", "",
                    "run jb recover on the image, and see what it holds": "CALL: REASON";
                CheckpointMemory, 5, "checkpoint Memory", "",
                    "out of memory: run jb recover on the image, which writes home what"
                    " is committed";
                CheckpointStopped, 3, "checkpoint Stopped", "",
                    "the commits ended early, as the line before says: run jb recover on"
                    " the image, which writes home what is committed";
                CheckpointAborted, 4, "checkpoint Aborted", "",
                    "run jb recover on the image, and see what it holds": "CALL: REASON";
                Accounts, 1, "Accounts", "", "this cannot happen: the program is wrong";
                DeviceFault, 4, "DeviceFault", "",
                    "run the command again, once its device is well": "CALL: REASON";
                Memory, 5, "Memory", "", "out of memory: the command needs more";
                WriteFault, 4, "WriteFault", "",
                    "standard output is closed or full; what the command does to an image"
                    " may be done";
            }
            options {
                Bs, "--bs", "1024, 2048 or 4096";
                Journal, "--journal", "4294967295 at most";
                Max, "--max", "4294967295 at most";
                Uuid, "--uuid", "32 hexadecimal digits";
                Homes, "--homes",
                    "a number with which the image has less than 2^63 bytes; without"
                    " --wide 4294967296 at most";
                Extents, "--extents",
                    "a list as debugfs prints it, as (0-1023):8193-9216,"
                    " (1024):9300, or - or @FILE for its text; not with --journal";
                List, "--list", "for --dry-run alone";
                Ring, "--ring", "for --checksums alone";
                Threads, "--threads", "1 to 64";
                Shell, "SHELL", "bash, zsh or fish";
            }
        }
    };
}
