ghost use Rattle.std.specs.Prelude.{◌≡◌, false};

use crate::ExtentsDisk;
use crate::pair::PairDisk;
use jb_block::BlockSize;
use jb_disk::{Disk, Failure, Fault, FileDisk};

/// The disk that an image is: one disk with the journal and the home blocks, or one for each; or one whose home blocks
/// are all of its blocks, some of which hold the journal. Of an image in files, each of them is a file.
#[derive(Drop)]
pub enum ImageDisk<D: Disk = FileDisk, E: Disk = FileDisk> {
    /// The journal at the front of a disk, and the home blocks after it.
    One(D),
    /// The journal on a disk of its own, and the home blocks on another.
    Two(PairDisk<E, D>),
    /// The journal in extents of the disk that has the home blocks.
    Within(ExtentsDisk<D>),
}

impl<D: Disk, E: Disk> ImageDisk<D, E> {
    ghost use Rattle.std.specs.Prelude.{◌≡◌};
    ghost use Rattle.jb_image.specs.Images.{is_within, own_asked, own_home};

    /// Whether the journal is within the home blocks.
    pub fn is_within(&self) -> bool
        ensures { result ≡ is_within self.now }
    {
        matches!(self, ImageDisk::Within(_))
    }

    /// The first of these home blocks that is one of the journal's own.
    pub fn first_own(&self, homes: &[u64]) -> Option<u64>
        ensures { result ≡ own_home self.now homes.now }
    {
        match self {
            ImageDisk::One(_) | ImageDisk::Two(_) => None,
            ImageDisk::Within(disk) => disk.first_own(homes),
        }
    }

    /// One of this many home blocks from this one on that is one of the journal's own; of none, as of one.
    pub fn own_among(&self, home: u64, count: u64) -> Option<u64>
        /// Which of N home blocks in a row is the journal's own, if one is.
        ensures { result ≡ own_asked self.now home count }
    {
        match self {
            ImageDisk::One(_) | ImageDisk::Two(_) => None,
            ImageDisk::Within(disk) => disk.own_among(home, count),
        }
    }
}

/// What it holds is said where each of its disks is honest: it is the disk, the pair or the disk with the journal in
/// extents that it was made of, to which each call is passed on.
impl<D: Disk, E: Disk> Disk for ImageDisk<D, E> {
    ghost use Rattle.jb_image.specs.Bound.{members};
    ghost use Rattle.jb_image.specs.Images.{image_count, image_faults, image_moment, image_newest, image_size};
    ghost use Rattle.jb_image.specs.Images.{ImageTells};
    ghost use Rattle.jb_image.specs.Images.{IsHonestImage, IsImageWellAsked, ImageCalled, ImageLeaves, ImageLeft};
    ghost use Rattle.jb_image.specs.Images.{MayImageGoOn};
    ghost use Rattle.jb_image.specs.Images as images;

    ghost size = { image_size D.Disk E.Disk };

    ghost count = { image_count D.Disk E.Disk };

    ghost faults = { image_faults D.Disk E.Disk };

    ghost honest = { IsHonestImage D.Disk E.Disk };

    ghost newest = { image_newest D.Disk E.Disk };

    ghost may_leave = { ImageLeaves D.Disk E.Disk };

    ghost moment = { image_moment D.Disk E.Disk };

    ghost left_since = { ImageLeft D.Disk E.Disk };

    ghost may_go_on = { MayImageGoOn D.Disk E.Disk };

    ghost well_asked = { IsImageWellAsked D.Disk E.Disk };

    ghost own = { ImageCalled D.Disk E.Disk };

    ghost runs_as_calls = { false };

    ghost tells = { ImageTells D.Disk E.Disk };

    ghost has_size = { λ d. images.has_image_size (members D.Disk) (members E.Disk) D.has_size E.has_size d };

    ghost newest_may_stay = { λ d honest.
        images.newest_may_stay (members D.Disk) (members E.Disk) D.newest_may_stay E.newest_may_stay d honest };

    ghost has_shape = { λ d c honest left.
        images.has_image_shape (members D.Disk) (members E.Disk) D.has_shape E.has_shape d c honest left };

    ghost has_shape_since = { λ d t c honest left.
        images.has_shape_since (members D.Disk) (members E.Disk) D.has_shape_since d t c honest left };

    ghost counts_now = { λ d t c honest earlier left.
        images.counts_now (members D.Disk) (members E.Disk) D.counts_now D.has_shape E.has_shape d t c honest
        earlier left };

    ghost only_now = { λ d c honest left.
        images.only_now (members D.Disk) (members E.Disk) D.only_now d c honest left };

    fn block_size(&self) -> BlockSize {
        match self {
            ImageDisk::One(disk) => disk.block_size(),
            ImageDisk::Two(pair) => pair.block_size(),
            ImageDisk::Within(disk) => disk.block_size(),
        }
    }

    fn blocks(&self) -> u64 {
        match self {
            ImageDisk::One(disk) => disk.blocks(),
            ImageDisk::Two(pair) => pair.blocks(),
            ImageDisk::Within(disk) => disk.blocks(),
        }
    }

    fn failure(&self) -> Option<Failure> {
        match self {
            ImageDisk::One(disk) => disk.failure(),
            ImageDisk::Two(pair) => pair.failure(),
            ImageDisk::Within(disk) => disk.failure(),
        }
    }

    fn read(&mut self, place: u64, buf: &mut [u8]) -> Result<(), Fault> {
        match self {
            ImageDisk::One(disk) => disk.read(place, buf),
            ImageDisk::Two(pair) => pair.read(place, buf),
            ImageDisk::Within(disk) => disk.read(place, buf),
        }
    }

    fn read_run(&mut self, place: u64, blocks: usize, buf: &mut [u8]) -> Result<(), Fault> {
        match self {
            ImageDisk::One(disk) => disk.read_run(place, blocks, buf),
            ImageDisk::Two(pair) => pair.read_run(place, blocks, buf),
            ImageDisk::Within(disk) => disk.read_run(place, blocks, buf),
        }
    }

    fn write(&mut self, place: u64, bytes: &[u8]) -> Result<(), Fault> {
        match self {
            ImageDisk::One(disk) => disk.write(place, bytes),
            ImageDisk::Two(pair) => pair.write(place, bytes),
            ImageDisk::Within(disk) => disk.write(place, bytes),
        }
    }

    fn write_run(&mut self, place: u64, blocks: usize, bytes: &[u8]) -> Result<(), Fault> {
        match self {
            ImageDisk::One(disk) => disk.write_run(place, blocks, bytes),
            ImageDisk::Two(pair) => pair.write_run(place, blocks, bytes),
            ImageDisk::Within(disk) => disk.write_run(place, blocks, bytes),
        }
    }

    fn sync(&mut self) -> Result<(), Fault> {
        match self {
            ImageDisk::One(disk) => disk.sync(),
            ImageDisk::Two(pair) => pair.sync(),
            ImageDisk::Within(disk) => disk.sync(),
        }
    }
}
