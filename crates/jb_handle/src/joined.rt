ghost use Rattle.std.specs.Prelude.{◌≡◌, ◌<◌, IfOk, OnErr};
ghost use Rattle.std.specs.FinMap as map;
ghost use Rattle.jb_handle.specs.Words.{words_of};

use crate::stopped::Stopped;
use crate::words::Words;
use crate::words_builder::WordsBuilder;
use jb_block::Memory;
use std::alloc::Global;

impl Words {
    /// The words of a list of handles as those of one: of several words on one home block the last
    /// handle's counts, and it alone is copied.
    ///
    /// # Errors
    ///
    /// `Memory` where there is none for a copy of the words, and never where no handle has a word.
    pub fn joined(alloc: Global, handles: &[Stopped]) -> Result<Words, Memory>
        /// The words of several handles are joined as those of one.
        ensures ok { IfOk result (λ words. words ≡ words_of handles.now) }
        ensures err { OnErr result (0 < map.len (words_of handles.now)) }
    {
        let mut gathered = WordsBuilder::new(alloc);
        for at in (0..handles.len()).rev() {
            gathered.add_all(&handles[at].words)?;
        }
        gathered.into_words(alloc)
    }
}
