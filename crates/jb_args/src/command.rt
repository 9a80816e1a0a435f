use crate::plain::Plain;

/// What the words after the program's name ask for.
#[derive(Clone, Copy)]
pub enum CommandLine<'a> {
    /// A command that runs by itself, without threads.
    Plain(Plain<'a>),
    /// `jb load IMAGE FILE ..`: the handles of a queue text, run by threads and committed to an image.
    Load(LoadWords<'a>),
    /// `jb completions SHELL`: the script by which a shell completes the words of `jb`.
    Completions {
        /// The name of the shell, not checked yet.
        shell: &'a str,
    },
}

/// The words and options of `jb load` as they were given, not checked yet.
#[derive(Clone, Copy)]
pub struct LoadWords<'a> {
    /// The file with the journal and the home blocks.
    pub image: &'a str,
    /// The queue text.
    pub file: &'a str,
    /// `--journal`: the file with the journal, where the image has the home blocks alone.
    pub journal: Option<&'a str>,
    /// `--extents`: where the journal is within the image.
    pub extents: Option<&'a str>,
    /// `--threads`: how many threads run the handles.
    pub threads: u64,
    /// `--hold`: whether the commits begin once all handles have run.
    pub hold: bool,
    /// `--stamp`: the time of the commit blocks, in seconds since 1970.
    pub stamp: u64,
    /// `--checkpoint`: whether what is committed is written home, too.
    pub checkpoint: bool,
}
