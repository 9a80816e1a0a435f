//! What is supposed of a file.
ghost use Rattle.std.specs.Prelude.{ℕ, []};
ghost use Rattle.jb_disk.specs.Image.{Image};

/// What a file holds, which its caller supposes. A function over `S: Start` is proved for all contents: its clauses
/// say what holds where the record of the calls is that of an honest file which had them.
pub trait Start {
    /// The blocks after each number of calls; after none, what the file held when it was made a disk.
    ghost content: { ℕ → Image };
}

/// For a program to name, which knows nothing of the file: at this type a clause says nothing of one that has a block.
#[derive(Drop)]
pub struct Unknown;

impl Start for Unknown {
    ghost content = { λ _. [] };
}
