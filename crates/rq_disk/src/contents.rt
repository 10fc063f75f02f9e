//! What the files of a store held when they were opened.
ghost use Rattle.std.specs.Prelude.{ℕ, List, []};
ghost use Rattle.rq_disk.specs.Device.{Images};

/// What a file of pages and a file of a log held when they were opened. No code can read that: what is proved of a
/// device over `S: FileContents` is proved for all contents.
pub trait FileContents: Drop {
    /// The image of each page.
    ghost pages: { Images };

    /// The bytes of the log.
    ghost bytes: { List ℕ };
}

/// For a program to name. Of files that held anything at all, what is proved at this type says nothing. What a program
/// may know of its files is proved over `S: FileContents`.
#[derive(Drop)]
pub struct Unknown;

impl FileContents for Unknown {
    ghost pages = { λ _. [] };

    ghost bytes = { [] };
}
