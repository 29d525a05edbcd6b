//! What commands are asked for.

/// Whether a run has to use its archive.
#[derive(Debug, Clone, Copy, PartialEq, Eq)]
pub enum Share {
    /// It runs without an archive that is refused.
    Auto,
    /// It ends where the archive is refused.
    On,
}

/// What a run with an archive is asked for.
#[derive(Debug, Drop)]
pub struct RunWords {
    /// The folder of the class files, as it was given.
    pub folder: String,
    /// Whether the archive has to be used.
    pub share: Share,
    /// The path of the archive.
    pub archive: String,
    /// How many turns the run makes at most.
    pub steps: u64,
    /// The internal name of the main class, with a slash between its segments (JVMS 4.2.1).
    pub name: String,
}

/// What a dump is asked for.
#[derive(Debug, Drop)]
pub struct DumpWords {
    /// The folder of the class files, as it was given.
    pub folder: String,
    /// The path of the archive that is written.
    pub archive: String,
    /// The path of the class list.
    pub list: String,
}

/// What an assembly is asked for.
#[derive(Debug, Drop)]
pub struct AsmWords {
    /// The path of the text.
    pub text: String,
    /// The folder that the class files go to, as it was given.
    pub folder: String,
}

/// What a run over a home is asked for.
#[derive(Debug, Drop)]
pub struct HomeRun {
    /// The home: its folder `boot` is the boot loader's, and its folder `platform` the platform loader's.
    pub home: String,
    /// The application folders, 64 at most, in the order in which they are asked.
    pub folders: Vec<String>,
    /// The file that the names of the loaded classes are written to, where one is given.
    pub list: Option<String>,
    /// How many turns the run makes at most.
    pub steps: u64,
    /// The internal name of the main class in modified UTF-8, with a slash between its segments (JVMS 4.2.1, 4.4.7).
    pub name: Vec<u8>,
}

/// What the words ask for.
#[derive(Debug, Drop)]
pub enum Command {
    /// A main class is run, with an archive.
    Run(RunWords),
    /// An archive is dumped.
    Dump(DumpWords),
    /// A text is assembled.
    Asm(AsmWords),
    /// A main class is run over a home.
    HomeRun(HomeRun),
    /// A home is made in this folder.
    MakeHome(String),
}

/// How many turns a run makes at most where the words don't say it.
pub const STEPS: u64 = 1_000_000_000;

/// How many folders a class path has at most.
pub const MAX_FOLDERS: usize = 64;
