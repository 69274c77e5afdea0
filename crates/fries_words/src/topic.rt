/// What help is asked about.
#[derive(Clone, Copy, PartialEq, Eq)]
pub enum Topic {
    /// The program with all its commands.
    Program,
    First,
    Check,
    Plan,
    Run,
    Make,
    Save,
    Resume,
    Live,
    Verify,
    Stream,
}
