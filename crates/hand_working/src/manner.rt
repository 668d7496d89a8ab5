//! How lines are asked for and answered.

/// Where a man sits who works a box.
#[derive(Clone, Copy, Debug, PartialEq, Eq)]
pub struct Terminal {
    /// He types his lines at a terminal; else they come from a file or a pipe.
    pub is_typed: bool,
    /// He reads the answers at a terminal that shows colours.
    pub has_colours: bool,
}

/// How lines are asked for and answered.
#[derive(Clone, Copy, Debug, PartialEq, Eq)]
pub struct Manner {
    /// Each line is echoed before its answer, so that what is put is a transcript; else a prompt stands before it.
    pub echoes: bool,
    /// Before each line he is told what is due at his box, where exactly one thing is.
    pub hints: bool,
    /// What is refused and what he notices has a colour.
    pub colours: bool,
    /// Behind each line his box is drawn anew, above its answer.
    pub draws: bool,
}
