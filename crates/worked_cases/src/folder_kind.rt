//! The kinds of cases that are folders.

/// What the case of a folder is.
#[derive(Clone, Copy)]
pub enum FolderKind {
    /// A whole command of `box_main`.
    Run,
    /// Texts of which one is refused, with what is told of it.
    Explanation,
    /// A whole command of `signalbox`.
    Command,
}

impl FolderKind {
    /// The folder of all cases of the kind.
    pub fn folder(self) -> &'static str {
        match self {
            FolderKind::Run => "runs",
            FolderKind::Explanation => "explain",
            FolderKind::Command => "people",
        }
    }
}
