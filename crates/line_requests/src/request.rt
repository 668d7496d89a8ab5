//! What is asked for.

/// The most bytes of a line, without its end.
pub const LINE_LIMIT: usize = 65_536;

/// What is asked for.
#[derive(Clone, Copy, Debug, PartialEq, Eq)]
pub enum Request<'v> {
    /// A box makes a call: the name of the box, the moment, and what is done, as a script has it behind the moment.
    Call {
        box_name: &'v str,
        at: &'v str,
        call: &'v str,
    },
    /// What would be answered if each lever of a box were moved: the name of the box, and the moment.
    May {
        box_name: &'v str,
        at: &'v str,
    },
    /// What stands at a box: the name of the box.
    Look {
        box_name: &'v str,
    },
    /// What belongs to a section: the names of the box in its rear and of the box in advance.
    LookTo {
        rear: &'v str,
        advance: &'v str,
    },
    /// All that stands on the line.
    LookAll,
    /// What stands otherwise than behind so many entries.
    Changes {
        count: u64,
    },
    /// The entries from this number on.
    Journal {
        from: u64,
    },
    /// To work a box by a script: the script's text, as a file has it.
    Script {
        text: &'v str,
    },
    /// To go back to where there were so many entries.
    Back {
        count: u64,
    },
    /// The end.
    End,
}
