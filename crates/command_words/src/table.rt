//! The table of commands.

ghost use Rattle.std.specs.Prelude.{◌≡◌};
ghost use Rattle.command_words.specs.Commands.{may_have, name_of, row_of, row_shown};

/// The commands, by the first word of each.
#[derive(Clone, Copy)]
pub(crate) enum CommandName {
    Run,
    Stress,
    Check,
    Tables,
    Chart,
    Judge,
    Audit,
    Upgrade,
    Token,
    Watch,
}

/// The names of all commands.
pub(crate) const ALL_NAMES: [CommandName; 10] = [
    CommandName::Run,
    CommandName::Stress,
    CommandName::Check,
    CommandName::Tables,
    CommandName::Chart,
    CommandName::Judge,
    CommandName::Audit,
    CommandName::Upgrade,
    CommandName::Token,
    CommandName::Watch,
];

/// A row of the table: the first word of a command, the arguments that stand for one word each, and whether scripts
/// stand behind these, one or more.
#[derive(Clone, Copy)]
pub(crate) struct Row<'a>(
    pub(crate) &'a str,
    pub(crate) &'a [&'a str],
    pub(crate) bool,
);

/// The row of a command.
pub(crate) fn row_of<'a>(name: CommandName) -> Row<'a>
    ensures { row_shown result ≡ row_of name }
{
    match name {
        CommandName::Run => Row("run", &["plan"], true),
        CommandName::Stress => Row("stress", &["trains"], false),
        CommandName::Check => Row("check", &["plan"], false),
        CommandName::Tables => Row("tables", &["plan", "box"], false),
        CommandName::Chart => Row("chart", &["plan", "box"], false),
        CommandName::Judge => Row("judge", &["plan", "journal"], false),
        CommandName::Audit => Row("audit", &["plan", "journal"], false),
        CommandName::Upgrade => Row("upgrade", &["plan"], false),
        CommandName::Token => Row("token", &["script"], false),
        CommandName::Watch => Row("watch", &["rounds", "plan"], true),
    }
}

/// The command with this first word.
pub(crate) fn name_of(word: &str) -> Option<CommandName>
    ensures { result ≡ name_of word.now }
{
    for name in &ALL_NAMES {
        if word == row_of(*name).0 {
            return Some(*name);
        }
    }
    None
}

/// Whether so many words may stand behind the first word of a command.
pub(crate) fn may_have(name: CommandName, count: usize) -> bool
    ensures { result ≡ may_have name count }
{
    let Row(_, arguments, has_scripts) = row_of(name);
    if has_scripts {
        arguments.len() < count
    } else {
        count == arguments.len()
    }
}
