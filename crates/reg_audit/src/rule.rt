//! The nine rules of the audit, and the breach of one.

ghost use Rattle.std.specs.Prelude.{◌≡◌};
ghost use Rattle.reg_audit.specs.Rules.{rule_name, rule_number};

/// A rule of the audit. Each has its number, from 1 to 9 in this order, and its name.
#[derive(Clone, Copy, Debug)]
pub enum Rule {
    /// A train is offered only after the other box has called attention.
    Offer,
    /// Line Clear is given to a train that was offered.
    Clear,
    /// A train enters a section after Train Entering Section was rung.
    Entering,
    /// A train comes to the berth under Train on Line.
    Berth,
    /// Train Out of Section is rung after a train has left the berth.
    Out,
    /// The instrument is turned to Normal over an empty section.
    Normal,
    /// No signal is passed at danger.
    Danger,
    /// No train is divided.
    Divided,
    /// No line is released by hand.
    Release,
}

impl Rule {
    /// The number of the rule.
    pub fn number(self) -> u8
        ensures { result ≡ rule_number self }
    {
        match self {
            Rule::Offer => 1,
            Rule::Clear => 2,
            Rule::Entering => 3,
            Rule::Berth => 4,
            Rule::Out => 5,
            Rule::Normal => 6,
            Rule::Danger => 7,
            Rule::Divided => 8,
            Rule::Release => 9,
        }
    }

    /// The name of the rule.
    pub fn name(self) -> &'static str
        ensures { result.now ≡ rule_name self }
    {
        match self {
            Rule::Offer => "offer",
            Rule::Clear => "clear",
            Rule::Entering => "entering",
            Rule::Berth => "berth",
            Rule::Out => "out",
            Rule::Normal => "normal",
            Rule::Danger => "danger",
            Rule::Divided => "divided",
            Rule::Release => "release",
        }
    }
}

/// That an entry of a journal breaks a rule. Entries are numbered from 1.
#[derive(Clone, Copy, Debug)]
pub struct Breach {
    pub entry: u32,
    pub rule: Rule,
}
