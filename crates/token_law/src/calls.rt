//! Calls at the token instruments of a single line, what these show, and what is replied.

ghost use Rattle.std.specs.Prelude.{◌↔◌, IsTrue};
ghost use Rattle.token_law.specs.Law.{IsTokenCall, NamesTrain};

/// What a signalman does at his token instrument. Trains are numbered from 1.
#[derive(Clone, Copy, Debug, PartialEq, Eq)]
pub enum TokenAct {
    /// He gives the other box leave to draw a token.
    Give,
    /// He takes back the leave that he gave.
    Withdraw,
    /// He draws a token for a train.
    Draw { train: u16 },
    /// The train that holds the token at his box departs with it for the other box.
    Depart,
    /// The train that is on the line to his box arrives with the token.
    Arrive,
    /// The token that is held at his box is put back into his instrument.
    Replace,
    /// He looks at what the instruments show.
    Look,
}

/// What both instruments show. Boxes are numbered 0 and 1, trains from 1.
#[derive(Clone, Copy, Debug, PartialEq, Eq)]
pub enum Shown {
    /// No leave stands, and no token is out.
    Idle,
    /// The box `to` has the other's leave to draw a token.
    Leave { to: u32 },
    /// A train holds a token at the box `at`.
    Held { at: u32, train: u16 },
    /// A train is on the line to the box `to` with a token.
    OnLine { to: u32, train: u16 },
}

/// What a signalman is answered at his token instrument.
#[derive(Clone, Copy, Debug, PartialEq, Eq)]
pub enum TokenReply {
    /// Leave was given to the other box.
    LeaveGiven,
    /// Refused: the leave to the box `to` stands.
    LeaveOut { to: u32 },
    /// Refused: this train has a token, held or on the line.
    TokenOut { train: u16 },
    /// The leave was taken back.
    Withdrawn,
    /// Refused: the leave that it needs doesn't stand.
    NoLeave,
    /// A token was drawn.
    Drawn,
    /// Refused: no token is in the instrument.
    Empty,
    /// This train departed with its token.
    Departed { train: u16 },
    /// This train arrived with its token.
    Arrived { train: u16 },
    /// The token of this train was put back.
    Replaced { train: u16 },
    /// Refused: no token is held at the box.
    NoToken,
    /// Refused: no train is on the line to the box.
    NoTrain,
    /// What the instruments show.
    Seen { shown: Shown },
}

/// One call at a single line: whose it is, and what he does.
#[derive(Clone, Copy, Debug, PartialEq, Eq)]
pub struct TokenCall {
    /// His box, 0 or 1.
    pub box_no: u32,
    pub act: TokenAct,
}

impl TokenAct {
    // A train, where one is named, has a number from 1.
    fn names_train(self) -> bool
        ensures { IsTrue result ↔ NamesTrain self }
    {
        match self {
            TokenAct::Draw { train } => train >= 1,
            _ => true,
        }
    }
}

impl TokenCall {
    /// Whether the call may be made: its box is 0 or 1, and a train that it names has a number from 1.
    pub fn may_be_made(self) -> bool
        ensures { IsTrue result ↔ IsTokenCall self }
    {
        self.box_no < 2 && self.act.names_train()
    }
}

/// One call at a single line, and what was replied.
#[derive(Clone, Copy, Debug, PartialEq, Eq)]
pub struct TokenEntry {
    pub call: TokenCall,
    pub reply: TokenReply,
}
