//! What a reply tells.

ghost use Rattle.std.specs.Prelude.{◌≡◌};
ghost use Rattle.line_law.specs.Serial.{is_not_yet};

use crate::call::Reply;

impl Reply {
    /// Whether an await was refused.
    pub fn is_not_yet(&self) -> bool
        ensures { result ≡ is_not_yet self.now }
    {
        matches!(
            self,
            Reply::BellNotYet { k: _, shown: _ }
                | Reply::BlockNotYet { v: _, shown: _ }
                | Reply::TrainNotYet { j: _ }
        )
    }
}
