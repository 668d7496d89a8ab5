//! What each step on the shared words tells.
use crate::view::View;
use atomic_table::{Join, Play, Split};
use std::marker::{Brand, PhantomData};

/// The call for which an operation is done, the operation, and whether no further look follows. Each step picks its
/// own.
pub trait Asking {
    ghost use Rattle.std.specs.Prelude.{Bool};
    ghost use Rattle.block_words.specs.declared.WordOp.{WordOp};
    ghost use Rattle.line_plan.specs.Plans.{PlanFields};
    ghost use Rattle.line_law.specs.declared.call.Call.{Call};

    ghost plan: { PlanFields };

    ghost call: { Call };

    ghost op: { WordOp };

    ghost last: { Bool };
}

impl Asking for Brand {
    ghost use Rattle.std.specs.Prelude.{[], false};
    ghost use Rattle.block_words.specs.declared.WordOp.TheVariants.{Local};
    ghost use Rattle.line_law.specs.declared.call.Act.TheVariants.{Put};

    ghost plan = { record { version = 0; delay = 0; looks = 0; codes = []; classes = []; boxes = []; trains = [] } };

    ghost call = { record { moment = 0; act = Put 0 } };

    ghost op = { Local };

    ghost last = { false };
}

/// The word at which a glance is cast.
pub trait Glancing {
    ghost use Rattle.line_plan.specs.Plans.{PlanFields};
    ghost use Rattle.word_laws.specs.WordNumbers.{Word};

    ghost plan: { PlanFields };

    ghost word: { Word };
}

impl Glancing for Brand {
    ghost use Rattle.std.specs.Prelude.{[]};
    ghost use Rattle.word_laws.specs.WordNumbers.{TallyOf};

    ghost plan = { record { version = 0; delay = 0; looks = 0; codes = []; classes = []; boxes = []; trains = [] } };

    ghost word = { TallyOf 0 };
}

/// A draw of a post.
pub struct Take;

impl Play<(), View> for Take {
    ghost use Rattle.instrument_rule.specs.Told.{taken};

    ghost then = { taken };
}

/// An operation for a call.
pub struct Do<J> {
    asking: PhantomData<J>,
}

impl<J: Asking> Play<(), View> for Do<J> {
    ghost use Rattle.instrument_rule.specs.Told.{done};

    ghost then = { done J.plan J.call J.op J.last };
}

/// A look for no call.
pub struct Glance<J> {
    glancing: PhantomData<J>,
}

impl<J: Glancing> Play<(), View> for Glance<J> {
    ghost use Rattle.instrument_rule.specs.Told.{glanced};

    ghost then = { glanced J.plan J.word };
}

/// A second seat that has seen as much, and holds no box.
pub struct Twin;

impl Split<View> for Twin {
    ghost use Rattle.instrument_rule.specs.Views.{twin_view};

    ghost left = { λ v. v };

    ghost right = { twin_view };
}

/// Two seats in one.
pub struct Merge;

impl Join<View> for Merge {
    ghost use Rattle.instrument_rule.specs.Views.{both_views, spent_view};

    ghost both = { both_views };

    ghost spent = { spent_view };
}

/// The second look of a join.
pub struct Settle;

impl Play<(), View> for Settle {
    ghost use Rattle.instrument_rule.specs.Told.{settles};

    ghost then = { settles };
}
