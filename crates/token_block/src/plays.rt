//! What each step on the shared words tells.
use crate::view::TokenView;
use atomic_table::{Join, Play, Split};
use std::marker::{Brand, PhantomData};

/// The tokens at the opening, and the call for which an operation is done. Each step picks its own.
pub trait Calling {
    ghost use Rattle.std.specs.Prelude.{ℕ};
    ghost use Rattle.token_law.specs.declared.calls.TokenAct.{TokenAct};
    ghost use Rattle.token_block.specs.declared.view.Tokens.{Tokens};

    ghost tokens: { Tokens };

    ghost box_no: { ℕ };

    ghost act: { TokenAct };
}

impl Calling for Brand {
    ghost use Rattle.token_law.specs.declared.calls.TokenAct.TheVariants.{Look};

    ghost tokens = { record { at_0 = 0; at_1 = 0 } };

    ghost box_no = { 0 };

    ghost act = { Look };
}

/// A draw of a post.
pub struct Take;

impl Play<(), TokenView> for Take {
    ghost use Rattle.token_block.specs.Steps.{taken};

    ghost then = { taken };
}

/// An operation for a call.
pub struct Do<J> {
    calling: PhantomData<J>,
}

impl<J: Calling> Play<(), TokenView> for Do<J> {
    ghost use Rattle.token_block.specs.Steps.{done};

    ghost then = { done J.tokens J.box_no J.act };
}

/// A second seat that has seen as much, and holds no post.
pub struct Twin;

impl Split<TokenView> for Twin {
    ghost use Rattle.token_block.specs.Views.{twin_view};

    ghost left = { λ v. v };

    ghost right = { twin_view };
}

/// Two seats in one.
pub struct Merge;

impl Join<TokenView> for Merge {
    ghost use Rattle.token_block.specs.Views.{both_views, spent_view};

    ghost both = { both_views };

    ghost spent = { spent_view };
}

/// The second look of a join.
pub struct Settle;

impl Play<(), TokenView> for Settle {
    ghost use Rattle.token_block.specs.Steps.{settles};

    ghost then = { settles };
}
