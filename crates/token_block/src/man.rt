//! A man at a token instrument.

ghost use Rattle.std.specs.Prelude.{◌≡◌, ◌<◌, ◌+◌, ℕ, [], length, Some, None};
ghost use Rattle.token_law.specs.History.{token_part_of};
ghost use Rattle.token_law.specs.Law.{NamesTrain};
ghost use Rattle.token_law.specs.States.{tokens_at};
ghost use Rattle.token_block.specs.declared.view.Tokens.{Tokens};
ghost use Rattle.token_block.specs.Men.{Answered, IsDrawn, IsFresh, IsOf, HaveMet, Performed};
ghost use Rattle.token_block.specs.Rule.{most_box_calls};
ghost use Rattle.token_block.specs.Steps.{MayStep, Sits, op_by, state_after};

use crate::instrument::Instrument;
use crate::line::TokenLine;
use crate::post::TokenPost;
use crate::words::{TokenOp, coming, own_refusal, reply_by, shown_by};
use std::marker::Model;
use token_law::{Shown, TokenAct, TokenReply};

// Does one call of the post's box, by its operation, and gives the reply. A train that is found coming is then taken
// in.
fn work(
    post: &mut TokenPost,
    line: &TokenLine,
    box_no: u32,
    act: TokenAct,
    op: TokenOp,
) -> TokenReply
    requires line { post.old.seat.table_id ≡ line.now.table.shared.table_id }
    requires sits { Sits line.now.table.shared.key post.old.seat.me.0 }
    requires may { MayStep line.now.table.shared.key box_no act post.old.seat.me.0 }
    requires came { post.old.seat.me.0.came ≡ None }
    requires op { op ≡ op_by line.now.table.shared.key box_no act post.old.seat.me.0 }
    ensures same { post.new.seat.table_id ≡ post.old.seat.table_id }
    ensures answered { Answered line.now.table.shared.key box_no act result post.old.seat.me.0 post.new.seat.me.0 }
{
    let word = post.step(line, box_no, act, op);
    if let TokenOp::Count = op {
        return own_refusal(act);
    }
    let shown = shown_by(word);
    if let Some(train) = coming(box_no, act, shown) {
        let to = Shown::Held { at: box_no, train };
        post.step(line, box_no, act, TokenOp::Move { to });
    }
    reply_by(box_no, act, shown)
}

/// The man at one end of a single line: his seat at its shared words, and what he knows at his own instrument.
///
/// He may go to another thread, and a line may be shared by threads, so that both men work at once. Contracts see him
/// as a `Man`, and say "of that line" by the table of words at which he has his seat and by the tokens at its opening.
#[derive(Drop)]
pub struct TokenMan {
    post: TokenPost,
    box_no: u32,
    own: Instrument,
}

impl Model for TokenMan {
    ghost use Rattle.token_block.specs.Men.{IsMan, Man};

    ghost Value = { Man };

    ghost view = { λ man. record {
      table_id = man.post.seat.table_id;
      view = man.post.seat.me.0;
      box_no = man.box_no;
      tokens = man.own.tokens;
      calls = man.own.calls;
    } };

    ghost invariant = { λ man. IsMan man.post.seat.me.0 man.box_no man.own };
}

impl TokenMan {
    // The man of a box whose post was just drawn, with so many tokens in his instrument.
    pub(crate) fn at_post(post: TokenPost, box_no: u32, tokens: u32) -> TokenMan
        requires box_no { box_no < 2 }
        requires drawn { (opened : Tokens) × IsDrawn opened box_no post.seat.me.0
            × (tokens ≡ tokens_at (state_after opened []) box_no) }
        ensures { (opened : Tokens) → IsDrawn opened box_no post.seat.me.0
            → IsFresh post.seat.table_id opened box_no result }
    {
        TokenMan {
            post,
            box_no,
            own: Instrument {
                tokens,
                hand: None,
                calls: 0,
            },
        }
    }

    /// The tokens in his own instrument, after all that he has seen.
    pub fn tokens(&self) -> u32
        ensures { (opened : Tokens) → self.now.view.opened ≡ Some opened
            → result ≡ tokens_at (state_after opened self.now.view.seen) self.now.box_no }
    {
        self.own.tokens
    }

    /// How many calls he has made.
    pub fn calls(&self) -> u32
        ensures value { result ≡ self.now.calls }
        ensures part { self.now.calls ≡ length (token_part_of self.now.box_no self.now.view.seen) }
    {
        self.own.calls
    }

    /// One call of his box. It takes no memory and waits for nobody.
    ///
    /// What he has seen has grown to a legal token history whose last entry is his box, this call and the reply, the
    /// one entry more of his part. So the reply is the law's after what stands before it there.
    pub fn perform(&mut self, line: &TokenLine, act: TokenAct) -> TokenReply
        requires line { IsOf line.now.table.shared.table_id line.now.table.shared.key self.old }
        requires calls { self.old.calls < most_box_calls }
        requires train { NamesTrain act }
        ensures line { IsOf line.now.table.shared.table_id line.now.table.shared.key self.new }
        ensures box_no { self.new.box_no ≡ self.old.box_no }
        ensures performed { Performed line.now.table.shared.key self.old.box_no act result self.old.view.seen
            self.new.view.seen }
        ensures calls { self.new.calls ≡ self.old.calls + 1 }
    {
        let op = self.own.operation(self.box_no, act);
        let reply = work(&mut self.post, line, self.box_no, act, op);
        self.own.note(act, reply);
        reply
    }

    /// Meets the other man: both have then seen one legal history, which begins with what each had seen, and in which
    /// each one's box has the same entries as before. It makes no entry, takes no memory and waits for nobody.
    pub fn meet(&mut self, line: &TokenLine, other: &mut TokenMan)
        requires mine { IsOf line.now.table.shared.table_id line.now.table.shared.key self.old }
        requires theirs { IsOf line.now.table.shared.table_id line.now.table.shared.key other.old }
        ensures { HaveMet line.now.table.shared.key self.old other.old self.new other.new }
    {
        let twin = self.post.split(line);
        other.post.join(line, twin);
        let twin = other.post.split(line);
        self.post.join(line, twin);
    }
}
