//! The token script as far as its text is read, and which line may come next.

use crate::acts::read_call;
use crate::script::{MOST_TOKEN_CALLS, TokenScript};
use rail_text::{Cause, Draft, LineFault, LineWords, number_in};
use std::alloc::Global;
use std::marker::Model;
use token_law::TokenCall;

/// Which line comes next.
#[derive(Clone, Copy, Debug, PartialEq, Eq)]
pub enum Stage {
    Version,
    Tokens,
    Calls,
    Ended,
}

/// What is read so far: the stage, the tokens at each box, and the calls.
#[derive(Drop)]
pub struct TokenDraft {
    stage: Stage,
    at_0: u32,
    at_1: u32,
    calls: Vec<TokenCall>,
}

impl Model for TokenDraft {
    ghost use Rattle.token_text.specs.Drafts.{TokenDraftFields};
    ghost use Rattle.token_text.specs.Scripts.{IsTokenScript};

    ghost Value = { TokenDraftFields };

    ghost view = { λ d. record { stage = d.stage; at_0 = d.at_0; at_1 = d.at_1; calls = d.calls.items } };

    ghost invariant = { λ d. IsTokenScript (record { at_0 = d.at_0; at_1 = d.at_1; calls = d.calls.items }) };
}

impl TokenDraft {
    ghost use Rattle.std.specs.Prelude.{◌≡◌, IsErrOf};
    ghost use Rattle.rail_text.specs.Gives.{FaultsFirst, GivesLine, TakesNoMemory};
    ghost use Rattle.token_text.specs.Drafts.{start};
    ghost use Rattle.token_text.specs.Scripts.{call_onto, end_onto, script_from, tokens_onto, version_onto};

    /// Nothing is read.
    pub fn new(alloc: Global) -> TokenDraft
        ensures { result ≡ start }
    {
        TokenDraft {
            stage: Stage::Version,
            at_0: 0,
            at_1: 0,
            calls: Vec::new(alloc),
        }
    }

    // `token 1`: the version.
    #[tactic(auto, unfolding(crate::specs::Scripts::version_onto))]
    fn version_line(&mut self, words: &LineWords<'_>) -> Result<(), LineFault>
        ensures gives { GivesLine (λ _. self.new) result (version_onto self.old words.now) }
        ensures memory { TakesNoMemory result }
    {
        let word = words.one_word()?;
        number_in(word, 1, 1)?;
        self.stage = Stage::Tokens;
        Ok(())
    }

    // `tokens A B`: the tokens at each box.
    #[tactic(auto, unfolding(crate::specs::Scripts::tokens_onto))]
    fn tokens_line(&mut self, words: &LineWords<'_>) -> Result<(), LineFault>
        ensures gives { GivesLine (λ _. self.new) result (tokens_onto self.old words.now) }
        ensures memory { TakesNoMemory result }
    {
        let (first, second) = match (words.word(1), words.word(2), words.word(3)) {
            (Some(first), Some(second), None) => (first, second),
            _ => return Err(LineFault::Cause(Cause::WordCount)),
        };
        let at_0 = number_in(first, 0, 50)?;
        let at_1 = number_in(second, 0, 50)?;
        self.at_0 = at_0;
        self.at_1 = at_1;
        self.stage = Stage::Calls;
        Ok(())
    }

    // A call more.
    #[tactic(auto, using(crate::proofs::Calls::more_calls), unfolding(crate::specs::Scripts::call_onto))]
    fn call_line(&mut self, words: &LineWords<'_>) -> Result<(), LineFault>
        ensures gives { GivesLine (λ _. self.new) result (call_onto self.old words.now) }
        ensures memory { FaultsFirst result (call_onto self.old words.now) }
        ensures left { IsErrOf result LineFault.NoMemory → self.new ≡ self.old }
    {
        let call = read_call(words)?;
        if self.calls.len() >= MOST_TOKEN_CALLS {
            return Err(LineFault::Cause(Cause::TooMany));
        }
        self.calls.push(call)?;
        Ok(())
    }

    // `end`: the script ends.
    #[tactic(auto, unfolding(crate::specs::Scripts::end_onto))]
    fn end_line(&mut self, words: &LineWords<'_>) -> Result<(), LineFault>
        ensures gives { GivesLine (λ _. self.new) result (end_onto self.old words.now) }
        ensures memory { TakesNoMemory result }
    {
        words.no_word()?;
        self.stage = Stage::Ended;
        Ok(())
    }

    /// The script.
    pub fn into_script(self) -> TokenScript
        ensures { result ≡ script_from self }
    {
        TokenScript::new(self.at_0, self.at_1, self.calls)
    }
}

impl Draft for TokenDraft {
    ghost use Rattle.token_text.specs.Drafts.{IsLeft};
    ghost use Rattle.token_text.specs.Scripts.{has_ended, words_onto};

    ghost onto = { words_onto };

    ghost ended = { λ draft. has_ended draft.stage };

    ghost left = { IsLeft };

    #[tactic(auto, using(rail_text::proofs::NeverTold::memory_rules), unfolding(crate::specs::Scripts::stage_onto))]
    fn read_words(&mut self, words: &LineWords<'_>) -> Result<(), LineFault> {
        match self.stage {
            Stage::Version if words.keyword() == b"token".as_slice() => self.version_line(words),
            Stage::Tokens if words.keyword() == b"tokens".as_slice() => self.tokens_line(words),
            Stage::Version | Stage::Tokens => Err(LineFault::Cause(Cause::WrongKeyword)),
            Stage::Calls if words.keyword() == b"end".as_slice() => self.end_line(words),
            Stage::Calls => self.call_line(words),
            Stage::Ended => Err(LineFault::Cause(Cause::AfterEnd)),
        }
    }

    fn has_ended(&self) -> bool {
        self.stage == Stage::Ended
    }
}
