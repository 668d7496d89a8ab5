//! A call's line: the box, then what is done there.

ghost use Rattle.std.specs.Prelude.{◌≡◌, ◌≤◌, IfOk, slice_get};
ghost use Rattle.rail_text.specs.Gives.{GivesLine, TakesNoMemory};
ghost use Rattle.rail_text.specs.Words.{number_in};
ghost use Rattle.token_law.specs.Law.{IsTokenCall, NamesTrain};
ghost use Rattle.token_text.specs.Acts.{act_by, act_of, alone, call_of, draw_of};
ghost use Rattle.token_text.specs.Limits.{last_train};

use rail_text::{Cause, LineFault, LineWords, number_in, read_number};
use token_law::{TokenAct, TokenCall};

// The number of a train, from 1.
fn train_in(word: &[u8]) -> Result<u16, Cause>
    ensures exact { result ≡ number_in 1 last_train word.now }
    ensures from_1 { IfOk result (λ train. 1 ≤ train) }
{
    match read_number(word) {
        None => Err(Cause::BadNumber),
        Some(number) => {
            if 1 <= number && number <= 65_535 {
                Ok(number as u16)
            } else {
                Err(Cause::OutOfRange)
            }
        }
    }
}

// `draw T`: the act of drawing a token for a train.
#[tactic(auto, unfolding(crate::specs::Acts::draw_of))]
fn read_draw(words: &LineWords<'_>) -> Result<TokenAct, Cause>
    ensures exact { result ≡ draw_of words.now }
    ensures named { IfOk result (λ act. NamesTrain act) }
{
    match (words.word(2), words.word(3)) {
        (Some(word), None) => {
            let train = train_in(word)?;
            Ok(TokenAct::Draw { train })
        }
        _ => Err(Cause::WordCount),
    }
}

// An act that has no word behind its own.
fn read_alone(words: &LineWords<'_>, act: TokenAct) -> Result<TokenAct, Cause>
    requires { NamesTrain act }
    ensures exact { result ≡ alone act (slice_get words.now 2) }
    ensures named { IfOk result (λ act. NamesTrain act) }
{
    match words.word(2) {
        None => Ok(act),
        Some(_) => Err(Cause::WordCount),
    }
}

// What the act's word says with the words of the line.
#[tactic(auto, unfolding(crate::specs::Acts::act_by))]
fn act_by(words: &LineWords<'_>, word: &[u8]) -> Result<TokenAct, Cause>
    ensures exact { result ≡ act_by words.now word.now }
    ensures named { IfOk result (λ act. NamesTrain act) }
{
    if word == b"draw".as_slice() {
        read_draw(words)
    } else if word == b"give".as_slice() {
        read_alone(words, TokenAct::Give)
    } else if word == b"withdraw".as_slice() {
        read_alone(words, TokenAct::Withdraw)
    } else if word == b"depart".as_slice() {
        read_alone(words, TokenAct::Depart)
    } else if word == b"arrive".as_slice() {
        read_alone(words, TokenAct::Arrive)
    } else if word == b"replace".as_slice() {
        read_alone(words, TokenAct::Replace)
    } else if word == b"look".as_slice() {
        read_alone(words, TokenAct::Look)
    } else {
        Err(Cause::UnknownWord)
    }
}

// What a line says behind its box.
#[tactic(auto, unfolding(crate::specs::Acts::act_of))]
fn read_act(words: &LineWords<'_>) -> Result<TokenAct, Cause>
    ensures exact { result ≡ act_of words.now }
    ensures named { IfOk result (λ act. NamesTrain act) }
{
    match words.word(1) {
        None => Err(Cause::UnknownWord),
        Some(word) => act_by(words, word),
    }
}

/// The call that a line spells: its box, then what is done there.
#[tactic(auto, unfolding(crate::specs::Acts::call_of))]
pub fn read_call(words: &LineWords<'_>) -> Result<TokenCall, LineFault>
    ensures exact { GivesLine (λ call. call) result (call_of words.now) }
    ensures call { IfOk result (λ call. IsTokenCall call) }
    ensures memory { TakesNoMemory result }
{
    let box_no = number_in(words.keyword(), 0, 1)?;
    let act = read_act(words)?;
    Ok(TokenCall { box_no, act })
}
