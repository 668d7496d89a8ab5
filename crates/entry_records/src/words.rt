//! What is told of an entry.

use std::marker::Model;

/// What is told of an entry, in words. Contracts see the words' bytes.
#[derive(Drop)]
pub struct EntryWords<'a> {
    /// Its number in the journal, from 1.
    pub n: u64,
    /// The name of its box.
    pub box_name: &'a str,
    /// Its moment, in the form of the plan's version.
    pub at: String,
    /// What was done, as a script has it behind the moment.
    pub call: String,
    /// The reply, as a journal has it.
    pub reply: String,
    /// Whether what was asked for is done.
    pub is_done: bool,
    /// The lever that the reply names, if it names one.
    pub lever: Option<u32>,
    /// The place that the reply names, if it names one.
    pub place: Option<&'a str>,
    /// The train that the reply names, if it names one.
    pub train: Option<&'a str>,
    /// Why it is refused, where it is.
    pub says: Option<String>,
}

impl<'a> Model for EntryWords<'a> {
    ghost use Rattle.std.specs.Prelude.{option_map, string_bytes};
    ghost use Rattle.entry_records.specs.Fields.{EntryFields};

    ghost Value = { EntryFields };

    ghost view = { λ words. record {
      n = words.n;
      box_name = words.box_name.now;
      at = string_bytes words.at;
      call = string_bytes words.call;
      reply = string_bytes words.reply;
      done = words.is_done;
      lever = words.lever;
      place = option_map (λ name. name.now) words.place;
      train = option_map (λ name. name.now) words.train;
      says = option_map (λ text. string_bytes text) words.says;
    } };
}
