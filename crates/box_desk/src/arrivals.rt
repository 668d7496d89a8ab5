//! The arrival of trains from a section, by the word of that.

ghost use Rattle.std.specs.Prelude.{◌≡◌, ◌<◌, ◌^◌, List, None, length};
ghost use Rattle.track_circuits.specs.Tracks.{occupant_of};
ghost use Rattle.line_plan.specs.Frames.{BoxFields};
ghost use Rattle.line_law.specs.declared.link.Link.TheVariants.{In};
ghost use Rattle.line_law.specs.declared.state.Passage.{Passage};
ghost use Rattle.line_law.specs.Arrivals.{await_train, berth_refusal, berthed, clear_portion_refusal, cleared};
ghost use Rattle.line_law.specs.Arrivals.{next_number, next_train, parted};
ghost use Rattle.line_law.specs.Ways.{of_way};
ghost use Rattle.word_laws.specs.WordNumbers.{PlainLineAgrees, plain_line_number};
ghost use Rattle.box_desk.specs.Boxes.{IsFitted, here_of};
ghost use Rattle.box_desk.specs.Steps.{IsTold};

use crate::equipment::Equipment;
use block_words::{Way, lane};
use line_law::Reply;
use line_plan::Berth;

impl Equipment {
    /// The number of the train that an incoming line takes next.
    pub(crate) fn next_number(&self, way: Way) -> u64
        requires { (of_way self.now.lines way).taken < 2 ^ 32 }
        ensures { result ≡ next_number (here_of self.now) way }
    {
        self.lines.get(way).taken + 1
    }

    // The train with that number, where the word of the section has it.
    fn next_train(&self, way: Way, word: u64) -> Option<u32>
        requires { (of_way self.now.lines way).taken < 2 ^ 32 }
        ensures { (line : List Passage) → PlainLineAgrees (In way) (here_of self.now) line
            → plain_line_number line ≡ word → next_train (here_of self.now) way line ≡ result }
    {
        let train = lane(word, self.next_number(way));
        if train == 0 {
            return None;
        }
        Some(u32::from(train))
    }

    /// What a look for the next train is answered.
    pub(crate) fn await_train(&self, way: Way, word: u64) -> Reply
        requires { (of_way self.now.lines way).taken < 2 ^ 32 }
        ensures told { (line : List Passage) → PlainLineAgrees (In way) (here_of self.now) line
            → plain_line_number line ≡ word
            → IsTold (List Passage) (await_train (here_of self.now) way line) result (here_of self.now) }
    {
        let j = self.next_number(way);
        match self.next_train(way, word) {
            Some(train) => Reply::Approaching { j, train },
            None => Reply::TrainNotYet { j },
        }
    }

    /// What coming into a berth is refused for in the box.
    pub(crate) fn berth_refusal(&self, way: Way, berth: &Berth) -> Option<Reply>
        requires { berth.now.place < length self.now.tracks }
        ensures { result ≡ berth_refusal (here_of self.now) way berth.now }
    {
        if let Some(train) = self.lines.get(way).portion {
            return Some(Reply::PortionAhead { train });
        }
        let train = self.tracks.occupant(berth.place)?;
        Some(Reply::BerthOccupied { train })
    }

    /// The next train comes whole into an empty berth.
    pub(crate) fn berth(&mut self, way: Way, place: u32, word: u64) -> Reply
        requires place { place < length self.old.tracks }
        requires empty { occupant_of self.old.tracks place ≡ None }
        requires few { (of_way self.old.lines way).taken < 2 ^ 32 }
        ensures told { (line : List Passage) → PlainLineAgrees (In way) (here_of self.old) line
            → plain_line_number line ≡ word
            → IsTold (List Passage) (berthed (here_of self.old) way place line) result (here_of self.new) }
        ensures fitted { (box_plan : BoxFields) → IsFitted box_plan self.old → IsFitted box_plan self.new }
    {
        let j = self.next_number(way);
        let Some(train) = self.next_train(way, word) else {
            return Reply::NoTrainAt { j };
        };
        self.tracks.enter(place, train).unwrap();
        let mut line = self.lines.get(way);
        line.berth(j);
        self.lines.set(way, line);
        Reply::Berthed { j, train }
    }

    /// The next train comes into an empty berth, and leaves a portion behind.
    pub(crate) fn berth_part(&mut self, way: Way, place: u32, word: u64) -> Reply
        requires place { place < length self.old.tracks }
        requires empty { occupant_of self.old.tracks place ≡ None }
        requires few { (of_way self.old.lines way).taken < 2 ^ 32 }
        ensures told { (line : List Passage) → PlainLineAgrees (In way) (here_of self.old) line
            → plain_line_number line ≡ word
            → IsTold (List Passage) (parted (here_of self.old) way place line) result (here_of self.new) }
        ensures fitted { (box_plan : BoxFields) → IsFitted box_plan self.old → IsFitted box_plan self.new }
    {
        let j = self.next_number(way);
        let Some(train) = self.next_train(way, word) else {
            return Reply::NoTrainAt { j };
        };
        self.tracks.enter(place, train).unwrap();
        let mut line = self.lines.get(way);
        line.part(train);
        self.lines.set(way, line);
        Reply::PartBerthed { j, train }
    }

    /// What clearing a left portion away is refused for in the box.
    pub(crate) fn clear_portion_refusal(&self, way: Way) -> Option<Reply>
        ensures { result ≡ clear_portion_refusal (of_way (here_of self.now).incoming way).portion }
    {
        match self.lines.get(way).portion {
            Some(_) => None,
            None => Some(Reply::NoPortion),
        }
    }

    /// The left portion of an incoming line is cleared away.
    pub(crate) fn clear_portion(&mut self, way: Way, word: u64) -> Reply
        requires few { (of_way self.old.lines way).taken < 2 ^ 32 }
        ensures told { (line : List Passage) → PlainLineAgrees (In way) (here_of self.old) line
            → plain_line_number line ≡ word
            → IsTold (List Passage) (cleared (here_of self.old) way line) result (here_of self.new) }
        ensures fitted { (box_plan : BoxFields) → IsFitted box_plan self.old → IsFitted box_plan self.new }
    {
        let j = self.next_number(way);
        let Some(train) = self.next_train(way, word) else {
            return Reply::NoTrainAt { j };
        };
        let mut line = self.lines.get(way);
        line.clear(j);
        self.lines.set(way, line);
        Reply::Cleared { j, train }
    }
}
