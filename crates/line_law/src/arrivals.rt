//! The arrival of trains from a section.

ghost use Rattle.std.specs.Prelude.{◌≡◌, ◌<◌, ◌^◌, ◌+◌, ◌∷◌, None, Some, IfErr, IfOk, IsSome, length, drop};
ghost use Rattle.block_words.specs.declared.Way.{Way};
ghost use Rattle.line_law.specs.Arrivals.{await_train, berth as berth_whole, berth_part, berth_refusal, berthed};
ghost use Rattle.line_law.specs.Arrivals.{clear_portion, clear_portion_refusal, cleared, first_train, next_number};
ghost use Rattle.line_law.specs.Arrivals.{next_train, parted};
ghost use Rattle.line_law.specs.declared.call.Reply.TheVariants.{NoTrainAt};
ghost use Rattle.line_law.specs.Decisions.{OnPlainLine, on_pair};
ghost use Rattle.line_law.specs.Ways.{of_way};

use crate::call::Reply;
use crate::plain_line::PlainLine;
use crate::state::{BoxState, Incoming, PairState, Passage};
use crate::tracks::train_on;
use block_words::Way;
use line_plan::Berth;

impl PlainLine {
    /// The train with number `j`, where it is the first.
    pub fn first_train(&self, j: u64) -> Option<u32>
        ensures { result ≡ first_train j self.now }
    {
        let first = self.first()?;
        if first.number == j {
            Some(first.train)
        } else {
            None
        }
    }
}

impl BoxState {
    /// The number of the train that an incoming line takes next.
    pub fn next_number(&self, way: Way) -> u64
        requires { (of_way self.now.incoming way).taken < 2 ^ 32 }
        ensures { result ≡ next_number self.now way }
    {
        self.incoming.get(way).taken + 1
    }

    /// The next train of an incoming line, where it is the first on its plain line; else the reply that it isn't there.
    pub(crate) fn next_train(&self, line: &PlainLine, way: Way) -> Result<Passage, Reply>
        requires { (of_way self.now.incoming way).taken < 2 ^ 32 }
        ensures ok { IfOk result (λ next. (next.number ≡ next_number self.now way)
            × (next_train self.now way line.now ≡ Some next.train)) }
        ensures err { IfErr result (λ reply. (next_train self.now way line.now ≡ None)
            × (reply ≡ NoTrainAt (next_number self.now way))) }
    {
        let j = self.next_number(way);
        match line.first_train(j) {
            Some(train) => Ok(Passage { number: j, train }),
            None => Err(Reply::NoTrainAt { j }),
        }
    }

    /// What a look for the next train on the plain line of a way is answered; nothing changes.
    pub fn look_plain_line(&self, pair: &PairState, way: Way) -> Reply
        requires { (way : Way) → (of_way self.now.incoming way).taken < 2 ^ 32 }
        ensures { on_pair way (OnPlainLine (await_train self.now way)) pair.now
            ≡ record { reply = result; here = self.now; word = pair.now } }
    {
        let j = self.next_number(way);
        match pair.plain_line(way).first_train(j) {
            Some(train) => Reply::Approaching { j, train },
            None => Reply::TrainNotYet { j },
        }
    }

    /// What coming into a berth is refused for in the box.
    pub fn berth_refusal(&self, way: Way, berth: &Berth) -> Option<Reply>
        requires { berth.now.place < length self.now.places }
        ensures { result ≡ berth_refusal self.now way berth.now }
    {
        if let Some(train) = self.incoming.get(way).portion {
            return Some(Reply::PortionAhead { train });
        }
        let train = train_on(self.places.as_slice(), berth.place)?;
        Some(Reply::BerthOccupied { train })
    }

    // The next train comes whole into the berth at a place.
    fn berth_train(&mut self, line: &mut PlainLine, way: Way, place: u32) -> Reply
        requires place { place < length self.old.places }
        requires few { (of_way self.old.incoming way).taken < 2 ^ 32 }
        ensures { berthed self.old way place line.old ≡ record { reply = result; here = self.new; word = line.new } }
    {
        let Passage { number: j, train } = match self.next_train(line, way) {
            Ok(next) => next,
            Err(reply) => return reply,
        };
        line.remove_first();
        self.places.set(place as usize, Some(train));
        let came = self.incoming.get(way);
        self.incoming.set(
            way,
            Incoming {
                taken: j,
                control: came.control.berthed(),
                ready_at: None,
                ..came
            },
        );
        Reply::Berthed { j, train }
    }

    // The next train comes into the berth at a place, and leaves a portion behind.
    fn part_train(&mut self, line: &PlainLine, way: Way, place: u32) -> Reply
        requires place { place < length self.old.places }
        requires few { (of_way self.old.incoming way).taken < 2 ^ 32 }
        ensures { parted self.old way place line.now ≡ record { reply = result; here = self.new; word = line.now } }
    {
        let Passage { number: j, train } = match self.next_train(line, way) {
            Ok(next) => next,
            Err(reply) => return reply,
        };
        self.places.set(place as usize, Some(train));
        let came = self.incoming.get(way);
        self.incoming.set(
            way,
            Incoming {
                portion: Some(train),
                control: came.control.berthed(),
                ready_at: None,
                ..came
            },
        );
        Reply::PartBerthed { j, train }
    }

    // The portion of the next train is cleared away.
    fn clear_train(&mut self, line: &mut PlainLine, way: Way) -> Reply
        requires { (of_way self.old.incoming way).taken < 2 ^ 32 }
        ensures { cleared self.old way line.old ≡ record { reply = result; here = self.new; word = line.new } }
    {
        let Passage { number: j, train } = match self.next_train(line, way) {
            Ok(next) => next,
            Err(reply) => return reply,
        };
        line.remove_first();
        let came = self.incoming.get(way);
        self.incoming.set(
            way,
            Incoming {
                taken: j,
                portion: None,
                ..came
            },
        );
        Reply::Cleared { j, train }
    }

    /// The next train of the incoming line that has this berth comes whole into it.
    pub fn berth(&mut self, pair: &mut PairState, berth: &Berth, way: Way) -> Reply
        requires place { berth.now.place < length self.old.places }
        requires few { (way : Way) → (of_way self.old.incoming way).taken < 2 ^ 32 }
        ensures { on_pair way (berth_whole (Some berth.now) self.old way) pair.old
            ≡ record { reply = result; here = self.new; word = pair.new } }
    {
        if let Some(reply) = self.berth_refusal(way, berth) {
            return reply;
        }
        match way {
            Way::Up => self.berth_train(&mut pair.lines.up, Way::Up, berth.place),
            Way::Down => self.berth_train(&mut pair.lines.down, Way::Down, berth.place),
        }
    }

    /// The next train of the incoming line that has this berth comes into it, and leaves a portion behind.
    pub fn berth_part(&mut self, pair: &PairState, berth: &Berth, way: Way) -> Reply
        requires place { berth.now.place < length self.old.places }
        requires few { (way : Way) → (of_way self.old.incoming way).taken < 2 ^ 32 }
        ensures { on_pair way (berth_part (Some berth.now) self.old way) pair.now
            ≡ record { reply = result; here = self.new; word = pair.now } }
    {
        if let Some(reply) = self.berth_refusal(way, berth) {
            return reply;
        }
        match way {
            Way::Up => self.part_train(&pair.lines.up, Way::Up, berth.place),
            Way::Down => self.part_train(&pair.lines.down, Way::Down, berth.place),
        }
    }

    /// The left portion of an incoming line is cleared away.
    pub fn clear_portion(&mut self, pair: &mut PairState, way: Way) -> Reply
        requires few { (way : Way) → (of_way self.old.incoming way).taken < 2 ^ 32 }
        ensures { on_pair way (clear_portion self.old way) pair.old
            ≡ record { reply = result; here = self.new; word = pair.new } }
    {
        if self.incoming.get(way).portion.is_none() {
            return Reply::NoPortion;
        }
        match way {
            Way::Up => self.clear_train(&mut pair.lines.up, Way::Up),
            Way::Down => self.clear_train(&mut pair.lines.down, Way::Down),
        }
    }
}
