//! Where the entries of a box stand in its sheets, one after another.

ghost use Rattle.std.specs.Prelude.{◌≡◌};
ghost use Rattle.register_sheet.specs.Spots.{beside, bell_heard, bell_rung, came_in, first_line, left, line_after, noted};
ghost use Rattle.register_sheet.specs.Spots.{offered_on, on_line, opened, remarked, spot_by, went_ahead, with_bell};
ghost use Rattle.register_sheet.specs.Spots.{with_lines};

use crate::bell::{LastBell, Sense, is_answer, sense_of};
use crate::event::Event;
use crate::open_lines::{Found, NO_OPEN_LINES, OpenLines};
use crate::queue::OpenLine;
use crate::spot::{Column, Spot};
use bell_codes::CodeNo;
use block_words::Way;
use line_law::ByWay;
use line_plan::Plan;

/// What is open at a box: the lines of each way, the last bell entry on each side, and the way that was written last.
#[derive(Clone, Copy, Debug)]
pub struct Pages {
    pub ways: ByWay<OpenLines>,
    pub bells: ByWay<Option<LastBell>>,
    pub last: Way,
}

/// Where an entry stands, and what is open at the box after it.
#[derive(Clone, Copy, Debug)]
pub struct Step {
    pub spot: Spot,
    pub pages: Pages,
}

/// Nothing is open.
pub const NO_PAGES: Pages = Pages {
    ways: ByWay {
        up: NO_OPEN_LINES,
        down: NO_OPEN_LINES,
    },
    bells: ByWay {
        up: None,
        down: None,
    },
    last: Way::Down,
};

// The number of a line, if one was found, or of the one that was written last.
fn line_after(found: Option<OpenLine>, last: Option<usize>) -> Option<usize>
    ensures { result ≡ line_after found last }
{
    match found {
        Some(line) => Some(line.line),
        None => last,
    }
}

// A line that is opened by an offer with this code.
fn first_line(line: usize, code: CodeNo) -> OpenLine
    ensures { result ≡ first_line line code }
{
    OpenLine {
        line,
        code,
        train: None,
    }
}

impl Pages {
    // With the lines of a way as they are after its last one was written.
    fn with_lines(self, way: Way, lines: OpenLines, last: Option<usize>) -> Pages
        ensures { result ≡ with_lines way lines last self }
    {
        let mut ways = self.ways;
        ways.set(way, OpenLines { last, ..lines });
        Pages {
            ways,
            last: way,
            ..self
        }
    }

    // An entry opens a line of this number.
    fn opened(self, way: Way, lines: OpenLines, line: OpenLine, column: Column) -> Step
        ensures { result ≡ opened way lines line column self }
    {
        Step {
            spot: Spot::NewLine {
                way,
                code: line.code,
                column,
            },
            pages: self.with_lines(way, lines, Some(line.line)),
        }
    }

    // An entry stands in a column of the line that was found, or where none was among the remarks.
    fn on_line(self, way: Way, column: Column, found: Found) -> Step
        ensures { result ≡ on_line way column found self }
    {
        match found.line {
            Some(line) => Step {
                spot: Spot::Written {
                    way,
                    line: line.line,
                    column,
                },
                pages: self.with_lines(way, found.lines, Some(line.line)),
            },
            None => self.noted(way, found),
        }
    }

    // An entry stands among the remarks of the line that was found, or of the one that was written last.
    fn noted(self, way: Way, found: Found) -> Step
        ensures { result ≡ noted way found self }
    {
        let line = line_after(found.line, self.ways.get(way).last);
        Step {
            spot: Spot::Remark { way, line },
            pages: self.with_lines(way, found.lines, line),
        }
    }

    // An entry stands among the remarks of a way, or of the one that was written last.
    fn remarked(self, way: Option<Way>) -> Step
        ensures { result ≡ remarked way self }
    {
        let way = match way {
            Some(way) => way,
            None => self.last,
        };
        let lines = self.ways.get(way);
        self.noted(way, Found { line: None, lines })
    }

    // An entry stands beside the sheets.
    fn beside(self) -> Step
        ensures { result ≡ beside self }
    {
        Step {
            spot: Spot::Beside,
            pages: self,
        }
    }

    // After a bell entry on a side.
    fn with_bell(self, side: Way, bell: LastBell) -> Pages
        ensures { result ≡ with_bell side bell self }
    {
        let mut bells = self.bells;
        bells.set(side, Some(bell));
        Pages { bells, ..self }
    }

    // A train is offered to the box in advance.
    fn offered_on(self, way: Way, code: CodeNo, number: usize) -> Step
        ensures { result ≡ offered_on way code number self }
    {
        let found = self.ways.get(way).offered(code);
        match found.line {
            Some(_) => self.on_line(way, Column::Offered, found),
            None => {
                let line = first_line(number, code);
                self.opened(way, found.lines.started(line), line, Column::Offered)
            }
        }
    }

    // A code was rung towards a side.
    fn bell_rung(self, sense: Sense, side: Way, code: CodeNo, number: usize) -> Step
        ensures { result ≡ bell_rung side code number self sense }
    {
        let ahead = self.ways.get(side);
        let back = side.opposite();
        let behind = self.ways.get(back);
        match sense {
            Sense::Offer => self.offered_on(side, code, number),
            Sense::Acceptance => self.on_line(back, Column::Accepted, behind.accepted()),
            Sense::Misrepetition => self.noted(back, behind.accepted()),
            Sense::Entering => self.on_line(side, Column::EnteringGiven, ahead.sent()),
            Sense::Out => self.on_line(back, Column::OutGiven, behind.out_given()),
            Sense::Remark => self.remarked(Some(side)),
            Sense::Nothing => self.beside(),
        }
    }

    // A code was heard from a side.
    fn bell_heard(self, sense: Sense, side: Way, code: CodeNo, number: usize) -> Step
        ensures { result ≡ bell_heard side code number self sense }
    {
        let ahead = self.ways.get(side);
        let back = side.opposite();
        let behind = self.ways.get(back);
        match sense {
            Sense::Offer => {
                let line = first_line(number, code);
                self.opened(back, behind.received(line), line, Column::Received)
            }
            Sense::Acceptance => self.on_line(side, Column::AcceptedAhead, ahead.sent()),
            Sense::Misrepetition => self.noted(side, ahead.sent()),
            Sense::Entering => {
                self.on_line(back, Column::EnteringReceived, behind.entering_received())
            }
            Sense::Out => self.on_line(side, Column::OutReceived, ahead.out_received()),
            Sense::Remark => self.remarked(Some(back)),
            Sense::Nothing => self.beside(),
        }
    }

    // A train came to the berth of a line; one that left a portion behind is remarked.
    fn came_in(self, way: Way, train: u32, is_whole: bool) -> Step
        ensures { result ≡ came_in way train is_whole self }
    {
        let found = self.ways.get(way).arrived(train);
        if is_whole {
            self.on_line(way, Column::Arrived, found)
        } else {
            self.noted(way, found)
        }
    }

    // A train has left the box.
    fn left(self, train: u32) -> Pages
        ensures { result ≡ left train self }
    {
        let ways = ByWay {
            up: self.ways.up.without(train),
            down: self.ways.down.without(train),
        };
        Pages { ways, ..self }
    }

    // A train went into the section ahead; past a signal at danger it is remarked.
    fn went_ahead(self, way: Way, at_danger: bool) -> Step
        ensures { result ≡ went_ahead way at_danger self }
    {
        let found = self.ways.get(way).departed();
        if at_danger {
            self.noted(way, found)
        } else {
            self.on_line(way, Column::Departed, found)
        }
    }
}

/// Where an entry stands, by what it is, and what is open at its box after it. A line that it opens has this number.
pub fn spot_by(plan: &Plan, number: usize, event: Event, pages: Pages) -> Step
    ensures { result ≡ spot_by plan.now number event pages }
{
    match event {
        Event::Rang { side, code } => {
            let last = pages.bells.get(side);
            let is_answer = is_answer(plan, last, true, code);
            let bell = LastBell {
                is_rung: true,
                code,
                is_answer,
            };
            let sense = sense_of(plan, last, true, code);
            pages
                .with_bell(side, bell)
                .bell_rung(sense, side, code, number)
        }
        Event::Heard { side, code } => {
            let last = pages.bells.get(side);
            let is_answer = is_answer(plan, last, false, code);
            let bell = LastBell {
                is_rung: false,
                code,
                is_answer,
            };
            let sense = sense_of(plan, last, false, code);
            pages
                .with_bell(side, bell)
                .bell_heard(sense, side, code, number)
        }
        Event::Arrived {
            way,
            train,
            is_whole,
        } => pages.came_in(way, train, is_whole),
        Event::Departed {
            way,
            train,
            at_danger,
        } => pages.left(train).went_ahead(way, at_danger),
        Event::WentAway { train, at_danger } => {
            let pages = pages.left(train);
            if at_danger {
                pages.remarked(None)
            } else {
                pages.beside()
            }
        }
        Event::Noted { way } => pages.remarked(way),
        Event::Worked => pages.beside(),
    }
}
