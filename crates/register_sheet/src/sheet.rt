//! The sheets of a box.

ghost use Rattle.std.specs.Prelude.{◌≡◌, OnOk, length};
ghost use Rattle.register_sheet.specs.Lines.{filled_at, is_free};

use crate::event::event_of;
use crate::pages::{NO_PAGES, Pages, spot_by};
use crate::spot::{Column, Spot, column_no};
use bell_codes::CodeNo;
use block_words::Way;
use line_law::Entry;
use line_plan::Plan;
use rail_text::NoMemory;
use std::alloc::Global;
use std::marker::Model;

/// A line of a sheet: the way of its train, the code by which it was offered, and for each column the entry that stands
/// there, if one does. Entries are numbered from 0 in their journal.
#[derive(Clone, Copy, Debug)]
pub struct Line {
    pub way: Way,
    pub code: CodeNo,
    pub cells: [Option<usize>; 10],
}

/// An entry that stands among the remarks of a line, or of the sheet of a way. Entries are numbered from 0 in their
/// journal, lines from 0 in the sheets of their box.
#[derive(Clone, Copy, Debug)]
pub struct Remark {
    pub entry: usize,
    pub way: Way,
    pub line: Option<usize>,
}

impl Line {
    ghost use Rattle.std.specs.Prelude.{◌<◌};
    ghost use Rattle.register_sheet.specs.Lines.{cell_of, filled, is_blank, new_line};

    // A line that an entry opens.
    fn new(way: Way, code: CodeNo, column: Column, entry: usize) -> Line
        ensures { result ≡ new_line way code column entry }
    {
        let mut cells = [None; 10];
        cells[column_no(column)] = Some(entry);
        Line { way, code, cells }
    }

    /// The entry that stands in a column, if one does.
    pub fn cell(&self, column: Column) -> Option<usize>
        ensures { result ≡ cell_of column self.now }
    {
        self.cells[column_no(column)]
    }

    // Whether no entry stands in a column.
    fn is_blank(&self, column: Column) -> bool
        ensures { result ≡ is_blank column self.now }
    {
        self.cell(column).is_none()
    }

    // The line with an entry in a column.
    fn filled(self, column: Column, entry: usize) -> Line
        ensures { result ≡ filled column entry self }
    {
        let mut cells = self.cells;
        cells[column_no(column)] = Some(entry);
        Line { cells, ..self }
    }
}

// Puts an entry into a column of a line, where that is free, and tells whether it is.
fn fill(lines: &mut Vec<Line>, line: usize, column: Column, entry: usize) -> bool
    ensures free { result ≡ is_free lines.old.items line column }
    ensures filled { lines.new.items ≡ filled_at line column entry lines.old.items }
{
    if line < lines.len() {
        let its = lines[line];
        if its.is_blank(column) {
            lines[line] = its.filled(column, entry);
            return true;
        }
    }
    false
}

/// The sheets of a box, those of both ways. Contracts see what is open at the end, the lines, the remarks, and the
/// entries that stand beside the sheets.
#[derive(Drop)]
pub struct BoxSheet {
    pages: Pages,
    lines: Vec<Line>,
    remarks: Vec<Remark>,
    beside: Vec<usize>,
}

impl Model for BoxSheet {
    ghost use Rattle.register_sheet.specs.Sheets.{SheetFields};

    ghost Value = { SheetFields };

    ghost view = { λ sheet. record {
      pages = sheet.pages;
      lines = sheet.lines.items;
      remarks = sheet.remarks.items;
      beside = sheet.beside.items;
    } };
}

impl BoxSheet {
    ghost use Rattle.std.specs.Prelude.{◌<◌};
    ghost use Rattle.register_sheet.specs.Sheets.{no_sheet, put, written};

    /// The sheets of a box that has made no entry.
    pub fn new(alloc: Global) -> BoxSheet
        ensures { result ≡ no_sheet }
    {
        BoxSheet {
            pages: NO_PAGES,
            lines: Vec::new(alloc),
            remarks: Vec::new(alloc),
            beside: Vec::new(alloc),
        }
    }

    /// The lines of both ways, in the order in which they were opened.
    pub fn lines(&self) -> &[Line]
        ensures { result.now ≡ self.now.lines }
    {
        &self.lines
    }

    /// The remarks, entry by entry.
    pub fn remarks(&self) -> &[Remark]
        ensures { result.now ≡ self.now.remarks }
    {
        &self.remarks
    }

    /// The entries that stand beside the sheets: levers, signals, instruments, Call Attention and answers.
    pub fn beside(&self) -> &[usize]
        ensures { result.now ≡ self.now.beside }
    {
        &self.beside
    }

    // Puts an entry where it stands; one whose column has another stands among the remarks of that line.
    fn put(&mut self, entry: usize, spot: Spot) -> Result<(), NoMemory>
        ensures { OnOk result (self.new ≡ put entry spot self.old) }
    {
        match spot {
            Spot::NewLine { way, code, column } => {
                self.lines.push(Line::new(way, code, column, entry))?;
            }
            Spot::Written { way, line, column } => {
                if !fill(&mut self.lines, line, column, entry) {
                    let line = Some(line);
                    self.remarks.push(Remark { entry, way, line })?;
                }
            }
            Spot::Remark { way, line } => self.remarks.push(Remark { entry, way, line })?,
            Spot::Beside => self.beside.push(entry)?,
        }
        Ok(())
    }

    /// Writes an entry of the box down, behind those that are written.
    pub fn write(&mut self, plan: &Plan, number: usize, entry: &Entry) -> Result<(), NoMemory>
        requires { entry.now.box_no < length plan.now.boxes }
        ensures { OnOk result (self.new ≡ written plan.now number entry.now self.old) }
    {
        let step = spot_by(plan, self.lines.len(), event_of(plan, entry), self.pages);
        self.pages = step.pages;
        self.put(number, step.spot)
    }
}
