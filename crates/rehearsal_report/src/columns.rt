//! Lines of two columns, aligned by blanks.

ghost use Rattle.std.specs.Prelude.{◌≡◌, IfSome, None, OnOk, Some, string_bytes};
ghost use Rattle.rehearsal_report.specs.Reports.{IsSentence, PutsBlanks, PutsPair, Reports, Tells, told_row};

use std::alloc::AllocError;
use std::marker::Model;

/// A line of two columns, and behind them a sentence, where there is one. Contracts see what it tells.
#[derive(Drop)]
pub struct ReportRow {
    first: String,
    second: String,
    sentence: Option<String>,
}

impl Model for ReportRow {
    ghost use Rattle.std.specs.Prelude.{IfSome, option_map, string_bytes};
    ghost use Rattle.rehearsal_report.specs.Reports.{IsSentence, Told, told_row};

    ghost Value = { Told };

    ghost view = { λ row. told_row (string_bytes row.first) (string_bytes row.second)
        (option_map (λ sentence. string_bytes sentence) row.sentence) };

    ghost invariant = { λ row. IfSome row.sentence (λ sentence. IsSentence (string_bytes sentence)) };
}

/// How wide the columns of a block are.
#[derive(Clone, Copy)]
pub struct Columns {
    pub first: usize,
    pub second: usize,
}

impl Columns {
    /// As wide as the wider of both.
    pub fn max(self, other: Columns) -> Columns {
        Columns {
            first: self.first.max(other.first),
            second: self.second.max(other.second),
        }
    }
}

impl ReportRow {
    ghost use Rattle.rehearsal_report.specs.Reports.Told.{Row, Said};

    /// Two columns.
    pub fn pair(first: String, second: String) -> ReportRow
        ensures { result ≡ Row (string_bytes first) (string_bytes second) }
    {
        ReportRow {
            first,
            second,
            sentence: None,
        }
    }

    /// Two columns, and a sentence behind them.
    pub fn said(first: String, second: String, sentence: String) -> ReportRow
        requires { IsSentence (string_bytes sentence) }
        ensures { result ≡ Said (string_bytes first) (string_bytes second) }
    {
        ReportRow {
            first,
            second,
            sentence: Some(sentence),
        }
    }

    // Puts the line behind a text, its columns so wide.
    fn put(&self, out: &mut String, columns: Columns) -> Result<(), AllocError>
        ensures { OnOk result (Tells self.now (string_bytes out.old) (string_bytes out.new)) }
    {
        let first = self.first.as_str();
        let second = self.second.as_str();
        put_pair(out, first, second, columns.first)?;
        match &self.sentence {
            None => {
                out.push('\n')?;
                Ok(())
            }
            Some(sentence) => {
                put_blanks(out, columns.second.saturating_sub(second.len()))?;
                out.push_str(sentence.as_str())?;
                out.push('\n')?;
                Ok(())
            }
        }
    }
}

/// Puts so many blanks behind a text, and three more.
pub fn put_blanks(out: &mut String, many: usize) -> Result<(), AllocError>
    ensures { OnOk result (PutsBlanks (string_bytes out.old) (string_bytes out.new)) }
{
    for _ in 0..many {
        out.push(' ')?;
    }
    out.push_str("   ")?;
    Ok(())
}

// Puts two columns behind a text, the first so wide.
fn put_pair(out: &mut String, first: &str, second: &str, width: usize) -> Result<(), AllocError>
    ensures { OnOk result (PutsPair first.now second.now (string_bytes out.old) (string_bytes out.new)) }
{
    out.push_str(first)?;
    put_blanks(out, width.saturating_sub(first.len()))?;
    out.push_str(second)
}

// How wide the columns of these lines are. A second column with nothing behind it may be as long as it is.
fn columns_of(rows: &[ReportRow]) -> Columns {
    let mut columns = Columns {
        first: 0,
        second: 0,
    };
    for row in rows {
        columns.first = columns.first.max(row.first.len());
        if row.sentence.is_some() {
            columns.second = columns.second.max(row.second.len());
        }
    }
    columns
}

/// Puts these lines behind a text, their columns aligned.
pub fn put_rows(out: &mut String, rows: &[ReportRow]) -> Result<(), AllocError>
    ensures { OnOk result (Reports rows.now (string_bytes out.old) (string_bytes out.new)) }
{
    let columns = columns_of(rows);
    for row in rows {
        row.put(out, columns)?;
    }
    Ok(())
}
