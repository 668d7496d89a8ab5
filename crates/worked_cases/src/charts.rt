//! Locking charts.

use crate::case_fault::CaseFault;
use crate::putting::{Done, number_of, put_numbers, put_whether, two_parts};
use bridle_frame::{Bridle, Frame};
use frame_chart::{Chart, chart, chart_holds};
use line_plan::Items;
use locking_table::MOST_LEVERS;
use std::alloc::Global;

// Puts the channel of each bridle, how many channels there are, the column, and the bridles that it crosses.
fn put_parts(out: &mut String, found: &Chart) -> Done {
    let (count, column) = (found.count, found.column);
    write!(out, "{count} channels:")?;
    put_numbers(out, found.channels.as_slice())?;
    write!(out, "; column {column}:")?;
    put_numbers(out, found.crossing.as_slice())
}

/// `chart ROWS`: the chart of the bridles, and whether it holds.
pub fn put_chart(alloc: Global, out: &mut String, bridles: &[Bridle]) -> Done {
    if 1000 <= bridles.len() || !Frame::accepts(MOST_LEVERS, bridles) {
        return Err(CaseFault::Argument);
    }
    let found = chart(alloc, bridles)?;
    let holds = chart_holds(bridles, &found);
    let done = put_parts(out, &found);
    drop(found);
    done?;
    put_whether(out, holds, "; holds", "; doesn't hold")
}

fn push_numbers(numbers: &mut Vec<u32>, words: &str) -> Done {
    if words == "-" {
        return Ok(());
    }
    for word in words.split(' ') {
        numbers.push(number_of(word)?)?;
    }
    Ok(())
}

// The numbers that words spell, of which `-` stands for none.
fn numbers_of(alloc: Global, words: &str) -> Result<Items<u32>, CaseFault> {
    let mut numbers = Vec::new(alloc);
    match push_numbers(&mut numbers, words) {
        Ok(()) => Ok(Items::from_vec(numbers)),
        Err(fault) => {
            drop(numbers);
            Err(fault)
        }
    }
}

/// `chart_holds ROWS | CHANNELS | COUNT COLUMN | BRIDLES`: whether a chart that others made holds.
pub fn put_judged(alloc: Global, out: &mut String, bridles: &[Bridle], argument: &str) -> Done {
    let (channels, rest) = two_parts(argument, " | ")?;
    let (counts, crossing) = two_parts(rest, " | ")?;
    let (count, column) = two_parts(counts, " ")?;
    let (count, column) = (number_of(count)?, number_of(column)?);
    let channels = numbers_of(alloc, channels)?;
    let made = Chart {
        channels,
        count,
        column,
        crossing: numbers_of(alloc, crossing)?,
    };
    let holds = chart_holds(bridles, &made);
    drop(made);
    put_whether(out, holds, "yes", "no")
}
