//! Bell codes.

use crate::putting::{Done, put_bytes};
use bell_codes::{BadCode, Code, CodeTable, print_code, read_code};
use std::alloc::Global;

// Puts a code as it is printed.
fn put_printed(alloc: Global, out: &mut String, code: Code) -> Done {
    let printed = print_code(alloc, code)?;
    let done = put_bytes(out, &printed);
    drop(printed);
    done
}

// Puts the groups of a code, and the word as which it is printed.
fn put_groups(alloc: Global, out: &mut String, code: Code) -> Done {
    for group in code.groups() {
        write!(out, "{group} ")?;
    }
    out.push_str("as ")?;
    put_printed(alloc, out, code)
}

/// `code WORD`: the groups of the code that the word spells, and the word as which it is printed.
pub fn put_code(alloc: Global, out: &mut String, word: &str) -> Done {
    match read_code(word.as_bytes()) {
        Ok(code) => put_groups(alloc, out, code),
        Err(BadCode) => Ok(out.push_str("bad code")?),
    }
}

// Puts the number of a code in a table, and the code that has this number there.
fn put_numbered(alloc: Global, out: &mut String, table: &CodeTable, code: Code) -> Done {
    match table.number_of(code) {
        Some(no) => {
            write!(out, "{no} ")?;
            put_printed(alloc, out, table.code(no))
        }
        None => Ok(out.push_str("none")?),
    }
}

/// `opening_code WORD`: the number of the code in the opening table, and the code that has this number there.
pub fn put_opening_code(alloc: Global, out: &mut String, word: &str) -> Done {
    let Ok(code) = read_code(word.as_bytes()) else {
        return Ok(out.push_str("bad code")?);
    };
    let table = CodeTable::opening(alloc)?;
    let done = put_numbered(alloc, out, &table, code);
    drop(table);
    done
}
