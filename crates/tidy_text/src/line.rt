//! A line whose form is mended.

ghost use Rattle.std.specs.Prelude.{◌≡◌, ◌++◌, OnOk};
ghost use Rattle.rail_text.specs.Lines.{printed_line};
ghost use Rattle.std.specs.List.{join_with_byte};
ghost use Rattle.tidy_text.specs.Tidy.{blank_words, is_blank, is_comment, spaced, spaced_byte, tidy_line};
ghost use Rattle.tidy_text.specs.Tidy.{without_return};

use std::alloc::AllocError;

// A tab, a carriage return or a space.
fn is_blank(byte: u8) -> bool
    ensures { result ≡ is_blank byte }
{
    matches!(byte, b'\t' | b'\r' | b' ')
}

// A blank as a space, another byte as it is.
fn spaced_byte(byte: u8) -> u8
    ensures { result ≡ spaced_byte byte }
{
    if is_blank(byte) { b' ' } else { byte }
}

// Without a carriage return at its end.
#[tactic(auto, using(crate::proofs::Returns::return_rules))]
fn without_return(text: &[u8]) -> &[u8]
    ensures { result.now ≡ without_return text.now }
{
    match text.split_last() {
        None => text,
        Some((last, front)) => { if *last == b'\r' { front } else { text } }
    }
}

// Puts a text with each blank as a space.
fn put_spaced(out: &mut Vec<u8>, text: &[u8]) -> Result<(), AllocError>
    ensures { OnOk result (out.new.items ≡ out.old.items ++ spaced text.now) }
{
    for byte in text {
        out.push(spaced_byte(*byte))?;
    }
    Ok(())
}

// Puts the words of a text with single spaces between them.
fn put_words(out: &mut Vec<u8>, text: &[u8]) -> Result<(), AllocError>
    ensures { OnOk result (out.new.items ≡ out.old.items ++ join_with_byte 32 (blank_words text.now)) }
{
    // Whether a word was put, and whether a blank has come since.
    let mut has_word = false;
    let mut has_blank = false;
    for byte in text {
        if is_blank(*byte) {
            has_blank = true;
        } else {
            if has_word && has_blank {
                out.push(b' ')?;
            }
            out.push(*byte)?;
            has_word = true;
            has_blank = false;
        }
    }
    Ok(())
}

fn is_comment(text: &[u8]) -> bool
    ensures { result ≡ is_comment text.now }
{
    matches!(text.first(), Some(b'#'))
}

/// Puts a line as it is mended, with its end.
pub(crate) fn put_tidy_line(out: &mut Vec<u8>, text: &[u8]) -> Result<(), AllocError>
    ensures { OnOk result (out.new.items ≡ out.old.items ++ printed_line (tidy_line text.now)) }
{
    if is_comment(text) {
        put_spaced(out, without_return(text))?;
    } else {
        put_words(out, text)?;
    }
    out.push(b'\n')?;
    Ok(())
}
