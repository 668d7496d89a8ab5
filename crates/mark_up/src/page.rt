//! A page while it is written.

ghost use Rattle.std.specs.Prelude.{◌≡◌, ◌++◌, ◌∷◌, ◌<◌, [], IsTrue, IfOk, OnErr, OnOk, length, string_bytes};
ghost use Rattle.mark_up.specs.Attributes.{names_differ, told};
ghost use Rattle.mark_up.specs.Documents.{IsDocument, empty_tag, end_tag, start_tag};
ghost use Rattle.mark_up.specs.Escapes.{escaped};
ghost use Rattle.mark_up.specs.Tags.{prolog};

use crate::attributes::{Attribute, put_attributes};
use crate::escapes::put_escaped;
use crate::tags::{EmptyTag, Tag, empty_name, prolog, tag_name};
use std::alloc::{AllocError, Global};
use std::marker::Model;

/// A document while it is written: its root has begun, and may be written on until `finish` ends it.
///
/// Where memory runs out the page stays as it was.
#[derive(Debug, Drop)]
pub struct Page {
    text: String,
    // The elements that have begun and not ended, the innermost last.
    open_tags: Vec<Tag>,
    // What is to be put next, in room that is used again.
    piece: String,
}

impl Model for Page {
    ghost use Rattle.std.specs.Prelude.{reverse, string_bytes};
    ghost use Rattle.mark_up.specs.Documents.{IsBegun, PageFields};

    ghost Value = { PageFields };

    ghost view = { λ page. record { text = string_bytes page.text; open_tags = reverse page.open_tags.items } };

    ghost invariant = { λ page. IsBegun (string_bytes page.text) (reverse page.open_tags.items) };
}

#[tactic(auto, unfolding(crate::specs::Documents::start_tag))]
fn put_start(out: &mut String, tag: Tag, attributes: &[Attribute<'_>]) -> Result<(), AllocError>
    ensures { OnOk result (string_bytes out.new ≡ string_bytes out.old ++ start_tag tag (told attributes.now)) }
{
    out.push_str("<")?;
    out.push_str(tag_name(tag))?;
    put_attributes(out, attributes)?;
    out.push_str(">")
}

#[tactic(auto, unfolding(crate::specs::Documents::end_tag))]
fn put_end(out: &mut String, tag: Tag) -> Result<(), AllocError>
    ensures { OnOk result (string_bytes out.new ≡ string_bytes out.old ++ end_tag tag) }
{
    out.push_str("</")?;
    out.push_str(tag_name(tag))?;
    out.push_str(">")
}

#[tactic(auto, unfolding(crate::specs::Documents::empty_tag))]
fn put_empty(
    out: &mut String,
    tag: EmptyTag,
    attributes: &[Attribute<'_>],
) -> Result<(), AllocError>
    ensures { OnOk result (string_bytes out.new ≡ string_bytes out.old ++ empty_tag tag (told attributes.now)) }
{
    out.push_str("<")?;
    out.push_str(empty_name(tag))?;
    put_attributes(out, attributes)?;
    out.push_str("/>")
}

// The beginning of a document: its root's start tag, behind what stands before that.
fn begun(alloc: Global, root: Tag, attributes: &[Attribute<'_>]) -> Result<String, AllocError>
    ensures { IfOk result (λ text. string_bytes text ≡ prolog root ++ start_tag root (told attributes.now)) }
{
    let mut text = String::new(alloc);
    text.push_str(prolog(root))?;
    put_start(&mut text, root, attributes)?;
    Ok(text)
}

// Adds a start tag to a text, or nothing where memory runs out. What is added is first put into `piece`.
fn add_start(
    text: &mut String,
    piece: &mut String,
    tag: Tag,
    attributes: &[Attribute<'_>],
) -> Result<(), AllocError>
    ensures ok { OnOk result (string_bytes text.new ≡ string_bytes text.old ++ start_tag tag (told attributes.now)) }
    ensures err { OnErr result (string_bytes text.new ≡ string_bytes text.old) }
{
    piece.clear();
    put_start(piece, tag, attributes)?;
    text.push_str(piece.as_str())
}

// The same for an end tag.
fn add_end(text: &mut String, piece: &mut String, tag: Tag) -> Result<(), AllocError>
    ensures ok { OnOk result (string_bytes text.new ≡ string_bytes text.old ++ end_tag tag) }
    ensures err { OnErr result (string_bytes text.new ≡ string_bytes text.old) }
{
    piece.clear();
    put_end(piece, tag)?;
    text.push_str(piece.as_str())
}

// The same for an empty-element tag.
fn add_empty(
    text: &mut String,
    piece: &mut String,
    tag: EmptyTag,
    attributes: &[Attribute<'_>],
) -> Result<(), AllocError>
    ensures ok { OnOk result (string_bytes text.new ≡ string_bytes text.old ++ empty_tag tag (told attributes.now)) }
    ensures err { OnErr result (string_bytes text.new ≡ string_bytes text.old) }
{
    piece.clear();
    put_empty(piece, tag, attributes)?;
    text.push_str(piece.as_str())
}

// The same for an element with a text.
fn add_element(
    text: &mut String,
    piece: &mut String,
    tag: Tag,
    attributes: &[Attribute<'_>],
    said: &str,
) -> Result<(), AllocError>
    ensures ok { OnOk result (string_bytes text.new
        ≡ string_bytes text.old ++ start_tag tag (told attributes.now) ++ escaped said.now ++ end_tag tag) }
    ensures err { OnErr result (string_bytes text.new ≡ string_bytes text.old) }
{
    piece.clear();
    put_start(piece, tag, attributes)?;
    put_escaped(piece, said)?;
    put_end(piece, tag)?;
    text.push_str(piece.as_str())
}

// The same for a text that is escaped.
fn add_escaped(text: &mut String, piece: &mut String, said: &str) -> Result<(), AllocError>
    ensures ok { OnOk result (string_bytes text.new ≡ string_bytes text.old ++ escaped said.now) }
    ensures err { OnErr result (string_bytes text.new ≡ string_bytes text.old) }
{
    piece.clear();
    put_escaped(piece, said)?;
    text.push_str(piece.as_str())
}

#[tactic(auto, using(crate::proofs::Growing::page_rules))]
impl Page {
    /// A page in which the root has begun.
    pub fn new(alloc: Global, root: Tag, attributes: &[Attribute<'_>]) -> Result<Page, AllocError>
        requires { IsTrue (names_differ (told attributes.now)) }
        ensures { IfOk result (λ page. page ≡ record {
          text = prolog root ++ start_tag root (told attributes.now);
          open_tags = root ∷ [];
        }) }
    {
        let text = begun(alloc, root, attributes)?;
        let mut open_tags = Vec::new(alloc);
        open_tags.push(root)?;
        Ok(Page {
            text,
            open_tags,
            piece: String::new(alloc),
        })
    }

    /// Begins an element in the innermost one.
    pub fn start(&mut self, tag: Tag, attributes: &[Attribute<'_>]) -> Result<(), AllocError>
        requires { IsTrue (names_differ (told attributes.now)) }
        ensures ok { OnOk result (self.new ≡ record {
          text = self.old.text ++ start_tag tag (told attributes.now);
          open_tags = tag ∷ self.old.open_tags;
        }) }
        ensures err { OnErr result (self.new ≡ self.old) }
    {
        let depth = self.open_tags.len();
        self.open_tags.push(tag)?;
        match add_start(&mut self.text, &mut self.piece, tag, attributes) {
            Ok(()) => Ok(()),
            Err(error) => {
                self.open_tags.truncate(depth);
                Err(error)
            }
        }
    }

    /// Ends the innermost element, which isn't the root.
    pub fn end(&mut self) -> Result<(), AllocError>
        requires { 1 < length self.old.open_tags }
        ensures ok { OnOk result ((tag : _) × (self.old.open_tags ≡ tag ∷ self.new.open_tags)
            × (self.new.text ≡ self.old.text ++ end_tag tag)) }
        ensures err { OnErr result (self.new ≡ self.old) }
    {
        let outer = self.open_tags.len() - 1;
        let tag = self.open_tags[outer];
        add_end(&mut self.text, &mut self.piece, tag)?;
        self.open_tags.truncate(outer);
        Ok(())
    }

    /// Puts an element without content into the innermost element.
    pub fn put(&mut self, tag: EmptyTag, attributes: &[Attribute<'_>]) -> Result<(), AllocError>
        requires { IsTrue (names_differ (told attributes.now)) }
        ensures ok { OnOk result
            (self.new ≡ record self.old { text = self.old.text ++ empty_tag tag (told attributes.now) }) }
        ensures err { OnErr result (self.new ≡ self.old) }
    {
        add_empty(&mut self.text, &mut self.piece, tag, attributes)?;
        Ok(())
    }

    /// Puts a text, escaped, into the innermost element.
    pub fn say(&mut self, text: &str) -> Result<(), AllocError>
        ensures ok { OnOk result
            (self.new ≡ record self.old { text = self.old.text ++ escaped text.now }) }
        ensures err { OnErr result (self.new ≡ self.old) }
    {
        add_escaped(&mut self.text, &mut self.piece, text)?;
        Ok(())
    }

    /// Puts an element with a text, escaped, into the innermost element.
    pub fn put_text(
        &mut self,
        tag: Tag,
        attributes: &[Attribute<'_>],
        text: &str,
    ) -> Result<(), AllocError>
        requires { IsTrue (names_differ (told attributes.now)) }
        ensures ok { OnOk result (self.new ≡ record self.old {
          text = self.old.text ++ start_tag tag (told attributes.now) ++ escaped text.now ++ end_tag tag;
        }) }
        ensures err { OnErr result (self.new ≡ self.old) }
    {
        add_element(&mut self.text, &mut self.piece, tag, attributes, text)?;
        Ok(())
    }

    /// Ends the root, the only element that hasn't ended, and gives the document.
    pub fn finish(self) -> Result<String, AllocError>
        requires { length self.open_tags ≡ 1 }
        ensures document { IfOk result (λ text. IsDocument (string_bytes text)) }
        ensures text { IfOk result (λ text. (root : _) × (self.open_tags ≡ root ∷ [])
            × (string_bytes text ≡ self.text ++ end_tag root)) }
    {
        let Page {
            text,
            open_tags,
            ..
        } = self;
        let mut text = text;
        put_end(&mut text, open_tags[0])?;
        Ok(text)
    }
}
