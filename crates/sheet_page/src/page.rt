//! The page of a journal's sheets.

ghost use Rattle.std.specs.Prelude.{◌≡◌, ◌++◌, ◌∷◌, ◌<◌, ◌^◌, [], ℕ, IfOk, OnOk, length, slice_index_or, string_bytes};
ghost use Rattle.mark_up.specs.Documents.{IsDocument};
ghost use Rattle.mark_up.specs.declared.tags.Tag.TheVariants.{Html};
ghost use Rattle.register_sheet.specs.Sheets.{no_sheet, sheet_of};
ghost use Rattle.sheet_page.specs.Pages.{charset_html, page_start, sheet_page, shown_html, styled_html, told_html};
ghost use Rattle.sheet_page.specs.Words.{page_name};

use crate::sheets::put_boxes;
use crate::words::page_name;
use line_law::Entry;
use line_plan::Plan;
use mark_up::{EmptyTag, Name, Page, Tag, Value};
use rail_text::NoMemory;
use register_sheet::{BoxSheet, sheets_of};
use std::alloc::{AllocError, Global};

// The style of a page: on a screen light, and dark where its reader asks for that; on paper of size A4, laid across,
// with the heads of the columns and whose sheet it is on each page.
const STYLE: &str = "\n\
:root{--paper:#ffffff;--ink:#1c1c1c;--rule:#8a929a;--heads:#e6e9ec}\n\
body{margin:24px;background:var(--paper);color:var(--ink);\
font:14px/1.4 'DejaVu Sans',Verdana,sans-serif;font-variant-numeric:tabular-nums}\n\
h1{margin:0 0 8px;font-size:22px}\n\
h2{margin:28px 0 8px;font-size:18px}\n\
section{overflow-x:auto}\n\
table{width:100%;margin:0 0 20px;border-collapse:collapse}\n\
caption{padding:4px 0;text-align:left;font-weight:bold}\n\
colgroup{border:2px solid var(--ink)}\n\
thead{display:table-header-group}\n\
thead,tbody{border:2px solid var(--ink)}\n\
tr{break-inside:avoid}\n\
tr:has(.remark){break-before:avoid}\n\
th,td{padding:3px 6px;border:1px solid var(--rule);text-align:center;white-space:nowrap}\n\
thead th{background:var(--heads);white-space:normal}\n\
th[rowspan]:first-child{width:4%}\n\
thead tr+tr+tr th{width:7.5%}\n\
tbody th{font-weight:normal;text-align:right}\n\
tbody th+td{text-align:left}\n\
.remark{padding-left:32px;text-align:left;font-style:italic;white-space:normal}\n\
.again{display:none}\n\
@media screen and (prefers-color-scheme:dark){\
:root{color-scheme:dark;--paper:#16191d;--ink:#e6e6e6;--rule:#5b636c;--heads:#2b3138}}\n\
@page{size:A4 landscape;margin:12mm}\n\
@media print{body{margin:0;font-size:9pt}h1{font-size:14pt}h2{margin-top:0;font-size:12pt}\
section{overflow:visible;break-before:page}h1+section{break-before:auto}caption{display:none}\
.again{display:table-cell;padding:3pt 6px;text-align:left;font-weight:bold}}\n";

// A page begins.
#[tactic(auto, unfolding(crate::specs::Pages::page_start))]
fn begun(alloc: Global) -> Result<Page, AllocError>
    ensures text { IfOk result (λ page. page.text ≡ page_start) }
    ensures tags { IfOk result (λ page. page.open_tags ≡ Html ∷ []) }
{
    Page::new(alloc, Tag::Html, &[(Name::Language, Value::Text("en"))])
}

// Puts how the text of the page is written.
#[tactic(auto, unfolding(crate::specs::Pages::charset_html))]
fn put_charset(page: &mut Page) -> Result<(), AllocError>
    ensures text { OnOk result (page.new.text ≡ page.old.text ++ charset_html) }
    ensures tags { OnOk result (page.new.open_tags ≡ page.old.open_tags) }
{
    page.put(EmptyTag::Meta, &[(Name::Charset, Value::Text("utf-8"))])
}

// Puts the title of the page, and its style.
#[tactic(auto, unfolding(crate::specs::Pages::styled_html))]
fn put_styled(page: &mut Page, name: &str) -> Result<(), AllocError>
    ensures text { OnOk result (page.new.text ≡ page.old.text ++ styled_html name.now) }
    ensures tags { OnOk result (page.new.open_tags ≡ page.old.open_tags) }
{
    page.put_text(Tag::Title, &[], name)?;
    page.put_text(Tag::Style, &[], STYLE)
}

// Puts what is told of the page: how its text is written, its title, and its style.
#[tactic(auto, unfolding(crate::specs::Pages::told_html))]
fn put_told(page: &mut Page, name: &str) -> Result<(), AllocError>
    requires { 0 < length page.old.open_tags }
    ensures text { OnOk result (page.new.text ≡ page.old.text ++ told_html name.now) }
    ensures tags { OnOk result (page.new.open_tags ≡ page.old.open_tags) }
{
    page.start(Tag::Head, &[])?;
    put_charset(page)?;
    put_styled(page, name)?;
    page.end()
}

// Puts what is shown: its heading, and the boxes.
#[tactic(auto, unfolding(crate::specs::Pages::shown_html))]
fn put_shown(
    page: &mut Page,
    alloc: Global,
    plan: &Plan,
    entries: &[Entry],
    only: Option<u32>,
    name: &str,
    sheets: &[BoxSheet],
) -> Result<(), NoMemory>
    requires root { 0 < length page.old.open_tags }
    requires name { name.now ≡ page_name plan.now }
    requires few { length plan.now.boxes < 2 ^ 32 }
    requires count { length sheets.now ≡ length plan.now.boxes }
    requires each { (b : ℕ) → b < length plan.now.boxes
        → slice_index_or sheets.now b no_sheet ≡ sheet_of plan.now b entries.now }
    ensures text { OnOk result (page.new.text ≡ page.old.text ++ shown_html plan.now entries.now only) }
    ensures tags { OnOk result (page.new.open_tags ≡ page.old.open_tags) }
{
    page.start(Tag::Body, &[])?;
    page.put_text(Tag::Heading, &[], name)?;
    put_boxes(page, alloc, plan, entries, only, sheets)?;
    page.end()?;
    Ok(())
}

// Puts all of a page behind its beginning.
fn put_page(
    page: &mut Page,
    alloc: Global,
    plan: &Plan,
    entries: &[Entry],
    only: Option<u32>,
    sheets: &[BoxSheet],
) -> Result<(), NoMemory>
    requires root { 0 < length page.old.open_tags }
    requires few { length plan.now.boxes < 2 ^ 32 }
    requires count { length sheets.now ≡ length plan.now.boxes }
    requires each { (b : ℕ) → b < length plan.now.boxes
        → slice_index_or sheets.now b no_sheet ≡ sheet_of plan.now b entries.now }
    ensures text { OnOk result (page.new.text
        ≡ page.old.text ++ told_html (page_name plan.now) ++ shown_html plan.now entries.now only) }
    ensures tags { OnOk result (page.new.open_tags ≡ page.old.open_tags) }
{
    let name = page_name(alloc, plan)?;
    put_told(page, name.as_str())?;
    put_shown(page, alloc, plan, entries, only, name.as_str(), sheets)
}

/// The sheets of a journal as a page of HTML, of one box or of all: a well-formed document with a section for each box,
/// in it the sheet of the down line and that of the up line, and how many entries stand beside them. A sheet is a table
/// with a row for each line, with the moments of the entries that stand in its columns, and for each remark, which is
/// what that entry tells.
#[tactic(auto, using(crate::proofs::Few::few_boxes))]
pub fn sheet_page(
    alloc: Global,
    plan: &Plan,
    entries: &[Entry],
    only: Option<u32>,
) -> Result<String, NoMemory>
    ensures document { IfOk result (λ text. IsDocument (string_bytes text)) }
    ensures page { IfOk result (λ text. string_bytes text ≡ sheet_page plan.now entries.now only) }
{
    plan.meets_conditions();
    let sheets = sheets_of(alloc, plan, entries)?;
    let mut page = begun(alloc)?;
    put_page(&mut page, alloc, plan, entries, only, &sheets)?;
    drop(sheets);
    Ok(page.finish()?)
}
