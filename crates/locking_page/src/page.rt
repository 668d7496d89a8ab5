//! The page of a locking table.

ghost use Rattle.std.specs.Prelude.{◌≡◌, ◌++◌, ◌∷◌, ◌<◌, [], IfOk, OnOk, length, string_bytes};
ghost use Rattle.line_plan.specs.Plans.{box_at};
ghost use Rattle.locking_page.specs.Pages.{IsLockingPage, begun_text, heading_text, page_body, page_head, page_name};
ghost use Rattle.locking_page.specs.Pages.{page_text, title_text};
ghost use Rattle.mark_up.specs.Documents.{IsDocument};
ghost use Rattle.mark_up.specs.declared.tags.Tag.TheVariants.{Html};

use crate::lines::put_table;
use line_plan::{Lever, Plan};
use locking_sheet::{LockingSheet, sheet_of};
use locking_table::{NoMemory, Row};
use mark_up::{EmptyTag, Name, Page, Tag, Value};
use std::alloc::{AllocError, Global};

// The style of a page: light, and dark where its reader asks for that; printed on A4, with the head of the table on
// each sheet of paper. What a lever works is told by its word, and by the edge of its line in the colour of the lever.
const STYLE: &str = ":root{color-scheme:light dark}\
body{font:14px/1.45 'DejaVu Sans',Verdana,sans-serif;color:#1c1c1c;background:#ffffff;\
max-width:1080px;margin:24px auto;padding:0 16px}\
h1{font-size:22px;margin:0 0 6px}p{margin:0 0 14px;color:#4a525b;font-size:13px}\
table{border-collapse:collapse;width:100%}\
th,td{border:1px solid #9aa2aa;padding:4px 8px;text-align:left;vertical-align:top}\
thead th{background:#eef0f2;position:sticky;top:0;white-space:nowrap}tbody th{text-align:right}\
th:first-child{border-left:7px solid #9aa2aa}\
th:nth-child(3){width:17%}th:nth-child(4){width:20%}th:nth-child(5){width:14%}th:nth-child(6){width:38%}\
.own,.other{display:inline-block;margin-right:10px;white-space:nowrap}.other{font-style:italic}\
.number{display:inline;font-size:11px;color:#5b636b}.spare th,.spare td{color:#6b7178}\
.signal th{border-left-color:#c0122b}.distant th{border-left-color:#ffd21f}.points th{border-left-color:#1c1c1c}\
.lock th{border-left-color:#1f5fc4}.spare th{border-left-style:double}\
@media screen and (prefers-color-scheme:dark){body{color:#e6e6e6;background:#16191d}\
p,.number,.spare th,.spare td{color:#9aa2aa}th,td{border-color:#4a525b}thead th{background:#22272d}\
th:first-child{border-left-color:#4a525b}.signal th{border-left-color:#ff5c73}.distant th{border-left-color:#ffd21f}\
.points th{border-left-color:#e6e6e6}.lock th{border-left-color:#5b93ec}}\
@page{size:A4;margin:14mm 12mm;@bottom-right{content:counter(page) ' / ' counter(pages);font:9pt sans-serif}}\
@media print{body{font-size:9.5pt;max-width:none;margin:0;padding:0}p{font-size:9pt}.number{font-size:7.5pt}\
thead{display:table-header-group}thead th{position:static}tr{break-inside:avoid}h1,p{break-after:avoid}}";

// What is told of the lines of a page.
const LEGEND: &str =
    "Each lever's own rows stand under what they ask of the lever whose number is given; behind it \
stands the number of the row (#). when 7 n: only while lever 7 is not reversed; when 7 r: only while it is not normal. \
Converse: what the rows of other levers say of this one.";

// The name of a page.
#[tactic(auto, unfolding(crate::specs::Pages::page_name))]
fn page_name(alloc: Global, name: &str) -> Result<String, AllocError>
    ensures { IfOk result (λ text. string_bytes text ≡ page_name name.now) }
{
    let mut text = String::new(alloc);
    text.push_str("Locking table of ")?;
    text.push_str(name)?;
    Ok(text)
}

// A page that has begun.
#[tactic(auto, unfolding(crate::specs::Pages::begun_text))]
fn begun(alloc: Global) -> Result<Page, AllocError>
    ensures text { IfOk result (λ page. page.text ≡ begun_text) }
    ensures tags { IfOk result (λ page. page.open_tags ≡ Html ∷ []) }
{
    Page::new(alloc, Tag::Html, &[(Name::Language, Value::Text("en"))])
}

// Puts the title of a page, and its style.
#[tactic(auto, unfolding(crate::specs::Pages::title_text))]
fn put_title(page: &mut Page, title: &str) -> Result<(), AllocError>
    ensures text { OnOk result (page.new.text ≡ page.old.text ++ title_text title.now) }
    ensures tags { OnOk result (page.new.open_tags ≡ page.old.open_tags) }
{
    page.put_text(Tag::Title, &[], title)?;
    page.put_text(Tag::Style, &[], STYLE)
}

// Puts the head of a page.
#[tactic(auto, unfolding(crate::specs::Pages::page_head))]
fn put_head(page: &mut Page, title: &str) -> Result<(), AllocError>
    requires { 0 < length page.old.open_tags }
    ensures text { OnOk result (page.new.text ≡ page.old.text ++ page_head title.now) }
    ensures tags { OnOk result (page.new.open_tags ≡ page.old.open_tags) }
{
    page.start(Tag::Head, &[])?;
    page.put(EmptyTag::Meta, &[(Name::Charset, Value::Text("utf-8"))])?;
    put_title(page, title)?;
    page.end()
}

// Puts what stands above the table.
#[tactic(auto, unfolding(crate::specs::Pages::heading_text))]
fn put_heading(page: &mut Page, title: &str) -> Result<(), AllocError>
    ensures text { OnOk result (page.new.text ≡ page.old.text ++ heading_text title.now) }
    ensures tags { OnOk result (page.new.open_tags ≡ page.old.open_tags) }
{
    page.put_text(Tag::Heading, &[], title)?;
    page.put_text(Tag::Paragraph, &[], LEGEND)
}

// Puts the body of a page.
#[tactic(auto, unfolding(crate::specs::Pages::page_body))]
fn put_body(
    page: &mut Page,
    alloc: Global,
    title: &str,
    rows: &[Row],
    sheet: &LockingSheet,
    levers: &[Lever],
) -> Result<(), AllocError>
    requires { 0 < length page.old.open_tags }
    ensures text { OnOk result
        (page.new.text ≡ page.old.text ++ page_body title.now rows.now sheet.now levers.now) }
    ensures tags { OnOk result (page.new.open_tags ≡ page.old.open_tags) }
{
    page.start(Tag::Body, &[])?;
    put_heading(page, title)?;
    put_table(page, alloc, rows, sheet, levers)?;
    page.end()
}

// The page of a sheet.
fn page_of(
    alloc: Global,
    name: &str,
    levers: &[Lever],
    rows: &[Row],
    sheet: &LockingSheet,
) -> Result<String, AllocError>
    ensures document { IfOk result (λ text. IsDocument (string_bytes text)) }
    ensures page { IfOk result (λ text. string_bytes text ≡ page_text name.now levers.now rows.now sheet.now) }
{
    let title = page_name(alloc, name)?;
    let mut page = begun(alloc)?;
    put_head(&mut page, title.as_str())?;
    put_body(&mut page, alloc, title.as_str(), rows, sheet, levers)?;
    page.finish()
}

/// The page of the locking table with these rows, of a frame that has these levers: an HTML document with each lever's
/// line once, in order.
pub fn locking_page(
    alloc: Global,
    name: &str,
    levers: &[Lever],
    rows: &[Row],
) -> Result<String, NoMemory>
    ensures document { IfOk result (λ text. IsDocument (string_bytes text)) }
    ensures page { IfOk result (λ text. IsLockingPage name.now levers.now rows.now (string_bytes text)) }
{
    let sheet = sheet_of(alloc, rows)?;
    Ok(page_of(alloc, name, levers, rows, &sheet)?)
}

/// The page of the locking table of a box, numbered from 0: an HTML document.
pub fn box_page(alloc: Global, plan: &Plan, box_no: u32) -> Result<String, NoMemory>
    requires { box_no < length plan.now.boxes }
    ensures document { IfOk result (λ text. IsDocument (string_bytes text)) }
    ensures page { IfOk result (λ text. IsLockingPage (box_at plan.now.boxes box_no).name
        (box_at plan.now.boxes box_no).levers (box_at plan.now.boxes box_no).rows (string_bytes text)) }
{
    let here = &plan.boxes.as_slice()[box_no as usize];
    locking_page(
        alloc,
        here.name.as_str(),
        here.levers.as_slice(),
        here.table.rows(),
    )
}
