//! The page of a film.

ghost use Rattle.std.specs.Prelude.{◌≡◌, ◌++◌, ◌∷◌, ◌<◌, [], IfOk, OnOk, length};
ghost use Rattle.line_film.specs.Pages.{charset_html, head_html, inner_html, page_start, placed_html, script_html};
ghost use Rattle.line_film.specs.Pages.{shown_html, styled_html};
ghost use Rattle.mark_up.specs.declared.tags.Tag.TheVariants.{Html};

use crate::changes::Change;
use crate::desk::put_desk;
use crate::drawing::put_picture;
use crate::rows::put_journal;
use entry_records::EntryWords;
use line_picture::Layout;
use line_plan::{Items, Plan};
use mark_up::{EmptyTag, Name, Page, Tag, Value};
use std::alloc::{AllocError, Global};

// The style of the page, beside that of the picture: light, and dark where its reader asks for that.
const STYLE: &str = "\n\
:root{--paper:#ffffff;--ink:#1c1c1c;--soft:#4a525b;--rule:#b9bec4;--heads:#eef0f2;--now:#dbe7fb;\
--fresh:#1f5fc4;--bad:#c0122b}\n\
body{max-width:1100px;margin:0 auto;padding:0 16px 24px;background:var(--paper);color:var(--ink);\
font:14px/1.4 'DejaVu Sans',Verdana,sans-serif;font-variant-numeric:tabular-nums}\n\
h1{margin:16px 0 0;font-size:22px}\n\
#desk{position:sticky;top:0;padding:10px 0 8px;border-bottom:1px solid var(--rule);background:var(--paper)}\n\
#steps{display:flex;gap:8px;align-items:center}\n\
#steps button{min-width:72px;padding:6px 10px;border:1px solid var(--rule);border-radius:4px;\
background:var(--heads);color:var(--ink);font:inherit}\n\
#steps button:disabled{color:var(--rule)}\n\
#slider{flex:1;min-width:120px;margin:0 0 0 8px}\n\
#desk p{min-height:20px;margin:4px 0 0}\n\
#count{color:var(--soft)}\n\
#words{font-family:'DejaVu Sans Mono','Liberation Mono','Courier New',monospace;font-weight:bold}\n\
#says{color:var(--bad)}\n\
#desk #keys{color:var(--soft);font-size:12px}\n\
svg{display:block;max-width:100%;height:auto;margin:8px 0}\n\
.fresh{outline:2px solid var(--fresh);outline-offset:2px}\n\
#entries{position:relative;max-height:340px;overflow:auto;border:1px solid var(--rule)}\n\
table{width:100%;border-collapse:collapse}\n\
th,td{padding:3px 8px;border-bottom:1px solid var(--rule);text-align:left;vertical-align:top}\n\
thead th{position:sticky;top:0;background:var(--heads)}\n\
tbody th{text-align:right;font-weight:normal}\n\
tbody tr{cursor:pointer}\n\
.refused td{color:var(--bad)}\n\
.now th,.now td{background:var(--now)}\n\
@media screen and (prefers-color-scheme:dark){\
:root{color-scheme:dark;--paper:#16191d;--ink:#e6e6e6;--soft:#9aa2aa;--rule:#4a525b;--heads:#2b3138;\
--now:#233a5c;--fresh:#5b93ec;--bad:#ff8a9a}}\n\
@media print{#steps{display:none}#desk{position:static}#entries{max-height:none;overflow:visible}}\n";

// What steps through the entries, in JavaScript; it has no character that is escaped. A thing of the picture is known
// by its class, which is its number. A step is what one entry changes: each thing as it was, and as it is then.
const SCRIPT: &str = "\n\
(function () {\n\
'use strict';\n\
var by = function (id) { return document.getElementById(id); };\n\
var rows = by('journal').rows, last = rows.length, at = 0, timer = null;\n\
var slider = by('slider'), box = by('entries'), latest = {};\n\
Array.from(by('line').children).forEach(function (thing) { latest[thing.getAttribute('class')] = thing; });\n\
var steps = Array.from(by('changes').children).map(function (entry) {\n\
  return Array.from(entry.children).map(function (thing) {\n\
    var number = thing.getAttribute('class'), step = { before: latest[number], after: thing };\n\
    latest[number] = thing;\n\
    return step;\n\
  });\n\
});\n\
function put(old, thing) { old.parentNode.replaceChild(thing, old); }\n\
function mark(is_marked) {\n\
  if (at === 0) { return; }\n\
  rows[at - 1].classList.toggle('now', is_marked);\n\
  steps[at - 1].forEach(function (step) { step.after.classList.toggle('fresh', is_marked); });\n\
}\n\
function turn(number) {\n\
  while (at !== number) {\n\
    if (Math.sign(number - at) === 1) {\n\
      steps[at].forEach(function (step) { put(step.before, step.after); });\n\
      at += 1;\n\
    } else {\n\
      at -= 1;\n\
      steps[at].forEach(function (step) { put(step.after, step.before); });\n\
    }\n\
  }\n\
}\n\
function told(cell) { return at === 0 ? '' : rows[at - 1].cells[cell].textContent; }\n\
function tell() {\n\
  slider.value = at;\n\
  slider.setAttribute('aria-valuetext', 'Entry ' + at + ' of ' + last);\n\
  by('back').disabled = at === 0;\n\
  by('next').disabled = at === last;\n\
  by('count').textContent = at === 0 ? 'Before the first of ' + last + ' entries' : 'Entry ' + at + ' of ' + last;\n\
  by('words').textContent = at === 0 ? '' : told(2) + ' ' + told(1) + ': ' + told(3) + ' \\u2192 ' + told(4);\n\
  by('says').textContent = told(5);\n\
  box.scrollTop = at === 0 ? 0 : rows[at - 1].offsetTop - box.clientHeight / 2;\n\
  try { history.replaceState(null, '', '#' + at); } catch (refused) { return; }\n\
}\n\
function go(number) {\n\
  mark(false);\n\
  turn(Math.max(0, Math.min(last, Math.trunc(number) || 0)));\n\
  mark(true);\n\
  tell();\n\
}\n\
function pause() {\n\
  clearInterval(timer);\n\
  timer = null;\n\
  by('play').textContent = 'Play';\n\
}\n\
function step_on() {\n\
  go(at + 1);\n\
  if (at === last) { pause(); }\n\
}\n\
function play() {\n\
  if (timer !== null) { pause(); return; }\n\
  if (at === last) { go(0); }\n\
  by('play').textContent = 'Pause';\n\
  timer = setInterval(step_on, 900);\n\
}\n\
function move(number) { pause(); go(number); }\n\
slider.min = 0;\n\
slider.max = last;\n\
slider.step = 1;\n\
slider.addEventListener('input', function () { move(Number(slider.value)); });\n\
by('back').addEventListener('click', function () { move(at - 1); });\n\
by('next').addEventListener('click', function () { move(at + 1); });\n\
by('play').addEventListener('click', play);\n\
by('journal').addEventListener('click', function (event) { move(event.target.closest('tr').sectionRowIndex + 1); });\n\
document.addEventListener('keydown', function (event) {\n\
  var keys = {\n\
    ArrowLeft: function () { move(at - 1); },\n\
    ArrowRight: function () { move(at + 1); },\n\
    Home: function () { move(0); },\n\
    End: function () { move(last); },\n\
    ' ': play\n\
  };\n\
  var is_button = event.key === ' ' ? event.target.tagName === 'BUTTON' : false;\n\
  if (event.ctrlKey || event.altKey || event.metaKey || is_button || !keys[event.key]) { return; }\n\
  event.preventDefault();\n\
  keys[event.key]();\n\
});\n\
window.addEventListener('hashchange', function () { move(Number(location.hash.slice(1))); });\n\
go(Number(location.hash.slice(1)));\n\
}());\n";

// ---- the head

// A page begins.
#[tactic(auto, unfolding(crate::specs::Pages::page_start))]
pub fn begun(alloc: Global) -> Result<Page, AllocError>
    ensures text { IfOk result (λ page. page.text ≡ page_start) }
    ensures tags { IfOk result (λ page. page.open_tags ≡ Html ∷ []) }
{
    Page::new(alloc, Tag::Html, &[(Name::Language, Value::Text("en"))])
}

// Puts how the text of the page is written.
#[tactic(auto, unfolding(crate::specs::Pages::charset_html))]
fn put_charset(page: &mut Page) -> Result<(), AllocError>
    ensures text { OnOk result (page.new.text ≡ page.old.text ++ charset_html) }
    ensures tags { OnOk result (page.new.open_tags ≡ page.old.open_tags) }
{
    page.put(EmptyTag::Meta, &[(Name::Charset, Value::Text("utf-8"))])
}

// Puts the title of the page, and its style.
#[tactic(auto, unfolding(crate::specs::Pages::styled_html))]
fn put_styled(page: &mut Page, name: &str) -> Result<(), AllocError>
    ensures text { OnOk result (page.new.text ≡ page.old.text ++ styled_html name.now) }
    ensures tags { OnOk result (page.new.open_tags ≡ page.old.open_tags) }
{
    page.put_text(Tag::Title, &[], name)?;
    page.put_text(Tag::Style, &[], STYLE)
}

// Puts what is told of the page.
#[tactic(auto, unfolding(crate::specs::Pages::head_html))]
fn put_head(page: &mut Page, name: &str) -> Result<(), AllocError>
    requires { 0 < length page.old.open_tags }
    ensures text { OnOk result (page.new.text ≡ page.old.text ++ head_html name.now) }
    ensures tags { OnOk result (page.new.open_tags ≡ page.old.open_tags) }
{
    page.start(Tag::Head, &[])?;
    put_charset(page)?;
    put_styled(page, name)?;
    page.end()
}

// ---- the body

// Puts the script, which reads the page when all of it is there.
#[tactic(auto, unfolding(crate::specs::Pages::script_html))]
fn put_script(page: &mut Page) -> Result<(), AllocError>
    ensures text { OnOk result (page.new.text ≡ page.old.text ++ script_html) }
    ensures tags { OnOk result (page.new.open_tags ≡ page.old.open_tags) }
{
    page.put_text(Tag::Script, &[], SCRIPT)
}

// Puts the picture, below what it is stepped through by.
#[tactic(auto, unfolding(crate::specs::Pages::placed_html))]
fn put_placed(
    page: &mut Page,
    alloc: Global,
    plan: &Plan,
    layout: &Layout,
    name: &str,
    first: &[Change],
    frames: &[Items<Change>],
) -> Result<(), AllocError>
    requires { 0 < length page.old.open_tags }
    ensures text { OnOk result
        (page.new.text ≡ page.old.text ++ placed_html plan.now layout.now name.now first.now frames.now) }
    ensures tags { OnOk result (page.new.open_tags ≡ page.old.open_tags) }
{
    page.put_text(Tag::Heading, &[], name)?;
    put_desk(page)?;
    put_picture(page, alloc, plan, layout, name, first, frames)
}

// Puts what is shown.
#[tactic(auto, unfolding(crate::specs::Pages::shown_html))]
fn put_shown(
    page: &mut Page,
    alloc: Global,
    plan: &Plan,
    layout: &Layout,
    name: &str,
    first: &[Change],
    frames: &[Items<Change>],
    told: &[EntryWords<'_>],
) -> Result<(), AllocError>
    requires { 0 < length page.old.open_tags }
    ensures text { OnOk result
        (page.new.text ≡ page.old.text ++ shown_html plan.now layout.now name.now first.now frames.now told.now) }
    ensures tags { OnOk result (page.new.open_tags ≡ page.old.open_tags) }
{
    page.start(Tag::Body, &[])?;
    put_placed(page, alloc, plan, layout, name, first, frames)?;
    put_journal(page, told)?;
    put_script(page)?;
    page.end()
}

/// Puts all of a page behind its beginning.
#[tactic(auto, unfolding(crate::specs::Pages::inner_html))]
pub fn put_page(
    page: &mut Page,
    alloc: Global,
    plan: &Plan,
    layout: &Layout,
    name: &str,
    first: &[Change],
    frames: &[Items<Change>],
    told: &[EntryWords<'_>],
) -> Result<(), AllocError>
    requires { 0 < length page.old.open_tags }
    ensures text { OnOk result
        (page.new.text ≡ page.old.text ++ inner_html plan.now layout.now name.now first.now frames.now told.now) }
    ensures tags { OnOk result (page.new.open_tags ≡ page.old.open_tags) }
{
    put_head(page, name)?;
    put_shown(page, alloc, plan, layout, name, first, frames, told)
}
