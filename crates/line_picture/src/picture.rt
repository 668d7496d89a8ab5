//! The picture of a line.

ghost use Rattle.std.specs.Prelude.{◌≡◌, ◌++◌, ◌∷◌, ◌<◌, ◌≤◌, ◌-◌, ◌^◌, [], IfOk, OnOk, length, string_bytes, take};
ghost use Rattle.line_law.specs.History.{IsLegal};
ghost use Rattle.line_picture.specs.Pictures.{begun_text, frame_text, ground_text, inner_text, key_text, laid_text};
ghost use Rattle.line_picture.specs.Pictures.{line_text, picture_text, style_text, thing_text, things_text, title_text};
ghost use Rattle.line_picture.specs.Pictures.{view_text};
ghost use Rattle.line_picture.specs.Words.{picture_name};
ghost use Rattle.line_scene.specs.Scenes.{scene_after};
ghost use Rattle.mark_up.specs.Documents.{IsDocument};
ghost use Rattle.mark_up.specs.declared.tags.Tag.TheVariants.{Svg};

use crate::box_drawing::{put_arm, put_boxes, put_lever, put_place};
use crate::layout::Layout;
use crate::section_drawing::{put_bell, put_instrument, put_on_line, put_sections};
use crate::words::{after_words, picture_name};
use line_law::Entry;
use line_plan::Plan;
use line_scene::{Scene, Shown, scene_after};
use mark_up::{Name, Page, Tag, Value};
use picture_shapes::{Point, put_rect, put_words};
use rail_text::NoMemory;
use std::alloc::{AllocError, Global};
use std::fmt::Write;

// The width of a picture.
const WIDE: u64 = 1100;

// The style of a picture: light, and dark where its reader asks for that.
const STYLE: &str = "text{font-family:'DejaVu Sans',Verdana,sans-serif;fill:#1c1c1c;font-size:11px}\
.background{fill:#ffffff}.head{font-size:18px;font-weight:bold}.sub{font-size:12px}\
.tip{stroke:#4a525b;stroke-width:1.5}\
.name{font-size:14px;font-weight:bold}.section{font-size:11px;font-weight:bold}.key{font-size:11px}\
.place,.arm,.train,.bell,.number{font-family:'DejaVu Sans Mono','Liberation Mono','Courier New',monospace}\
.place{font-size:11px;fill:#4a525b}.arm{font-size:10px}.train{font-size:9.5px;font-weight:bold;text-anchor:middle}\
.bell{font-size:10px;font-weight:bold}.number{font-size:9px;text-anchor:middle}\
.box{fill:#eef0f2;stroke:#b9bec4}.road{fill:#7b848d}.block{fill:#ffd21f;stroke:#1c1c1c}text.train{fill:#1c1c1c}\
.post{stroke:#1c1c1c;stroke-width:2}.on{stroke:#c0122b;stroke-width:5}.off{stroke:#1b7a3d;stroke-width:5}\
.slot{fill:#ffffff;stroke:#7b848d}.lever{stroke:#1c1c1c}.stop{fill:#c0122b}.points{fill:#1c1c1c}.lock{fill:#0b4f9e}\
.distant{fill:#ffd21f}.spare{fill:#ffffff}.letter{font-size:10px;font-weight:bold;text-anchor:middle}\
.bright{fill:#ffffff}.dark{fill:#1c1c1c}\
.dial{fill:#ffffff;stroke:#1c1c1c;stroke-width:1.5}.clear{fill:#bfe3cb}.occupied{fill:#f3b6bf}\
.needle{stroke:#1c1c1c;stroke-width:2.5}.shown{font-size:11px}\
@media (prefers-color-scheme:dark){text{fill:#e6e6e6}.background{fill:#16191d}.tip{stroke:#9aa2aa}\
.place{fill:#9aa2aa}.box{fill:#22272d;stroke:#4a525b}.post{stroke:#e6e6e6}.on{stroke:#ff5c73}.off{stroke:#3fd07a}\
.slot{fill:#16191d}.dial{fill:#16191d;stroke:#e6e6e6}.clear{fill:#1b5a33}.occupied{fill:#7a1526}\
.needle{stroke:#e6e6e6}.points{stroke:#9aa2aa}.bright{fill:#ffffff}.dark,text.train{fill:#1c1c1c}}";

// How trains and instruments are drawn.
const TRAINS: &str =
    "Trains run along each road from left to right. A needle is upright at Normal, to the left at \
Line Clear, to the right at Train on Line.";

// How arms and levers are drawn.
const ARMS: &str =
    "An arm is level when it is on and inclined when it is off. A lever stands high when it is normal \
and low when it is reversed. S: signal, P: points, L: lock, D: distant.";

// ---- things

/// Draws a thing of a line.
pub fn put_thing(
    page: &mut Page,
    alloc: Global,
    plan: &Plan,
    layout: &Layout,
    thing: Shown,
) -> Result<(), AllocError>
    requires { 0 < length page.old.open_tags }
    ensures text { OnOk result (page.new.text ≡ page.old.text ++ thing_text plan.now layout.now thing) }
    ensures tags { OnOk result (page.new.open_tags ≡ page.old.open_tags) }
{
    match thing {
        Shown::Place {
            box_no,
            place,
            spot,
            train,
        } => put_place(page, alloc, plan, layout, box_no, place, spot, train),
        Shown::Arm {
            box_no,
            lever,
            spot,
            rank,
            to,
            is_off,
        } => put_arm(
            page, alloc, plan, layout, box_no, lever, spot, rank, to, is_off,
        ),
        Shown::Lever {
            box_no,
            number,
            kind,
            is_reversed,
        } => put_lever(page, alloc, plan, layout, box_no, number, kind, is_reversed),
        Shown::Instrument {
            rear,
            way,
            position,
        } => put_instrument(page, alloc, plan, layout, rear, way, position),
        Shown::Bell { rear, way, unheard } => {
            put_bell(page, alloc, plan, layout, rear, way, unheard)
        }
        Shown::OnLine {
            rear,
            way,
            behind,
            train,
            is_portion,
        } => put_on_line(
            page, alloc, plan, layout, rear, way, behind, train, is_portion,
        ),
    }
}

// Draws things, in order.
fn put_things(
    page: &mut Page,
    alloc: Global,
    plan: &Plan,
    layout: &Layout,
    things: &[Shown],
) -> Result<(), AllocError>
    requires { 0 < length page.old.open_tags }
    ensures text { OnOk result (page.new.text ≡ page.old.text ++ things_text plan.now layout.now things.now) }
    ensures tags { OnOk result (page.new.open_tags ≡ page.old.open_tags) }
{
    for thing in things {
        put_thing(page, alloc, plan, layout, *thing)?;
    }
    Ok(())
}

/// Draws the boxes and the roads between them, without their things.
#[tactic(auto, using(line_scene::proofs::Few::few_boxes), unfolding(crate::specs::Pictures::ground_text))]
pub fn put_ground(
    page: &mut Page,
    alloc: Global,
    plan: &Plan,
    layout: &Layout,
) -> Result<(), AllocError>
    ensures text { OnOk result (page.new.text ≡ page.old.text ++ ground_text plan.now layout.now) }
    ensures tags { OnOk result (page.new.open_tags ≡ page.old.open_tags) }
{
    plan.meets_conditions();
    put_boxes(page, layout, plan.boxes.as_slice())?;
    put_sections(page, alloc, plan, layout)
}

// Draws the boxes and the roads between them, and over them their things.
#[tactic(auto, unfolding(crate::specs::Pictures::line_text))]
fn put_line(
    page: &mut Page,
    alloc: Global,
    plan: &Plan,
    layout: &Layout,
    things: &[Shown],
) -> Result<(), AllocError>
    requires { 0 < length page.old.open_tags }
    ensures text { OnOk result (page.new.text ≡ page.old.text ++ line_text plan.now layout.now things.now) }
    ensures tags { OnOk result (page.new.open_tags ≡ page.old.open_tags) }
{
    put_ground(page, alloc, plan, layout)?;
    put_things(page, alloc, plan, layout, things)
}

// ---- the picture

// The part of a picture that is seen: all of it.
#[tactic(auto, unfolding(crate::specs::Pictures::view_text))]
fn view_text(alloc: Global, high: u64) -> Result<String, AllocError>
    ensures { IfOk result (λ text. string_bytes text ≡ view_text high) }
{
    let mut text = String::new(alloc);
    write!(text, "0 0 1100 {high}")?;
    Ok(text)
}

// A page in which a picture of this height has begun, under this name and with this view.
#[tactic(auto, unfolding(crate::specs::Pictures::begun_text))]
fn begun<'a>(alloc: Global, high: u64, name: &'a str, view: &'a str) -> Result<Page, AllocError>
    ensures text { IfOk result (λ page. page.text ≡ begun_text high name.now view.now) }
    ensures tags { IfOk result (λ page. page.open_tags ≡ Svg ∷ []) }
{
    Page::new(
        alloc,
        Tag::Svg,
        &[
            (Name::Namespace, Value::Text("http://www.w3.org/2000/svg")),
            (Name::Width, Value::Number(WIDE)),
            (Name::Height, Value::Number(high)),
            (Name::ViewBox, Value::Text(view)),
            (Name::Role, Value::Text("group")),
            (Name::Label, Value::Text(name)),
        ],
    )
}

/// Puts the style of a picture.
#[tactic(auto, unfolding(crate::specs::Pictures::style_text))]
pub fn put_style(page: &mut Page) -> Result<(), AllocError>
    ensures text { OnOk result (page.new.text ≡ page.old.text ++ style_text) }
    ensures tags { OnOk result (page.new.open_tags ≡ page.old.open_tags) }
{
    page.put_text(Tag::Style, &[], STYLE)
}

// The title of a picture, and its style.
#[tactic(auto, unfolding(crate::specs::Pictures::title_text))]
fn put_title(page: &mut Page, name: &str) -> Result<(), AllocError>
    ensures text { OnOk result (page.new.text ≡ page.old.text ++ title_text name.now) }
    ensures tags { OnOk result (page.new.open_tags ≡ page.old.open_tags) }
{
    page.put_text(Tag::Title, &[], name)?;
    put_style(page)
}

/// Puts the key of a picture of this height, at its foot.
#[tactic(auto, unfolding(crate::specs::Pictures::key_text))]
pub fn put_key(page: &mut Page, high: u64) -> Result<(), AllocError>
    ensures text { OnOk result (page.new.text ≡ page.old.text ++ key_text high) }
    ensures tags { OnOk result (page.new.open_tags ≡ page.old.open_tags) }
{
    put_words(page, "key", Point::new(16, high.saturating_sub(48)), TRAINS)?;
    put_words(page, "key", Point::new(16, high.saturating_sub(28)), ARMS)
}

// The background of a picture, its head, and its key.
#[tactic(auto, unfolding(crate::specs::Pictures::frame_text))]
fn put_frame(page: &mut Page, high: u64, name: &str, when: &str) -> Result<(), AllocError>
    ensures text { OnOk result (page.new.text ≡ page.old.text ++ frame_text high name.now when.now) }
    ensures tags { OnOk result (page.new.open_tags ≡ page.old.open_tags) }
{
    put_rect(page, "background", Point::new(0, 0), WIDE, high)?;
    put_words(page, "head", Point::new(16, 34), name)?;
    put_words(page, "sub", Point::new(16, 58), when)?;
    put_key(page, high)
}

// Draws all of a picture into a page.
#[tactic(auto, unfolding(crate::specs::Pictures::inner_text))]
fn put_picture(
    page: &mut Page,
    alloc: Global,
    plan: &Plan,
    layout: &Layout,
    things: &[Shown],
    name: &str,
    entries: u32,
) -> Result<(), AllocError>
    requires name { name.now ≡ picture_name plan.now (length plan.now.boxes - 1) }
    requires root { 0 < length page.old.open_tags }
    ensures text { OnOk result
        (page.new.text ≡ page.old.text ++ inner_text plan.now layout.now things.now entries) }
    ensures tags { OnOk result (page.new.open_tags ≡ page.old.open_tags) }
{
    plan.meets_conditions();
    let when = after_words(alloc, entries)?;
    put_title(page, name)?;
    let high = layout.height(plan.boxes.len() as u32);
    put_frame(page, high, name, when.as_str())?;
    put_line(page, alloc, plan, layout, things)
}

// The picture of what is seen of a line, in this layout.
fn draw_laid(
    alloc: Global,
    plan: &Plan,
    layout: &Layout,
    things: &[Shown],
    entries: u32,
) -> Result<String, NoMemory>
    ensures document { IfOk result (λ text. IsDocument (string_bytes text)) }
    ensures picture { IfOk result
        (λ text. string_bytes text ≡ laid_text plan.now layout.now things.now entries) }
{
    plan.meets_conditions();
    let boxes = plan.boxes.len() as u32;
    let high = layout.height(boxes);
    let name = picture_name(alloc, plan, boxes - 1)?;
    let view = view_text(alloc, high)?;
    let mut page = begun(alloc, high, name.as_str(), view.as_str())?;
    put_picture(
        &mut page,
        alloc,
        plan,
        layout,
        things,
        name.as_str(),
        entries,
    )?;
    Ok(page.finish()?)
}

/// The drawing of what is seen of a line after so many entries: an SVG document, in which each thing of the scene is
/// drawn once, in order.
pub fn draw_scene(
    alloc: Global,
    plan: &Plan,
    scene: &Scene,
    entries: u32,
) -> Result<String, NoMemory>
    requires { length scene.now.diagrams ≡ length plan.now.boxes }
    ensures document { IfOk result (λ text. IsDocument (string_bytes text)) }
    ensures picture { IfOk result (λ text. string_bytes text ≡ picture_text plan.now scene.now entries) }
{
    let layout = Layout::new(alloc, plan, scene.diagrams.as_slice())?;
    draw_laid(alloc, plan, &layout, scene.shown.as_slice(), entries)
}

/// The picture of the line of a plan after so many of the entries of a legal journal.
#[tactic(auto, using(line_law::proofs::Histories::legal_front))]
pub fn line_picture(
    alloc: Global,
    plan: &Plan,
    entries: &[Entry],
    count: usize,
) -> Result<String, NoMemory>
    requires legal { IsLegal plan.now entries.now }
    requires few { length entries.now < 2 ^ 32 }
    requires count { count ≤ length entries.now }
    ensures document { IfOk result (λ text. IsDocument (string_bytes text)) }
    ensures picture { IfOk result (λ text. string_bytes text
        ≡ picture_text plan.now (scene_after plan.now (take count entries.now)) count) }
{
    let scene = scene_after(alloc, plan, &entries[..count])?;
    draw_scene(alloc, plan, &scene, count as u32)
}
