//! The picture of a frame.

ghost use Rattle.std.specs.Prelude.{◌≡◌, ◌++◌, ◌∷◌, ◌<◌, [], IfOk, OnOk, length, string_bytes};
ghost use Rattle.frame_picture.specs.Levers.{longest_words};
ghost use Rattle.frame_picture.specs.Pictures.{IsPicture, begun_text, chart_text, counts_text, head_text, inner_text};
ghost use Rattle.frame_picture.specs.Pictures.{picture_name, title_text, view_text};
ghost use Rattle.frame_picture.specs.Places.{height, width};
ghost use Rattle.frame_picture.specs.Scenes.{scene_of};
ghost use Rattle.line_plan.specs.Frames.{frame_size};
ghost use Rattle.line_plan.specs.Plans.{box_at};
ghost use Rattle.mark_up.specs.Documents.{IsDocument, end_tag};
ghost use Rattle.mark_up.specs.declared.tags.Tag.TheVariants.{Svg};

use crate::chart_drawing::{put_bars, put_channels, put_dogs, put_rows, put_tappets};
use crate::frame_drawing::put_levers;
use crate::key_drawing::{BRIDLES, NOTCHES, put_key};
use crate::places::Layout;
use crate::scene::{Scene, scene_of};
use crate::works::longest_words;
use line_plan::{BoxPlan, Plan};
use mark_up::{Name, Page, Tag, Value};
use picture_shapes::{Point, put_rect, put_words};
use rail_text::NoMemory;
use std::alloc::{AllocError, Global};
use std::fmt::Write;

// The style of a picture: light, and dark where its reader asks for that.
const STYLE: &str = "text{font-family:'DejaVu Sans',Verdana,sans-serif;fill:#1c1c1c}\
.background{fill:#ffffff}.head{font-size:20px;font-weight:bold}.sub{font-size:13px}.small{font-size:10px}\
.mid{font-size:11px;font-weight:bold;text-anchor:middle}.row{font-size:11px}.tiny{font-size:6px}\
.end{text-anchor:end}.small,.row,.tiny{font-family:'DejaVu Sans Mono','Liberation Mono','Courier New',monospace}\
.letter{font-size:8px;font-weight:bold;text-anchor:middle;fill:#ffffff}\
.bright{fill:#ffffff}.dark{fill:#1c1c1c}.handle{fill:#b9bec4;stroke:#6b7178}\
.lever{stroke:#6b7178;stroke-width:1.5}.stop{fill:#c0122b}.distant{fill:#ffd21f}.points{fill:#1c1c1c}\
.lock{fill:#1f5fc4}.spare{fill:#ffffff}.plate{fill:#ffffff;stroke:#6b7178}.floor{fill:#6b7178}\
.channel{fill:#eef0f2}.tappet{fill:#cfd5db;stroke:#6b7178}.notch{fill:#ffffff;stroke:#6b7178}\
.bridle{stroke:#8a5a12;stroke-width:4}.dog{fill:#8a5a12;stroke:#5c3b0a}.tiny{font-weight:bold}\
@media (prefers-color-scheme:dark){text{fill:#e6e6e6}.background{fill:#16191d}.dark{fill:#1c1c1c}\
.bright,.letter{fill:#ffffff}.channel{fill:#22272d}.tappet{fill:#4a525b;stroke:#9aa2aa}\
.notch{fill:#16191d;stroke:#9aa2aa}.points{fill:#000000}.lever,.handle,.plate{stroke:#9aa2aa}\
.bridle{stroke:#c98d34}.dog{fill:#8a5a12;stroke:#c98d34}}";

// The layout of a picture.
fn layout_of(alloc: Global, plan: &BoxPlan, scene: &Scene) -> Result<Layout, AllocError>
    ensures levers { IfOk result (λ layout. layout.levers ≡ frame_size plan.now.levers) }
    ensures channels { IfOk result (λ layout. layout.channels ≡ scene.now.channels) }
    ensures rows { IfOk result (λ layout. layout.rows ≡ length plan.now.rows) }
    ensures longest { IfOk result (λ layout. layout.longest ≡ longest_words plan.now plan.now.levers) }
{
    Ok(Layout {
        levers: plan.frame_size(),
        channels: scene.channels,
        rows: plan.table.len() as u32,
        longest: longest_words(alloc, plan)?,
    })
}

// The name of a picture.
#[tactic(auto, unfolding(crate::specs::Pictures::picture_name))]
fn picture_name(alloc: Global, plan: &BoxPlan) -> Result<String, AllocError>
    ensures { IfOk result (λ text. string_bytes text ≡ picture_name plan.now) }
{
    let mut text = String::new(alloc);
    text.push_str("Lever frame of ")?;
    text.push_str(plan.name.as_str())?;
    Ok(text)
}

// The part of a picture that is seen: all of it.
#[tactic(auto, unfolding(crate::specs::Pictures::view_text))]
fn view_text(alloc: Global, layout: &Layout) -> Result<String, AllocError>
    ensures { IfOk result (λ text. string_bytes text ≡ view_text layout.now) }
{
    let (width, height) = (layout.width(), layout.height());
    let mut text = String::new(alloc);
    write!(text, "0 0 {width} {height}")?;
    Ok(text)
}

// A page in which a picture of this width and height has begun, under this name and with this view.
#[tactic(auto, unfolding(crate::specs::Pictures::begun_text))]
fn begun<'a>(
    alloc: Global,
    width: u64,
    height: u64,
    name: &'a str,
    view: &'a str,
) -> Result<Page, AllocError>
    ensures text { IfOk result (λ page. page.text ≡ begun_text width height name.now view.now) }
    ensures tags { IfOk result (λ page. page.open_tags ≡ Svg ∷ []) }
{
    Page::new(
        alloc,
        Tag::Svg,
        &[
            (Name::Namespace, Value::Text("http://www.w3.org/2000/svg")),
            (Name::Width, Value::Number(width)),
            (Name::Height, Value::Number(height)),
            (Name::ViewBox, Value::Text(view)),
            (Name::Role, Value::Text("group")),
            (Name::Label, Value::Text(name)),
        ],
    )
}

// The title of a picture, and its style.
#[tactic(auto, unfolding(crate::specs::Pictures::title_text))]
fn put_title(page: &mut Page, name: &str) -> Result<(), AllocError>
    ensures text { OnOk result (page.new.text ≡ page.old.text ++ title_text name.now) }
    ensures tags { OnOk result (page.new.open_tags ≡ page.old.open_tags) }
{
    page.put_text(Tag::Title, &[], name)?;
    page.put_text(Tag::Style, &[], STYLE)
}

// How many rows and channels there are.
fn counts_text(alloc: Global, layout: &Layout) -> Result<String, AllocError>
    ensures { IfOk result (λ text. string_bytes text ≡ counts_text layout.now) }
{
    let (rows, channels) = (layout.rows, layout.channels);
    let mut text = String::new(alloc);
    write!(text, "rows of the locking table: {rows}; ")?;
    write!(text, "channels: {channels}")?;
    Ok(text)
}

// The background of a picture, and its head.
#[tactic(auto, unfolding(crate::specs::Pictures::head_text))]
fn put_head(page: &mut Page, alloc: Global, layout: &Layout, name: &str) -> Result<(), AllocError>
    ensures text { OnOk result (page.new.text ≡ page.old.text ++ head_text layout.now name.now) }
    ensures tags { OnOk result (page.new.open_tags ≡ page.old.open_tags) }
{
    let counts = counts_text(alloc, layout)?;
    put_rect(
        page,
        "background",
        Point::new(0, 0),
        layout.width(),
        layout.height(),
    )?;
    put_words(page, "head", Point::new(48, 40), name)?;
    put_words(page, "sub", Point::new(48, 62), counts.as_str())
}

// Draws the chart of a scene.
#[tactic(auto, unfolding(crate::specs::Pictures::chart_text))]
fn put_chart(
    page: &mut Page,
    alloc: Global,
    plan: &BoxPlan,
    layout: &Layout,
    scene: &Scene,
) -> Result<(), AllocError>
    requires root { 0 < length page.old.open_tags }
    requires each { length scene.now.bars ≡ length plan.now.rows }
    ensures text { OnOk result (page.new.text ≡ page.old.text ++ chart_text plan.now layout.now scene.now) }
    ensures tags { OnOk result (page.new.open_tags ≡ page.old.open_tags) }
{
    put_channels(page, alloc, layout)?;
    put_tappets(page, alloc, layout, scene.levers.as_slice())?;
    put_bars(
        page,
        alloc,
        layout,
        scene.bars.as_slice(),
        plan.table.rows(),
    )?;
    put_dogs(page, alloc, layout, scene.dogs.as_slice())
}

// Draws all of a picture into a page.
#[tactic(auto, unfolding(crate::specs::Pictures::inner_text))]
fn put_picture(
    page: &mut Page,
    alloc: Global,
    plan: &BoxPlan,
    layout: &Layout,
    scene: &Scene,
    name: &str,
) -> Result<(), AllocError>
    requires name { name.now ≡ picture_name plan.now }
    requires root { 0 < length page.old.open_tags }
    requires each { length scene.now.bars ≡ length plan.now.rows }
    ensures text { OnOk result (page.new.text ≡ page.old.text ++ inner_text plan.now layout.now scene.now) }
    ensures tags { OnOk result (page.new.open_tags ≡ page.old.open_tags) }
{
    put_title(page, name)?;
    put_head(page, alloc, layout, name)?;
    put_levers(page, alloc, plan, layout, scene.levers.as_slice())?;
    put_rect(
        page,
        "floor",
        Point::new(56, layout.tappets_top()),
        layout.groove_length(),
        4,
    )?;
    put_chart(page, alloc, plan, layout, scene)?;
    put_rows(page, alloc, layout, plan.table.rows())?;
    put_key(page, layout.rows_end() + 20)
}

// Draws a scene in a layout.
fn draw(alloc: Global, plan: &BoxPlan, layout: &Layout, scene: &Scene) -> Result<String, AllocError>
    requires { length scene.now.bars ≡ length plan.now.rows }
    ensures document { IfOk result (λ text. IsDocument (string_bytes text)) }
    ensures text { IfOk result (λ text. string_bytes text ≡ begun_text (width layout.now) (height layout.now)
        (picture_name plan.now) (view_text layout.now) ++ inner_text plan.now layout.now scene.now ++ end_tag Svg) }
{
    let name = picture_name(alloc, plan)?;
    let view = view_text(alloc, layout)?;
    let (width, height) = (layout.width(), layout.height());
    let mut page = begun(alloc, width, height, name.as_str(), view.as_str())?;
    put_picture(&mut page, alloc, plan, layout, scene, name.as_str())?;
    page.finish()
}

/// The drawing of a box's scene, which has a bar for each row: an SVG document, in which each lever, bar and dog of the
/// scene is drawn once, in order.
pub fn draw_scene(alloc: Global, plan: &BoxPlan, scene: &Scene) -> Result<String, AllocError>
    requires { length scene.now.bars ≡ length plan.now.rows }
    ensures document { IfOk result (λ text. IsDocument (string_bytes text)) }
    ensures picture { IfOk result (λ text. IsPicture plan.now scene.now (string_bytes text)) }
{
    let layout = layout_of(alloc, plan, scene)?;
    draw(alloc, plan, &layout, scene)
}

/// The picture of the lever frame of a box, numbered from 0, with its locking chart: an SVG document that draws the
/// scene of the box.
pub fn frame_picture(alloc: Global, plan: &Plan, box_no: u32) -> Result<String, NoMemory>
    requires { box_no < length plan.now.boxes }
    ensures document { IfOk result (λ text. IsDocument (string_bytes text)) }
    ensures picture { IfOk result (λ text.
        IsPicture (box_at plan.now.boxes box_no) (scene_of (box_at plan.now.boxes box_no)) (string_bytes text)) }
{
    let box_plan = &plan.boxes.as_slice()[box_no as usize];
    let scene = scene_of(alloc, box_plan)?;
    Ok(draw_scene(alloc, box_plan, &scene)?)
}
