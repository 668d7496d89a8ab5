//! The picture of a train graph.

ghost use Rattle.std.specs.Prelude.{◌≡◌, ◌++◌, ◌∷◌, ◌<◌, ◌^◌, [], IfOk, OnOk, length, string_bytes};
ghost use Rattle.graph_picture.specs.Pictures.{begun_text, counts_text, graph_text, head_text, inner_text};
ghost use Rattle.graph_picture.specs.Pictures.{picture_name, picture_text, title_text, view_text};
ghost use Rattle.graph_scene.specs.Scenes.{scene_of};
ghost use Rattle.line_law.specs.History.{IsLegal};
ghost use Rattle.mark_up.specs.Documents.{IsDocument};
ghost use Rattle.mark_up.specs.declared.tags.Tag.TheVariants.{Svg};

use crate::box_drawing::{name_of_box, put_bars, put_boxes};
use crate::key_drawing::put_key;
use crate::layout::{Layout, right_end, width};
use crate::ruling::put_rulings;
use crate::train_drawing::put_lines;
use graph_scene::{Scene, scene_of};
use line_law::Entry;
use line_plan::Plan;
use mark_up::{Name, Page, Tag, Value};
use picture_shapes::{Point, put_rect, put_words};
use rail_text::NoMemory;
use std::alloc::{AllocError, Global};
use std::fmt::Write;

// The style of a picture: light, and dark where its reader asks for that.
const STYLE: &str = "text{font-family:'DejaVu Sans',Verdana,sans-serif;fill:#1c1c1c;font-size:11px}\
.background{fill:#ffffff}.head{font-size:18px;font-weight:bold}.sub{font-size:12px}\
.name{font-size:13px;font-weight:bold;text-anchor:end}.place{font-size:9px;text-anchor:end;fill:#4a525b}\
.again{font-size:8px;fill:#4a525b}.time{font-size:11px;text-anchor:middle}\
.head,.name,.place,.again,.label,.warning,.left\
{font-family:'DejaVu Sans Mono','Liberation Mono','Courier New',monospace}\
.label,.warning,.left{font-size:10px;font-weight:bold;paint-order:stroke;stroke:#ffffff;stroke-width:2px;\
stroke-linejoin:round}\
.warning,.left{fill:#9c0f2b}.left{font-size:9px}\
.box{fill:#eef0f2}.level{stroke:#b9bec4;stroke-width:0.75}\
.minute{stroke:#d3d8dd;stroke-width:0.5}.tens{stroke:#a8aeb5;stroke-width:0.75}.hour{stroke:#4a525b;stroke-width:1.5}\
.clear{fill:#8fc9a3;stroke:#2f7d4a;stroke-width:0.75}.occupied{fill:#c0122b}\
.train{fill:none;stroke-width:2;stroke-linejoin:round}.stop{fill:#1c1c1c}\
.danger{fill:#ffd21f;stroke:#9c0f2b;stroke-width:1.5}\
.portion{stroke:#9c0f2b;stroke-width:2;stroke-dasharray:5 3}\
.t1{stroke:#0b4f9e}.t2{stroke:#b34700}.t3{stroke:#00785a}.t4{stroke:#7a2d8c}.t5{stroke:#7a5c00}.t0{stroke:#1c1c1c}\
@media (prefers-color-scheme:dark){text{fill:#e6e6e6}.background{fill:#16191d}.place,.again{fill:#9aa2aa}\
.box{fill:#22272d}.level{stroke:#4a525b}.minute{stroke:#2b3138}.tens{stroke:#5b636c}\
.hour{stroke:#b9bec4}.stop{fill:#e6e6e6}\
.label,.warning,.left{stroke:#16191d}.warning,.left{fill:#ff8a9b}.clear{fill:#2f7d4a;stroke:#8fc9a3}\
.occupied{fill:#ff5c73}.portion{stroke:#ff8a9b}\
.t1{stroke:#6cb2ff}.t2{stroke:#ff9c57}.t3{stroke:#3fd0a5}.t4{stroke:#d69ae6}\
.t5{stroke:#e0c04a}.t0{stroke:#e6e6e6}}";

// The name of a picture.
#[tactic(auto, unfolding(crate::specs::Pictures::picture_name))]
fn picture_name(alloc: Global, plan: &Plan) -> Result<String, AllocError>
    ensures { IfOk result (λ text. string_bytes text ≡ picture_name plan.now) }
{
    plan.meets_conditions();
    let last = plan.boxes.len() as u32 - 1;
    let mut text = String::new(alloc);
    text.push_str("Train graph of the line from ")?;
    text.push_str(name_of_box(plan, 0))?;
    text.push_str(" to ")?;
    text.push_str(name_of_box(plan, last))?;
    Ok(text)
}

// How many trains there are.
fn counts_text(alloc: Global, scene: &Scene) -> Result<String, AllocError>
    ensures { IfOk result (λ text. string_bytes text ≡ counts_text scene.now) }
{
    let trains = scene.lines.len();
    format!(in alloc; "trains: {trains}")
}

// The part of a picture that is seen: all of it.
#[tactic(auto, unfolding(crate::specs::Pictures::view_text))]
fn view_text(alloc: Global, wide: u64, high: u64) -> Result<String, AllocError>
    ensures { IfOk result (λ text. string_bytes text ≡ view_text wide high) }
{
    let mut text = String::new(alloc);
    write!(text, "0 0 {wide} {high}")?;
    Ok(text)
}

// A page in which a picture of this width and height has begun, under this name and with this view.
#[tactic(auto, unfolding(crate::specs::Pictures::begun_text))]
fn begun<'a>(
    alloc: Global,
    wide: u64,
    high: u64,
    name: &'a str,
    view: &'a str,
) -> Result<Page, AllocError>
    ensures text { IfOk result (λ page. page.text ≡ begun_text wide high name.now view.now) }
    ensures tags { IfOk result (λ page. page.open_tags ≡ Svg ∷ []) }
{
    Page::new(
        alloc,
        Tag::Svg,
        &[
            (Name::Namespace, Value::Text("http://www.w3.org/2000/svg")),
            (Name::Width, Value::Number(wide)),
            (Name::Height, Value::Number(high)),
            (Name::ViewBox, Value::Text(view)),
            (Name::Role, Value::Text("group")),
            (Name::Label, Value::Text(name)),
        ],
    )
}

// The title of a picture, and its style.
#[tactic(auto, unfolding(crate::specs::Pictures::title_text))]
fn put_title(page: &mut Page, name: &str) -> Result<(), AllocError>
    ensures text { OnOk result (page.new.text ≡ page.old.text ++ title_text name.now) }
    ensures tags { OnOk result (page.new.open_tags ≡ page.old.open_tags) }
{
    page.put_text(Tag::Title, &[], name)?;
    page.put_text(Tag::Style, &[], STYLE)
}

// The background of a picture, and its head.
#[tactic(auto, unfolding(crate::specs::Pictures::head_text))]
fn put_head(
    page: &mut Page,
    wide: u64,
    high: u64,
    name: &str,
    counts: &str,
) -> Result<(), AllocError>
    ensures text { OnOk result (page.new.text ≡ page.old.text ++ head_text wide high name.now counts.now) }
    ensures tags { OnOk result (page.new.open_tags ≡ page.old.open_tags) }
{
    put_rect(page, "background", Point::new(0, 0), wide, high)?;
    put_words(page, "head", Point::new(16, 34), name)?;
    put_words(page, "sub", Point::new(16, 56), counts)
}

// Draws the boxes and the ruling, and over them the bars and the trains.
#[tactic(auto, using(crate::proofs::Few::few_boxes), unfolding(crate::specs::Pictures::graph_text))]
fn put_graph(
    page: &mut Page,
    alloc: Global,
    plan: &Plan,
    layout: &Layout,
    scene: &Scene,
) -> Result<(), AllocError>
    requires { 0 < length page.old.open_tags }
    ensures text { OnOk result (page.new.text ≡ page.old.text ++ graph_text plan.now layout.now scene.now) }
    ensures tags { OnOk result (page.new.open_tags ≡ page.old.open_tags) }
{
    let axis = &scene.axis;
    plan.meets_conditions();
    put_boxes(page, right_end(axis), plan.boxes.as_slice())?;
    put_rulings(
        page,
        alloc,
        plan.version,
        plan.boxes.as_slice(),
        layout.bottom(plan),
        axis,
    )?;
    put_bars(page, alloc, plan, layout, axis, scene.bars.as_slice())?;
    put_lines(page, alloc, plan, layout, axis, scene.lines.as_slice())
}

// Draws all of a picture into a page.
#[tactic(auto, unfolding(crate::specs::Pictures::inner_text))]
fn put_picture(
    page: &mut Page,
    alloc: Global,
    plan: &Plan,
    layout: &Layout,
    scene: &Scene,
    name: &str,
) -> Result<(), AllocError>
    requires name { name.now ≡ picture_name plan.now }
    requires root { 0 < length page.old.open_tags }
    ensures text { OnOk result (page.new.text ≡ page.old.text ++ inner_text plan.now layout.now scene.now) }
    ensures tags { OnOk result (page.new.open_tags ≡ page.old.open_tags) }
{
    let counts = counts_text(alloc, scene)?;
    put_title(page, name)?;
    put_head(
        page,
        width(&scene.axis),
        layout.height(plan),
        name,
        counts.as_str(),
    )?;
    put_graph(page, alloc, plan, layout, scene)?;
    put_key(page, layout.bottom(plan) + 70)
}

/// The drawing of the scene of a journal at the line of a plan: an SVG document, in which each line and bar of the
/// scene is drawn once, in order.
pub fn draw_scene(alloc: Global, plan: &Plan, scene: &Scene) -> Result<String, NoMemory>
    ensures document { IfOk result (λ text. IsDocument (string_bytes text)) }
    ensures picture { IfOk result (λ text. string_bytes text ≡ picture_text plan.now scene.now) }
{
    let layout = Layout::new(alloc, plan)?;
    let (wide, high) = (width(&scene.axis), layout.height(plan));
    let name = picture_name(alloc, plan)?;
    let view = view_text(alloc, wide, high)?;
    let mut page = begun(alloc, wide, high, name.as_str(), view.as_str())?;
    put_picture(&mut page, alloc, plan, &layout, scene, name.as_str())?;
    Ok(page.finish()?)
}

/// The train graph of a legal journal at the line of a plan: an SVG document that draws what is shown of the journal.
pub fn train_graph(alloc: Global, plan: &Plan, entries: &[Entry]) -> Result<String, NoMemory>
    requires legal { IsLegal plan.now entries.now }
    requires few { length entries.now < 2 ^ 32 }
    ensures document { IfOk result (λ text. IsDocument (string_bytes text)) }
    ensures picture { IfOk result (λ text. string_bytes text ≡ picture_text plan.now (scene_of plan.now entries.now)) }
{
    let scene = scene_of(alloc, plan, entries)?;
    draw_scene(alloc, plan, &scene)
}
