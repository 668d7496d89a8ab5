//! The picture of a line as it stands, as SVG: the boxes from top to bottom, each with its places in the order of
//! travel, the arms on their posts and the levers of its frame; and between two boxes the sections of both lines, with
//! their instruments, the codes that stand unheard on the bells, and the trains on the plain lines.
#![tactic(auto)]

mod box_drawing;
mod layout;
mod picture;
mod section_drawing;
mod words;

pub use layout::Layout;
pub use picture::{draw_scene, line_picture, put_ground, put_key, put_style, put_thing};
pub use words::picture_name;
