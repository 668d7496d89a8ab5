//! The shapes of which pictures are drawn as SVG: rectangles, lines, figures, words and groups on a page.
//!
//! Places are whole numbers, counted from the left and from the top. A shape has a class, by which the page's own style
//! gives it its colours and letters.
#![tactic(auto)]

mod shapes;

pub use shapes::{
    Point, begin_group, put_line, put_number, put_polygon, put_rect, put_upright, put_words,
};
