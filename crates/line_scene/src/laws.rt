//! No two places of a box stand at one spot of its diagram.

ghost use Rattle.std.specs.Prelude.{◌≤◌, length};
ghost use Rattle.line_plan.specs.Frames.{BoxFields};
ghost use Rattle.line_scene.specs.Diagrams.{diagram_of};
ghost use Rattle.line_scene.specs.Spots.{HasOwnSpots, StandsInDiagram};

/// A law: in the diagram of a box each place stands at a spot of its own, in one of the diagram's rows and in one of
/// its five columns; and there are no more rows than places.
pub fn spots_law()
    ensures own { (box_plan : BoxFields) → HasOwnSpots box_plan }
    ensures within { (box_plan : BoxFields) → StandsInDiagram box_plan }
    ensures rows { (box_plan : BoxFields) → (diagram_of box_plan).rows ≤ length box_plan.places }
{}
