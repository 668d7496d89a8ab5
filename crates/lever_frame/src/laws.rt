//! The lever frame of a box does what the box's plan says.

ghost use Rattle.std.specs.Prelude.{◌≡◌, ◌<◌, ℕ, All, List, Option, length};
ghost use Rattle.locking_table.specs.Places.{IsLever};
ghost use Rattle.line_plan.specs.Frames.{BoxFields, track_of};
ghost use Rattle.lever_frame.specs.declared.reply.LeverReply.{LeverReply};
ghost use Rattle.lever_frame.specs.LeverPlans.{lever_plan_of};
ghost use Rattle.lever_frame.specs.LeverFrames.{HasPlacesOf, IsFrameOf, LeverFrameFields, arm_pulled, moved_by, passed};
ghost use Rattle.lever_frame.specs.LeverFrames.{pull_answer, pull_reply, pulled, put_answer, put_back, put_reply};

/// A law: the lever frame of a box answers by the plan of the box, its rows and its track circuits, and the pull of a
/// lever sets an arm off exactly where the box has a signal or starter of that lever.
pub fn answer_law()
    ensures pull { (box_plan : BoxFields) (frame : LeverFrameFields) (lever : ℕ) (tracks : List (Option ℕ))
        → IsFrameOf box_plan frame → IsLever (length frame.ends) lever → pull_reply frame lever tracks
        ≡ pull_answer (lever_plan_of box_plan lever) box_plan.rows frame.ends lever tracks }
    ensures put { (box_plan : BoxFields) (frame : LeverFrameFields) (lever : ℕ) (tracks : List (Option ℕ))
        → IsFrameOf box_plan frame → IsLever (length frame.ends) lever → put_reply frame lever tracks
        ≡ put_answer (lever_plan_of box_plan lever) box_plan.rows frame.ends lever tracks }
    ensures arm { (box_plan : BoxFields) (frame : LeverFrameFields) (lever : ℕ) → IsFrameOf box_plan frame
        → IsLever (length frame.ends) lever → (pulled frame lever).off
        ≡ arm_pulled (lever_plan_of box_plan lever).arm frame.off lever }
    ensures places { (box_plan : BoxFields) (frame : LeverFrameFields) (lever : ℕ) (tracks : List (Option ℕ))
        → IsFrameOf box_plan frame → IsLever (length frame.ends) lever
        → All (λ place. place < length tracks) (track_of box_plan lever) → HasPlacesOf frame lever tracks }
{}

/// A law: however its levers and arms move, the lever frame of a box stays that of the box.
pub fn frame_law()
    ensures pull { (box_plan : BoxFields) (frame : LeverFrameFields) (lever : ℕ) (reply : LeverReply)
        → IsFrameOf box_plan frame → IsFrameOf box_plan (moved_by reply (pulled frame lever) frame) }
    ensures put { (box_plan : BoxFields) (frame : LeverFrameFields) (lever : ℕ) (reply : LeverReply)
        → IsFrameOf box_plan frame → IsFrameOf box_plan (moved_by reply (put_back frame lever) frame) }
    ensures pass { (box_plan : BoxFields) (frame : LeverFrameFields) (lever : ℕ) → IsFrameOf box_plan frame
        → IsFrameOf box_plan (passed frame lever) }
{}
