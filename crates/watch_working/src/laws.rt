//! What the board of a line that was watched tells of its journal.

ghost use Rattle.std.specs.Prelude.{List};
ghost use Rattle.atomic_table.specs.Seated.{TableId};
ghost use Rattle.line_plan.specs.Plans.{IsPlan, PlanFields};
ghost use Rattle.line_law.specs.declared.call.Entry.{Entry};
ghost use Rattle.line_law.specs.History.{IsLegal};
ghost use Rattle.line_watch.specs.declared.sight.Sight.{Sight};
ghost use Rattle.line_watch.specs.Shown.{IsBoardOf};
ghost use Rattle.signalman_seats.specs.Lines.{AreMen, Closed};
ghost use Rattle.signalman_seats.specs.Men.{Man};
ghost use Rattle.train_register.specs.Registers.{AreParts, RegisterFields};
ghost use Rattle.watch_working.specs.Watched.{IsWatched};

/// A law: where a line was watched until its men had ended, and is then closed by them, the observer's rounds are a
/// board of any legal history with the parts that the registers have, as the line's journal is.
pub fn watched_law()
    ensures { (table_id : TableId) (plan : PlanFields) (men : List Man) (rounds : List (List Sight))
        (log journal : List Entry) (registers : List RegisterFields) → IsPlan plan → AreMen table_id plan men
        → IsWatched plan men rounds log → Closed plan men registers
        → IsLegal plan journal → AreParts plan journal registers → IsBoardOf plan journal rounds }
{}
