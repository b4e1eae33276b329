//! Laws of the definitions: each contract is a theorem, and no body does anything.

ghost use Rattle.std.specs.Prelude.{◌≡◌, ℕ, ◌+◌, ◌<◌, max, List, length};
ghost use Rattle.flow_shop.specs.Shop.{Shop, time};
ghost use Rattle.flow_schedule.specs.Timetable.{job_at, start_at, end_at};

/// A job starts on a machine when it has left the machine before and the job before it has left this one, and ends a
/// processing time later. Before the first job and before the first machine nothing has to be waited for.
pub fn operation_starts_when_free()
    ensures start { (shop : Shop) (sequence : List ℕ) (place machine : ℕ) → place < length sequence →
        start_at shop sequence (place + 1) (machine + 1)
        ≡ max (end_at shop sequence place (machine + 1)) (end_at shop sequence (place + 1) machine) }
    ensures end { (shop : Shop) (sequence : List ℕ) (place machine : ℕ) → place < length sequence →
        end_at shop sequence (place + 1) (machine + 1)
        ≡ start_at shop sequence (place + 1) (machine + 1)
        + time shop (job_at sequence (place + 1)) (machine + 1) }
    ensures first_job { (shop : Shop) (sequence : List ℕ) (machine : ℕ) → end_at shop sequence 0 machine ≡ 0 }
    ensures first_machine { (shop : Shop) (sequence : List ℕ) (place : ℕ) → end_at shop sequence place 0 ≡ 0 }
{}
