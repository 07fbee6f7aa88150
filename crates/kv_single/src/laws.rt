//! Laws of the calls on a bucket, whoever makes them and in whatever order.

ghost use Rattle.std.specs.Prelude.{◌≡◌, ℕ, List, Some};
ghost use Rattle.kv_model.specs.Runs.{Exchange, calls_of, run};
ghost use Rattle.kv_model.specs.State.{State, Watch, open_at};
ghost use Rattle.kv_model.specs.Told.{Tells, TellsEachWatch};
ghost use Rattle.kv_single.specs.Held.{Bucketed, Represents};
ghost use Rattle.kv_single.specs.Stepping.{AreSteps};

/// The watch theorem for whoever calls. Each public call of a bucket is one step of the model, so this is said of any
/// calls in a row, each with its answer, and not of `Bucket::run` alone.
///
/// Each watch that one of the calls opened, and each that was open before them, is handed, in order, the next items of
/// what it is given: all of them where a take of it is answered Empty, and none after its stop.
pub fn tells_whoever_calls()
    ensures opened { (old new : Bucketed) (told : List Exchange) (state : State) → AreSteps old told new →
        Represents state old → TellsEachWatch state told }
    ensures held { (old new : Bucketed) (told : List Exchange) (state : State) (number : ℕ) (watch : Watch) →
        AreSteps old told new → Represents state old → open_at number state ≡ Some watch →
        Tells state told number watch }
    ensures after { (old new : Bucketed) (told : List Exchange) (state : State) → AreSteps old told new →
        Represents state old → Represents (run state (calls_of told)) new }
{}
