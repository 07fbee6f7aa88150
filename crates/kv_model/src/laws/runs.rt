//! Laws of what a whole run of calls tells a watch. They are over the model alone, and know no version and no cursor.

ghost use Rattle.std.specs.Prelude.{◌≡◌, ◌<◌, ◌≤◌, ℕ, false, List, [], ◌∷◌, ◌++◌, Some, filter, length};
ghost use Rattle.std.specs.List.{list_any};
ghost use Rattle.kv_keys.specs.declared.error.KvError.TheVariants.{OutOfMemory};
ghost use Rattle.kv_model.specs.Acts.{IsPrefix};
ghost use Rattle.kv_model.specs.Configuration.{Configuration};
ghost use Rattle.kv_model.specs.declared.options.Options.{Options};
ghost use Rattle.kv_model.specs.Given.{given};
ghost use Rattle.kv_model.specs.declared.call.Call.{Call};
ghost use Rattle.kv_model.specs.declared.call.Call.TheVariants.{Watch, Take, Stop};
ghost use Rattle.kv_model.specs.Answers.{Watching, Empty, Ended, Refused};
ghost use Rattle.kv_model.specs.Runs.{run, answers_to, items_in, transcript};
ghost use Rattle.kv_model.specs.further.Meeting.{may_add_act, compacts, bears_on, meetings_of};
ghost use Rattle.kv_model.specs.State.{State, Watch as AWatch, watch_at, open_count, empty, after, answer_to};
ghost use Rattle.kv_model.specs.further.Counts.{GoesOn, IsOther, TellsWatch};
ghost use Rattle.kv_model.specs.Told.{Tells, TellsEachWatch};

/// Each watch was handed the first items of what it is given, as many as it counts.
pub fn counts_what_is_told()
    ensures { (config : Configuration) (calls : List Call) (number : ℕ) →
        TellsWatch (run (empty config) calls) number (items_in number (empty config) calls) }
{}

/// What a watch was handed, in order, is the beginning of what it is given.
pub fn tells_what_is_given()
    ensures { (state : State) (before later : List Call) (filters : List (List ℕ)) (options : Options) (number : ℕ) →
        answer_to (run state before) (Watch filters options) ≡ Watching number →
        IsPrefix (items_in number state (before ++ Watch filters options ∷ later))
        (given state.config.history (run state before).acts
        (run state (before ++ Watch filters options ∷ later)).acts filters options) }
{}

/// Where a take finds none, the watch was handed all that it is given.
pub fn tells_all()
    ensures { (state : State) (before later : List Call) (filters : List (List ℕ)) (options : Options) (number : ℕ) →
        answer_to (run state before) (Watch filters options) ≡ Watching number →
        answer_to (run state (before ++ Watch filters options ∷ later)) (Take number) ≡ Empty →
        items_in number state (before ++ Watch filters options ∷ later)
        ≡ given state.config.history (run state before).acts
        (run state (before ++ Watch filters options ∷ later)).acts filters options }
{}

/// A watch that was stopped is handed nothing.
pub fn tells_none_when_stopped()
    ensures { (state : State) (number handed : ℕ) (calls : List Call) →
        answer_to state (Stop number) ≡ Ended handed → items_in number (after state (Stop number)) calls ≡ [] }
{}

/// Calls of other watches leave a watch as it is, and so do writes, seals, compactions and reads.
pub fn others_leave_it()
    ensures { (state : State) (number : ℕ) (watch : AWatch) (call : Call) →
        IsOther number call → watch_at number state.watches ≡ Some watch →
        watch_at number (after state call).watches ≡ Some watch }
{}

/// The watch theorem: what is said of each watch that calls opened.
pub fn tells_each_watch()
    ensures { (state : State) (calls : List Call) → TellsEachWatch state (transcript state calls) }
{}

/// No call is answered with want of memory: where it is met, there is no reply.
pub fn answers_no_want_of_memory()
    ensures { (state : State) (call : Call) → answer_to state call ≡ Refused OutOfMemory → ⊥ }
{}

/// Two runs in a row are one run: its state, its answers and the items of each watch. So a run may be cut anywhere,
/// into single calls too, and the laws of a run are the laws of any calls in a row.
pub fn runs_join()
    ensures state { (state : State) (calls more : List Call) → run state (calls ++ more) ≡ run (run state calls) more }
    ensures answers { (state : State) (calls more : List Call) →
        answers_to state (calls ++ more) ≡ answers_to state calls ++ answers_to (run state calls) more }
    ensures items { (state : State) (calls more : List Call) (number : ℕ) →
        items_in number state (calls ++ more) ≡ items_in number state calls ++ items_in number (run state calls) more }
{}

/// The watch theorem for a watch that was there before the calls: what they hand it are its next items.
pub fn tells_on()
    ensures { (config : Configuration) (before calls : List Call) (number : ℕ) (watch : AWatch) →
        watch_at number (run (empty config) before).watches ≡ Some watch →
        Tells (run (empty config) before) (transcript (run (empty config) before) calls) number watch }
{}

/// A call that is no write, no seal and no compaction leaves the acts as they are.
pub fn leaves_the_acts()
    ensures { (state : State) (call : Call) → may_add_act call ≡ false → (after state call).acts ≡ state.acts }
{}

/// Other watches change nothing: a watch is handed the same items in two runs in which its own calls meet the same
/// acts, whatever else is called in them, and whatever its number.
pub fn others_change_nothing()
    ensures { (here there : State) (watch : AWatch) (number_here number_there : ℕ)
        (calls_here calls_there : List Call) →
        here.config.history ≡ there.config.history →
        watch_at number_here here.watches ≡ Some watch → watch_at number_there there.watches ≡ Some watch →
        meetings_of number_here here calls_here ≡ meetings_of number_there there calls_there →
        items_in number_here here calls_here ≡ items_in number_there there calls_there }
{}

/// Without the calls of other watches, and without openings and reads, a watch is handed the same items, where no call
/// is a compaction: whether one is refused depends on the other watches, and so may what is accepted after it.
pub fn alone_is_the_same()
    ensures { (state : State) (watch : AWatch) (number : ℕ) (calls : List Call) →
        list_any compacts calls ≡ false → watch_at number state.watches ≡ Some watch →
        items_in number state (filter (bears_on number) calls) ≡ items_in number state calls }
{}

/// A watch goes on through each run: it keeps its beginning, its filters and its options, its count never falls, and
/// once it is stopped it stays so and counts no more.
pub fn watches_go_on()
    ensures { (state : State) (calls : List Call) (number : ℕ) (watch : AWatch) →
        watch_at number state.watches ≡ Some watch →
        (now : AWatch) × (watch_at number (run state calls).watches ≡ Some now) × GoesOn watch now }
{}

/// A number is never used again: each opening is answered with a greater one than those before it.
pub fn numbers_rise()
    ensures { (state : State) (between : List Call) (filters more_filters : List (List ℕ))
        (options more_options : Options)
        (first second : ℕ) → answer_to state (Watch filters options) ≡ Watching first →
        answer_to (run (after state (Watch filters options)) between) (Watch more_filters more_options)
        ≡ Watching second →
        first < second }
{}

/// Whatever is called, at most 64 watches are open, and at most 4,294,967,295 were ever opened.
pub fn watches_are_few()
    ensures open_now { (config : Configuration) (calls : List Call) →
        open_count (run (empty config) calls).watches ≤ 64 }
    ensures ever { (config : Configuration) (calls : List Call) →
        length (run (empty config) calls).watches ≤ 4294967295 }
{}
