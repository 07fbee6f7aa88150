//! Laws of the calls that C makes on a bucket, in whatever order.

ghost use Rattle.std.specs.Prelude.{◌≡◌, ◌∷◌, ℕ, Err, List, Option, Some, true};
ghost use Rattle.kv_c.specs.Batching.{AcceptsAll, batch_of, gatherable};
ghost use Rattle.kv_c.specs.Calling.{Accepts, StandsAt, StaysAs, Steps};
ghost use Rattle.kv_c.specs.Checkpointing.{GoesOn, KeepsFile, MakesCheckpoint};
ghost use Rattle.kv_c.specs.Codes.{outcome};
ghost use Rattle.kv_c.specs.Chaining.{Accepted, AddWrites, steps_of};
ghost use Rattle.kv_c.specs.Making.{GivesUp, Makes, MakesAct, MakesAsked, MakesGathered, MakesWrite, Settles, stopped_in};
ghost use Rattle.kv_c.specs.Rows.{AreDone, Done, told};
ghost use Rattle.kv_c.specs.declared.content.Content.{Content};
ghost use Rattle.kv_keys.specs.declared.error.KvError.{KvError as AnError};
ghost use Rattle.kv_model.specs.Acts.{Act};
ghost use Rattle.kv_model.specs.Answers.{Answer};
ghost use Rattle.kv_model.specs.Configuration.{has_legal_numbers};
ghost use Rattle.kv_model.specs.Requests.{Asked};
ghost use Rattle.kv_model.specs.State.{State, Watch, open_at};
ghost use Rattle.kv_model.specs.Told.{Tells, TellsEachWatch};
ghost use Rattle.kv_model.specs.declared.call.Call.{Call};
ghost use Rattle.kv_model.specs.declared.request.Request.{Request};

/// The watch theorem for C. Each call that answers 0, or is made and settled, is one step of the model, but for a batch, which
/// is one for each of its writes; and each other call, also one that is given up, leaves the bucket as it was. So each watch that the calls opened, and each that was
/// open before them, is handed, in order, the next items of what it is given, all of them where a take finds none, and
/// none after its stop.
pub fn tells_whoever_calls()
    ensures opened { (old new : Option Content) (done : List Done) (state : State) → AreDone old done new →
        StandsAt state old → TellsEachWatch state (told done) }
    ensures held { (old new : Option Content) (done : List Done) (state : State) (number : ℕ) (watch : Watch) →
        AreDone old done new → StandsAt state old → open_at number state ≡ Some watch →
        Tells state (told done) number watch }
{}

/// What is not gathered, every bucket refuses as a single write, for the same reason and whatever it has accepted.
pub fn refuses_what_is_not_gathered()
    ensures { (what : Asked) (e : AnError) (state : State) → gatherable what ≡ Err e →
        has_legal_numbers state.config ≡ true → outcome what state ≡ Err e }
{}

/// A call on a bucket with a file that is made and settled is what it is on a bucket in memory.
pub fn made_and_settled_it_is_done()
    ensures write { (what : Asked) (old mid new : Option Content) (told : ℕ) → Makes (MakesAsked what) old mid →
        Settles mid told new → Accepts what old told new }
    ensures batch { (whats : List Asked) (old mid new : Option Content) (told : ℕ) →
        MakesGathered (Some whats) old mid → Settles mid told new → AcceptsAll (batch_of whats) old told new }
    ensures act { (call : Call) (answer : Answer) (act : Act) (old mid new : Option Content) (told : ℕ) →
        Makes (MakesAct call answer act) old mid → Settles mid told new → Steps call answer old new }
{}

/// One that is made and given up leaves the bucket as it was, with its watches, and nothing more is added to its file.
pub fn made_and_given_up_it_is_undone()
    ensures write { (what : Asked) (old mid new : Option Content) → Makes (MakesAsked what) old mid → GivesUp mid new →
        StaysAs old new × (stopped_in new ≡ true) }
    ensures batch { (whats : List Asked) (old mid new : Option Content) → MakesGathered (Some whats) old mid →
        GivesUp mid new → StaysAs old new × (stopped_in new ≡ true) }
    ensures act { (call : Call) (answer : Answer) (act : Act) (old mid new : Option Content) →
        Makes (MakesAct call answer act) old mid → GivesUp mid new → StaysAs old new × (stopped_in new ≡ true) }
{}

/// A checkpoint leaves the bucket as it was, with its watches, in each case. Settled, it goes on with the new file. Given up, nothing
/// more is added to its file. And where the former file is kept, nothing has changed.
pub fn a_checkpoint_leaves_the_bucket()
    ensures settled { (seed : ℕ) (old mid new : Option Content) (told : ℕ) → Makes (MakesCheckpoint seed) old mid →
        Settles mid told new → StaysAs old new × GoesOn seed old new }
    ensures given_up { (seed : ℕ) (old mid new : Option Content) → Makes (MakesCheckpoint seed) old mid →
        GivesUp mid new → StaysAs old new × (stopped_in new ≡ true) }
    ensures kept { (seed : ℕ) (old mid new : Option Content) → Makes (MakesCheckpoint seed) old mid →
        KeepsFile mid new → new ≡ old }
{}

/// Writes that are made one behind the other, and settled at once, are these writes, one after the other, as
/// `tells_whoever_calls` takes them. The first is told its revision when they are settled.
pub fn made_behind_and_settled_they_are_done()
    ensures { (first : Request) (more : List Accepted) (old mid last new : Option Content) (told : ℕ) →
        Makes (MakesWrite first) old mid → AddWrites mid more last → Settles last told new →
        AreDone old (steps_of (record { request = first; revision = told } ∷ more)) new }
{}

/// Where they are given up, the bucket stays as it was before the first of them, and nothing more is added to its file.
pub fn made_behind_and_given_up_they_are_undone()
    ensures { (first : Request) (more : List Accepted) (old mid last new : Option Content) →
        Makes (MakesWrite first) old mid → AddWrites mid more last → GivesUp last new →
        StaysAs old new × (stopped_in new ≡ true) }
{}
