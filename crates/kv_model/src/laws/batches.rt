//! Laws of batches: several requests in one step are what they are one after the other, or nothing. They are over the
//! model alone.

ghost use Rattle.std.specs.Prelude.{◌≡◌, ◌≢◌, ℕ, ◌+◌, List, Some, Ok, Err, length, map, slice_get};
ghost use Rattle.kv_keys.specs.declared.error.KvError.TheVariants.{OutOfMemory};
ghost use Rattle.kv_model.specs.Acts.{Act, Write, writes_of};
ghost use Rattle.kv_model.specs.Answers.{Revision};
ghost use Rattle.kv_model.specs.Batches.{IsRefusedAt, accept_all, after_all, after_batch, first_revision};
ghost use Rattle.kv_model.specs.Configuration.{Configuration};
ghost use Rattle.kv_model.specs.Requests.{Asked, asked};
ghost use Rattle.kv_model.specs.Runs.{run, answers_to};
ghost use Rattle.kv_model.specs.State.{State};
ghost use Rattle.kv_model.specs.declared.batch.BatchRefused.{BatchRefused};
ghost use Rattle.kv_model.specs.declared.call.Call.TheVariants as ask;
ghost use Rattle.kv_model.specs.declared.request.Request.{Request};

/// A batch that is accepted is the run of its requests, one call each: it leaves the same state, and each of its writes
/// has the revision that its request is answered with. So the laws of runs, and the watch theorem, are laws of batches.
pub fn accepted_batch_is_a_run()
    ensures state { (state : State) (requests : List Request) (ws : List Write) →
        accept_all state.config (map asked requests) state.acts ≡ Ok ws →
        run state (map ask.Write requests) ≡ after_batch state (Ok ws) }
    ensures answers { (state : State) (requests : List Request) (ws : List Write) →
        accept_all state.config (map asked requests) state.acts ≡ Ok ws →
        answers_to state (map ask.Write requests) ≡ map (λ w. Revision w.revision) ws }
{}

/// A batch that is accepted has one write for each request, and their revisions go on by one from that of the first,
/// which is one more than the last before the batch.
pub fn revisions_of_a_batch_go_on()
    ensures count { (config : Configuration) (requests : List Asked) (acts : List Act) (ws : List Write) →
        accept_all config requests acts ≡ Ok ws → length ws ≡ length requests }
    ensures revisions { (config : Configuration) (requests : List Asked) (acts : List Act) (ws : List Write)
        (i : ℕ) (w : Write) → accept_all config requests acts ≡ Ok ws → slice_get ws i ≡ Some w →
        w.revision ≡ length (writes_of acts) + 1 + i }
    ensures first { (config : Configuration) (requests : List Asked) (acts : List Act) (ws : List Write)
        (i : ℕ) (w : Write) → accept_all config requests acts ≡ Ok ws → slice_get ws i ≡ Some w →
        w.revision ≡ first_revision acts ws + i }
{}

/// A batch is refused exactly where one of its requests is, behind those before it, and for the first such.
pub fn refused_batch_has_a_refused_request()
    ensures refused { (config : Configuration) (requests : List Asked) (acts : List Act) (refused : BatchRefused) →
        accept_all config requests acts ≡ Err refused → IsRefusedAt config requests acts refused }
    ensures only { (config : Configuration) (requests : List Asked) (acts : List Act) (refused : BatchRefused) →
        IsRefusedAt config requests acts refused → refused.error ≢ OutOfMemory →
        accept_all config requests acts ≡ Err refused }
    ensures never { (config : Configuration) (requests : List Asked) (acts : List Act) (refused : BatchRefused) →
        accept_all config requests acts ≡ Err refused → refused.error ≢ OutOfMemory }
{}
