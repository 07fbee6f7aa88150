//! Who of the workers does what.

ghost use Rattle.std.specs.Prelude.{◌≡◌, ◌<◌, IfOk, IfErr, length, map, replicate, []};
ghost use Rattle.kv_keys.specs.declared.error.KvError.TheVariants.{OutOfMemory};
ghost use Rattle.kv_model.specs.Requests.{asked};
ghost use Rattle.kv_run.specs.Dealing.{dealt};

use kv_keys::KvError;
use kv_model::Request;
use std::alloc::Global;

// A script for each worker, with no request.
fn no_requests(alloc: Global, workers: usize) -> Result<Vec<Vec<Request>>, KvError>
    ensures ok { IfOk result (λ scripts. map (λ script. map asked script.items) scripts.items ≡ replicate workers []) }
    ensures err { IfErr result (λ e. e ≡ OutOfMemory) }
{
    let mut scripts = Vec::new(alloc);
    for _ in 0..workers {
        scripts.push(Vec::new(alloc))?;
    }
    Ok(scripts)
}

/// Deals requests to workers, one after another in turn: worker `i` gets those whose index leaves `i` where it is
/// divided by the number of workers.
pub fn deal(
    alloc: Global,
    requests: Vec<Request>,
    workers: usize,
) -> Result<Vec<Vec<Request>>, KvError>
    requires { 0 < workers }
    ensures ok { IfOk result
        (λ scripts. map (λ script. map asked script.items) scripts.items ≡ dealt workers (map asked requests.items)) }
    ensures err { IfErr result (λ e. e ≡ OutOfMemory) }
{
    let mut scripts = no_requests(alloc, workers)?;
    let mut count = 0;
    for request in requests {
        scripts[count % workers].push(request)?;
        count += 1;
    }
    Ok(scripts)
}
