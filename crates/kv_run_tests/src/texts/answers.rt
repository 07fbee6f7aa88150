//! Answers without entries, by the texts of the script's rules and of worked rows.

use kv_keys::KvError;
use kv_model::Status;
use kv_script::{
    append_batch_refusal, append_compacted, append_empty, append_marker, append_place,
    append_refusal, append_revision, append_revisions, append_sealed, append_status,
    append_stopped, append_told, append_watch, append_worker_refusal,
};
use kv_test_tools::once_more;
use std::alloc::{AllocError, Global};
use std::process::Abort;
use std::test::Fail;

// What is answered.
#[derive(Clone, Copy)]
enum Answer {
    Revision(u64),
    Revisions { before: u64, last: u64 },
    Sealed,
    Compacted(u64),
    Watch(u64),
    Marker(u64),
    Empty(u64),
    Stopped { watch: u64, handed: u64 },
    Status { status: Status, watches: u64 },
    Place(u32),
    Told { worker: u64, revision: u64 },
    Refusal(KvError),
    BatchRefusal { number: u64, error: KvError },
    WorkerRefusal { worker: u64, error: KvError },
}

const STATUS: Status = Status {
    history: 1,
    last: 7,
    sealed: false,
    stored: 7,
    values: 4,
};

const LAST: KvError = KvError::WrongLastRevision { last: 0 };

const BEHIND: KvError = KvError::WatchBehind { watch: 4 };

const LAGGED: KvError = KvError::Lagged { floor: 9 };

const ANSWERS: &[(Answer, &str)] = &[
    (Answer::Revision(7), "{\"revision\":7}\n"),
    (
        Answer::Revisions {
            before: 8,
            last: 11,
        },
        "{\"revisions\":[9,10,11]}\n",
    ),
    (
        Answer::Revisions {
            before: u64::MAX,
            last: u64::MAX,
        },
        "{\"revisions\":[]}\n",
    ),
    (Answer::Sealed, "{\"sealed\":true}\n"),
    (Answer::Compacted(4), "{\"compacted\":4}\n"),
    (Answer::Watch(1), "{\"watch\":1}\n"),
    (Answer::Marker(1), "{\"marker\":true,\"watch\":1}\n"),
    (Answer::Empty(2), "{\"empty\":true,\"watch\":2}\n"),
    (
        Answer::Stopped {
            watch: 1,
            handed: 5,
        },
        "{\"handed\":5,\"stopped\":1}\n",
    ),
    (
        Answer::Status {
            status: STATUS,
            watches: 3,
        },
        "{\"bucket\":\"kv\",\"history\":1,\"last\":7,\"sealed\":false,\"stored\":7,\"values\":4,\"watches\":3}\n",
    ),
    (Answer::Place(0x0c9dc5), "{\"place\":\"000c9dc5\"}\n"),
    (
        Answer::Told {
            worker: 2,
            revision: 4_294_967_295,
        },
        "{\"revision\":4294967295,\"worker\":2}\n",
    ),
    (
        Answer::Refusal(KvError::BadCommand),
        "{\"code\":16,\"error\":\"BadCommand\"}\n",
    ),
    (
        Answer::Refusal(KvError::BadFloor),
        "{\"code\":19,\"error\":\"BadFloor\"}\n",
    ),
    (
        Answer::Refusal(LAST),
        "{\"code\":11,\"error\":\"WrongLastRevision\",\"last\":0}\n",
    ),
    (
        Answer::Refusal(BEHIND),
        "{\"code\":20,\"error\":\"WatchBehind\",\"watch\":4}\n",
    ),
    (
        Answer::Refusal(LAGGED),
        "{\"code\":21,\"error\":\"Lagged\",\"floor\":9}\n",
    ),
    (
        Answer::BatchRefusal {
            number: 2,
            error: KvError::BadKey,
        },
        "{\"at\":2,\"code\":4,\"error\":\"BadKey\"}\n",
    ),
    (
        Answer::BatchRefusal {
            number: 10,
            error: LAST,
        },
        "{\"at\":10,\"code\":11,\"error\":\"WrongLastRevision\",\"last\":0}\n",
    ),
    (
        Answer::BatchRefusal {
            number: 1,
            error: BEHIND,
        },
        "{\"at\":1,\"code\":20,\"error\":\"WatchBehind\",\"watch\":4}\n",
    ),
    (
        Answer::BatchRefusal {
            number: 1,
            error: LAGGED,
        },
        "{\"at\":1,\"code\":21,\"error\":\"Lagged\",\"floor\":9}\n",
    ),
    (
        Answer::WorkerRefusal {
            worker: 1,
            error: KvError::Sealed,
        },
        "{\"code\":8,\"error\":\"Sealed\",\"worker\":1}\n",
    ),
    (
        Answer::WorkerRefusal {
            worker: 2,
            error: LAST,
        },
        "{\"code\":11,\"error\":\"WrongLastRevision\",\"last\":0,\"worker\":2}\n",
    ),
    (
        Answer::WorkerRefusal {
            worker: 3,
            error: BEHIND,
        },
        "{\"code\":20,\"error\":\"WatchBehind\",\"watch\":4,\"worker\":3}\n",
    ),
    (
        Answer::WorkerRefusal {
            worker: 4,
            error: LAGGED,
        },
        "{\"code\":21,\"error\":\"Lagged\",\"floor\":9,\"worker\":4}\n",
    ),
];

fn append(alloc: Global, out: &mut Vec<u8>, answer: Answer) -> Result<(), AllocError> {
    match answer {
        Answer::Revision(revision) => append_revision(alloc, out, revision),
        Answer::Revisions { before, last } => append_revisions(alloc, out, before, last),
        Answer::Sealed => append_sealed(alloc, out),
        Answer::Compacted(floor) => append_compacted(alloc, out, floor),
        Answer::Watch(watch) => append_watch(alloc, out, watch),
        Answer::Marker(watch) => append_marker(alloc, out, watch),
        Answer::Empty(watch) => append_empty(alloc, out, watch),
        Answer::Stopped { watch, handed } => append_stopped(alloc, out, watch, handed),
        Answer::Status { status, watches } => append_status(alloc, out, "kv", status, watches),
        Answer::Place(place) => append_place(alloc, out, place),
        Answer::Told { worker, revision } => append_told(alloc, out, worker, revision),
        Answer::Refusal(error) => append_refusal(alloc, out, error),
        Answer::BatchRefusal { number, error } => append_batch_refusal(alloc, out, number, error),
        Answer::WorkerRefusal { worker, error } => append_worker_refusal(alloc, out, worker, error),
    }
}

// Appended once more where memory was refused: nothing was appended then.
fn has_text<R: Abort>(rt: &R, alloc: Global, answer: Answer, text: &str) -> Result<(), AllocError> {
    let mut out = Vec::new(alloc);
    once_more!(append(alloc, &mut out, answer))?;
    assert!(rt; out.as_slice() == text.as_bytes(), "{text}");
    Ok(())
}

#[test]
fn answers_have_these_texts(rt: HostRuntime) -> Result<(), Fail> {
    for (answer, text) in ANSWERS {
        has_text(&rt, rt.alloc(), *answer, text)?;
    }
    Ok(())
}
