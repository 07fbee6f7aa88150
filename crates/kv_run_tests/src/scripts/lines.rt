//! Lines by themselves, on one bucket, in both forms of values.

use super::*;
use kv_run::answer_line_in;
use kv_single::Bucket;

const LINES: &[(Form, &str)] = &[
    // An empty line and a comment have no answer.
    (Form::Base64, ""),
    (Form::Base64, "# put a -"),
    (Form::Base64, "put .a MQ"),
    (Form::Base64, "put .a -"),
    (Form::Base64, "put k /w=="),
    (Form::Base64, "get k"),
    (Form::Text, "get k"),
    (Form::Text, "watch k"),
    (Form::Text, "put k a b"),
    (Form::Text, "get k"),
    (Form::Base64, "get k"),
    (Form::Base64, "put k a b"),
    (Form::Text, "take 1 1"),
    // Its lines would stand behind it, and here is none.
    (Form::Base64, "batch 0"),
    (Form::Base64, "seal"),
    (Form::Base64, "compact 2"),
    (Form::Base64, "stop 1"),
    (Form::Text, "compact 2"),
    (Form::Text, "status"),
];

const ANSWERS: &str = "{\"code\":16,\"error\":\"BadCommand\"}\n\
    {\"code\":4,\"error\":\"BadKey\"}\n\
    {\"revision\":1}\n\
    {\"key\":\"k\",\"op\":\"PUT\",\"revision\":1,\"size\":1,\"value\":\"/w==\"}\n\
    {\"base64\":\"/w==\",\"key\":\"k\",\"op\":\"PUT\",\"revision\":1,\"size\":1}\n\
    {\"watch\":1}\n\
    {\"revision\":2}\n\
    {\"key\":\"k\",\"op\":\"PUT\",\"revision\":2,\"size\":3,\"value\":\"a b\"}\n\
    {\"key\":\"k\",\"op\":\"PUT\",\"revision\":2,\"size\":3,\"value\":\"YSBi\"}\n\
    {\"code\":16,\"error\":\"BadCommand\"}\n\
    {\"base64\":\"/w==\",\"key\":\"k\",\"op\":\"PUT\",\"revision\":1,\"size\":1,\"watch\":1}\n\
    {\"code\":16,\"error\":\"BadCommand\"}\n\
    {\"sealed\":true}\n\
    {\"code\":20,\"error\":\"WatchBehind\",\"watch\":1}\n\
    {\"handed\":1,\"stopped\":1}\n\
    {\"compacted\":2}\n\
    {\"bucket\":\"kv\",\"history\":1,\"last\":2,\"sealed\":true,\"stored\":1,\"values\":1,\"watches\":0}\n";

fn answer_all(alloc: Global, bucket: &mut Bucket, out: &mut Vec<u8>) -> Result<(), KvError> {
    for (form, line) in LINES {
        answer_line_in(alloc, bucket, line.as_bytes(), out, *form)?;
    }
    Ok(())
}

// After want of memory whole lines were answered, and of the writes that were made one at the most has no answer.
fn ends_early(bucket: &Bucket, out: &[u8]) -> bool {
    let answered = lines_in(out) as u64;
    is_front(out, ANSWERS.as_bytes()) && bucket.version().revision() <= answered.saturating_add(1)
}

// Answers the lines on a new bucket.
fn are_answered(alloc: Global) -> Result<bool, KvError> {
    let mut bucket = Bucket::open(alloc, &named(alloc)?)?;
    let mut out = Vec::new(alloc);
    match answer_all(alloc, &mut bucket, &mut out) {
        Ok(()) => Ok(out.as_slice() == ANSWERS.as_bytes()),
        Err(KvError::OutOfMemory) if ends_early(&bucket, &out) => Err(KvError::OutOfMemory),
        Err(_) => Ok(false),
    }
}

#[test]
fn one_bucket_answers_in_both_forms(rt: HostRuntime) -> Result<(), Fail> {
    equal(&rt, once_more!(are_answered(rt.alloc()))?, true);
    Ok(())
}
