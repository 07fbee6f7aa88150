//! Keys and histories that are read back.

use super::*;

const REPEATED: &[Row] = &[
    ("c", Ask::Put(""), Ok(1)),
    ("a", Ask::Put(""), Ok(2)),
    ("b", Ask::Put(""), Ok(3)),
    ("c", Ask::Put(""), Ok(4)),
    ("a", Ask::Delete(None), Ok(5)),
];

const IN_ORDER: &[Fact] = &[
    Fact::Keys(">", "b c "),
    Fact::Keys("c", "c "),
    Fact::Keys("a", ""),
];

#[test]
fn keys_come_by_their_latest_revisions(rt: HostRuntime) -> Result<(), Fail> {
    holds(&rt, rt.alloc(), keeping(5), REPEATED, IN_ORDER)?;
    Ok(())
}

const OF_LISTS: &[Fact] = &[
    Fact::KeysWhere("c", "c "),
    Fact::KeysWhere("a", ""),
    Fact::KeysWhere("c,nobody,b", "b c "),
    Fact::KeysWhere("a,b", "b "),
    // each once, though two filters match it
    Fact::KeysWhere("c,b,c", "b c "),
    Fact::KeysWhere("c,*", "b c "),
    Fact::KeysWhere("*,>", "b c "),
];

#[test]
fn a_key_that_two_filters_match_comes_once(rt: HostRuntime) -> Result<(), Fail> {
    holds(&rt, rt.alloc(), keeping(5), REPEATED, OF_LISTS)?;
    Ok(())
}

// Three keys of which one was deleted, each with its last two entries.
const THREE: &[Row] = &[
    ("a.b", Ask::Put(""), Ok(1)),
    ("c", Ask::Put(""), Ok(2)),
    ("a.b", Ask::Put(""), Ok(3)),
    ("x.b", Ask::Delete(None), Ok(4)),
    ("a.b", Ask::Put(""), Ok(5)),
];

const SELECTED: &[Fact] = &[
    Fact::Selected("a.*,*.b", Start::Latest, &[4, 5]),
    Fact::Selected("a.*,*.b", Start::History, &[3, 4, 5]),
    Fact::Selected(">", Start::From(4), &[4, 5]),
    Fact::Selected("a.b", Start::Latest, &[5]),
    Fact::Selected("a.b", Start::History, &[3, 5]),
    Fact::Selected("a.b", Start::From(4), &[5]),
    Fact::Selected("a.b", Start::Updates, &[]),
    Fact::Selected("x.b", Start::Latest, &[4]),
    Fact::Selected("a.b,x.b,c", Start::History, &[2, 3, 4, 5]),
    // none of these is there
    Fact::Selected("a", Start::History, &[]),
    Fact::Selected("nobody,a.b.c", Start::History, &[]),
    // each once, though two filters name it
    Fact::Selected("c,a.b,c,nobody", Start::Latest, &[2, 5]),
    Fact::Selected("a.b,a.b,a.b", Start::History, &[3, 5]),
    // names beside wildcards
    Fact::Selected("c,a.*", Start::History, &[2, 3, 5]),
    Fact::Selected("a.b,*.b", Start::Latest, &[4, 5]),
    Fact::Selected("nobody,c,nobody.>", Start::Latest, &[2]),
    Fact::Selected(">,c", Start::Latest, &[2, 4, 5]),
    Fact::Selected("*", Start::Latest, &[2]),
];

#[test]
fn revisions_are_selected_by_filters(rt: HostRuntime) -> Result<(), Fail> {
    holds(&rt, rt.alloc(), keeping(2), THREE, SELECTED)?;
    Ok(())
}

#[test]
fn an_empty_version_selects_nothing(rt: HostRuntime) -> Result<(), Fail> {
    let facts = [
        Fact::Selected("a,b", Start::Latest, &[]),
        Fact::Selected("a,>", Start::Latest, &[]),
    ];
    holds(&rt, rt.alloc(), keeping(1), &[], &facts)?;
    Ok(())
}
