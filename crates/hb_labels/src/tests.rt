//! Selectors with labels, worked out by hand. A row is what the selector answers, the selector and
//! the labels.

use super::*;
use hb_cases::{rows, unquoted};
use hb_wire::{NoMemory, Text};
use std::alloc::Global;
use std::process::Abort;
use std::test::*;

/// Whether the selector holds of the labels, which spaces divide, or that it is bad.
fn answer(alloc: Global, selector: &str, labels: &str) -> Result<&'static str, NoMemory> {
    let mut texts = Vec::new(alloc);
    for label in labels.split_whitespace() {
        texts.push(Text::of(alloc, label)?)?;
    }
    match read_selector(alloc, selector) {
        Ok(selector) if selector.holds(&texts) => Ok("true"),
        Ok(_) => Ok("false"),
        Err(SelectorFault::BadSelector) => Ok("bad"),
        Err(SelectorFault::NoMemory) => Err(NoMemory),
    }
}

/// Each row of a table, with these labels where it has none.
fn all_answer(rt: &impl Abort, alloc: Global, labels: &str, table: &str) -> Result<(), Fail> {
    for row in &rows(alloc, table)? {
        let labels = if row.cell(2).is_empty() {
            labels
        } else {
            row.cell(2)
        };
        let answer = answer(alloc, unquoted(row.cell(1)), labels)?;
        assert_eq!(rt; answer, row.cell(0), "{row}");
    }
    Ok(())
}

#[test]
fn keys_fit_labels(rt: HostRuntime) -> Result<(), Fail> {
    let table = "
        # A key, with and without a value, and without labels.
        true  | a     | a
        true  | a     | a=b
        true  | a     | a=
        false | a     | b=a
        false | a     | ab
        false | a     |
        true  | a     | x y=z a=1
        # Sources: a key without one fits any.
        true  | a     | k8s:a=c
        true  | k8s:a | k8s:a=c
        false | k8s:a | a=c
        false | k8s:a | x:a=c
        false | k8s:a | k8s:b:a=c
        false | b     | k8s:a:b
        true  | a     | a=k8s:b
        false | k8s   | k8s:a
    ";
    all_answer(&rt, rt.alloc(), "", table)
}

#[test]
fn labels_are_divided_at_their_first_signs(rt: HostRuntime) -> Result<(), Fail> {
    let table = "
        # A label is divided at its first `=`, and its key part at its first `:`.
        false | a=b  | a=b=c
        true  | a    | a=b=c
        true  | a=   | a
        true  | a=   | a=
        false | a=   | a=b
        # `!key`.
        true  | !a   | b
        false | !a   | a
        false | !a   | k8s:a=1
        true  | !x:a | k8s:a=1
        true  | !a   |
    ";
    all_answer(&rt, rt.alloc(), "", table)
}

#[test]
fn signs_ask_for_one_value(rt: HostRuntime) -> Result<(), Fail> {
    let table = "
        true  | a=b      | a=b
        true  | a==b     | k8s:a=b
        true  | a=b      | a=c a=b
        false | a=b      | a=B
        true  | a!=b     | a=c
        false | a!=b     | a=b
        true  | a!=b     | c=b
        true  | a!=b     |
        false | a!=b     | a=c x:a=b
        true  | k8s:a!=b | x:a=b
    ";
    all_answer(&rt, rt.alloc(), "", table)
}

#[test]
fn lists_ask_for_one_of_their_values(rt: HostRuntime) -> Result<(), Fail> {
    let table = "
        true  | a in (b,c)       | a=c
        false | a in (b,c)       | a=d
        false | a in (b,c)       | b=c
        true  | a notin (b,c)    | a=d
        false | a notin (b,c)    | a=d k8s:a=b
        true  | a notin (b,c)    | x=b
        true  | a in ()          | a
        false | a notin (b,)     | a
        # All together.
        true  | a in (b, c),!d   | k8s:a=c
        false | a in (b, c),!d   | k8s:a=c x:d=
        true  | a,b!=1,c in (x)  | a c=x b=2
    ";
    all_answer(&rt, rt.alloc(), "", table)
}

#[test]
fn spaces_may_stand_around_each_part(rt: HostRuntime) -> Result<(), Fail> {
    let table = r#"
        true  | "  app  "
        true  | " app = web "
        true  | "app== web"
        false | "app !=  web"
        false | " ! app"
        false | "! app , tier"
        true  | "app  in  ( web , db )  "
        true  | "app in(web)"
        false | "app notin( web)"
        true  | "app  notin(db )"
        true  | "tier =   "
        true  | "tier in ( )"
        true  | "in=notin"
        true  | "in in (notin)"
        false | "notin"
        true  | "in"
    "#;
    all_answer(&rt, rt.alloc(), "k8s:app=web tier= in=notin", table)
}

/// Texts that are no selector.
const OTHERS: &str = "
    bad | \"\"
    bad | \" \"
    bad | ,
    bad | a,
    bad | ,a
    bad | a,,b
    bad | !
    bad | !!a
    bad | !a=b
    bad | !a in (b)
    bad | =b
    bad | a b
    bad | a=b c
    bad | a=b=c
    bad | a= =b
    bad | a===b
    bad | a! =b
    bad | a!b
    bad | a<b
    bad | a:
    bad | :a
    bad | a:b:c
    bad | k8s: a
    bad | k8s :a
    bad | a=b:c
    bad | a in
    bad | a in b
    bad | a in (b
    bad | a in b)
    bad | a in (b) c
    bad | a in (b)(c)
    bad | a in ((b))
    bad | a in (b c)
    bad | ain (b)
    bad | in (b)
    bad | a IN (b)
    bad | a notin
    bad | a not in (b)
    bad | a\tin (b)
    bad | ä
";

#[test]
fn other_texts_are_bad(rt: HostRuntime) -> Result<(), Fail> {
    all_answer(&rt, rt.alloc(), "", OTHERS)
}
