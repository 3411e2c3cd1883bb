//! How much a catalogue may hold, and what its parts may not be called.

use crate::parse_tests::refusal_of;
use std::alloc::Global;
use std::process::Abort;
use std::test::Fail;

/// Parts as many as there may be: how many, what one more is refused for, and the text before them, of each before and
/// behind its number, between them and behind them. The end of each is a line's.
const LIMITS: &str = "\
64|Limit(65, Features)|features |F||,|;
64|Limit(65, Columns)|features; table t (|c| int8|,|);
256|Limit(257, Tables)|features;|table t| (a int8);||
";

#[test]
fn keeps_the_limits(rt: HostRuntime) -> Result<(), Fail> {
    for case in LIMITS.lines() {
        let (count, case) = case.split_once('|').ok_or("no number")?;
        let (wanted, parts) = case.split_once('|').ok_or("no refusal")?;
        let count = count.parse()?;
        is_refused(&rt, repeated(rt.alloc(), parts, count)?, "nothing")?;
        is_refused(&rt, repeated(rt.alloc(), parts, one_more(count))?, wanted)?;
    }
    Ok(())
}

fn one_more(count: usize) -> usize {
    count.saturating_add(1)
}

fn is_refused(rt: &impl Abort, text: String, wanted: &str) -> Result<(), Fail> {
    let said = refusal_of(*text.allocator(), text.as_str())?;
    assert_eq!(rt; said.as_str(), wanted, "{text}");
    Ok(())
}

/// So many numbered parts, and what stands round them.
fn repeated(alloc: Global, parts: &str, count: usize) -> Result<String, Fail> {
    let (head, parts) = parts.split_once('|').ok_or("no head")?;
    let (before, parts) = parts.split_once('|').ok_or("nothing before")?;
    let (behind, parts) = parts.split_once('|').ok_or("nothing behind")?;
    let (between, tail) = parts.split_once('|').ok_or("no tail")?;
    let mut text = String::from_str(alloc, head)?;
    for number in 0..count {
        text.push_str(if number > 0 { between } else { "" })?;
        let part = format!(in alloc; "{before}{number}{behind}\n")?;
        text.push_str(part.as_str())?;
    }
    text.push_str(tail)?;
    Ok(text)
}

/// As many brackets as may be open at once behind the first part.
const NESTED: &str = "\
64|features A; model |;
63|features A; table t (a int8 when |);
64|features A; table t (a int8) when |;
64|features A; table t (a int8); row t (a 1) when |;
";

#[test]
fn keeps_the_limit_on_nesting(rt: HostRuntime) -> Result<(), Fail> {
    for case in NESTED.lines() {
        let (count, parts) = case.split_once('|').ok_or("no number")?;
        let count = count.parse()?;
        is_refused(&rt, nested(rt.alloc(), parts, count)?, "nothing")?;
        let wanted = format!(in rt.alloc(); "Syntax({})", one_more(count))?;
        is_refused(
            &rt,
            nested(rt.alloc(), parts, one_more(count))?,
            wanted.as_str(),
        )?;
    }
    Ok(())
}

/// Each bracket ends a line.
fn nested(alloc: Global, parts: &str, count: usize) -> Result<String, Fail> {
    let (head, tail) = parts.split_once('|').ok_or("no tail")?;
    let opened = "(\n".repeat(alloc, count)?;
    let closed = ")".repeat(alloc, count)?;
    Ok(format!(in alloc; "{head}{opened}A{closed}{tail}")?)
}

#[test]
fn takes_a_model_of_a_million_links(rt: HostRuntime) -> Result<(), Fail> {
    let mut text = String::from_str(rt.alloc(), "features A; model A")?;
    for _link in 0..1_000_000 {
        text.push_str(" or A")?;
    }
    text.push_str(";")?;
    is_refused(&rt, text, "nothing")
}

/// The words that nothing can be called by.
const RESERVED: &str =
    "alter and as begin choice commit create delete empty except false from insert into \
    join none not on or rollback select set true union update values when where";

#[test]
fn a_reserved_word_is_no_name(rt: HostRuntime) -> Result<(), Fail> {
    let mut count = 0_u32;
    for word in RESERVED.split(' ') {
        are_refused(
            &rt,
            rt.alloc(),
            word,
            ["Syntax(2)", "Syntax(3)", "Syntax(4)"],
        )?;
        count = count.saturating_add(1);
    }
    assert_eq!(rt; count, 28);
    are_refused(&rt, rt.alloc(), "altar", ["nothing"; 3])
}

/// In small letters and in capitals, as the name of a feature, of a table and of a column.
fn are_refused(rt: &impl Abort, alloc: Global, word: &str, wanted: [&str; 3]) -> Result<(), Fail> {
    let mut capitals = String::from_str(alloc, word)?;
    capitals.make_ascii_uppercase();
    for word in [word, capitals.as_str()] {
        let feature = format!(in alloc; "features A,\n{word};")?;
        is_refused(rt, feature, wanted[0])?;
        let table = format!(in alloc; "features;\ntable\n{word} (a int8);")?;
        is_refused(rt, table, wanted[1])?;
        let column = format!(in alloc; "features;\ntable t (a int8,\n\n{word} int8);")?;
        is_refused(rt, column, wanted[2])?;
    }
    Ok(())
}
