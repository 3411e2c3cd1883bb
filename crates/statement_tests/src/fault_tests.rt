//! Texts and their first faults. The features are A and B.

use crate::printed::features;
use query_parser::parse;
use std::alloc::Global;
use std::process::Abort;
use std::test::Fail;

/// What each text is refused for, and the text, a line each.
const SELECTS: &str = "\
syntax error at character 8: select from;
syntax error at character 9: select *, id from emp
syntax error at character 11: select id name from emp
syntax error at character 12: select id, from emp
syntax error at character 14: select id as from emp
syntax error at character 17: select id as a.b.c from emp
syntax error at character 16: select id when from emp
syntax error at character 18: select id when A as x from emp
syntax error at character 18: select id when A B from emp
unknown feature at character 16: select id when C from emp
unknown feature at character 16: select id when a from emp
syntax error at character 26: select id when A and not from emp
unknown feature at character 27: select id when A or B and c from emp
syntax error at character 16: select id from select * from emp
syntax error at character 22: select id from emp as
syntax error at character 23: select id from emp as select
syntax error at character 24: select id from emp as a.b
syntax error at character 38: select id from emp join dept on true on true
syntax error at character 8: select $1 from emp
unknown feature at character 16: select id when C and D from emp
unknown feature at character 16: select id when C and from emp
";

#[test]
fn a_select_is_refused_for_its_first_fault(rt: HostRuntime) -> Result<(), Fail> {
    are_refused(&rt, rt.alloc(), SELECTS, false)
}

const CONDITIONS: &str = "\
syntax error at character 29: select * from emp where id =
syntax error at character 30: select id from emp join dept where true
syntax error at character 25: select id from emp where
syntax error at character 28: select id from emp where id
syntax error at character 29: select id from emp where id and true
syntax error at character 28: select id from emp where 1 or true
syntax error at character 33: select id from emp where true = = id
syntax error at character 34: select id from emp where id = id = id
syntax error at character 30: select id from emp where not and
syntax error at character 29: select id from emp where id ! 1
integer out of range at character 31: select id from emp where id = 9223372036854775808
integer out of range at character 31: select id from emp where id = -9223372036854775809 and id =
syntax error at character 27: select id from emp where 1.5 = id
parameter at character 31, where none may stand: select id from emp where id = $1
parameter number too large at character 26: select id from emp where $1025 = id
syntax error at character 31: select id from emp where id = $0
syntax error at character 31: select id from emp where id = $01
syntax error at character 31: select id from emp where id = 'it''s
";

#[test]
fn a_condition_is_refused_for_its_first_fault(rt: HostRuntime) -> Result<(), Fail> {
    are_refused(&rt, rt.alloc(), CONDITIONS, false)
}

const QUERIES: &str = "\
syntax error at character 5: emp where $1 = 1
syntax error at character 5: emp emp
syntax error at character 1: , emp
syntax error at character 5: emp , dept
syntax error at character 8: choice (emp, dept)
syntax error at character 9: choice [](emp, dept)
syntax error at character 10: choice [A(emp, dept)
syntax error at character 12: choice [A] emp
syntax error at character 16: choice [A] (emp)
syntax error at character 22: choice [A] (emp, dept, emp)
unknown feature at character 9: choice [C] (emp,
syntax error at character 61: choice [A] (emp, select * from dept where choice [B] (id = 1)
syntax error at character 11: emp union union dept
syntax error at character 10: emp union
syntax error at character 17: emp except (dept
syntax error at character 2: ()
unknown feature at character 9: choice [C or (A B)] (emp, dept)
";

#[test]
fn a_query_is_refused_for_its_first_fault(rt: HostRuntime) -> Result<(), Fail> {
    are_refused(&rt, rt.alloc(), QUERIES, false)
}

const WRITES: &str = "\
syntax error at character 8: insert emp (id) values (1)
syntax error at character 13: insert into values (id) values (1)
syntax error at character 17: insert into emp values (1)
syntax error at character 18: insert into emp () values (1)
syntax error at character 20: insert into emp (id.name) values (1)
syntax error at character 22: insert into emp (id, ) values (1)
syntax error at character 22: insert into emp (id) (1)
syntax error at character 30: insert into emp (id) values (id)
syntax error at character 34: insert into emp (id) values (1, 2)
syntax error at character 37: insert into emp (id, name) values (1)
parameter at character 53, where none may stand: insert into emp (id, name) values (1, 2), (1, 2, 3, $1)
syntax error at character 33: insert into emp (id) values (1) (2)
syntax error at character 40: insert into emp (id) values (1) when A where true
syntax error at character 8: delete emp
syntax error at character 24: delete from emp when A where id = 1
unknown feature at character 35: delete from emp where id = 1 when D
syntax error at character 12: update emp id = 1
syntax error at character 19: update emp set id <> 1
syntax error at character 21: update emp set id = name
syntax error at character 24: update emp set id = 1, where true
integer out of range at character 21: update emp set id = -99999999999999999999 where
unknown feature at character 38: insert into emp (id) values (1) when C or
";

#[test]
fn a_write_is_refused_for_its_first_fault(rt: HostRuntime) -> Result<(), Fail> {
    are_refused(&rt, rt.alloc(), WRITES, false)
}

const STATEMENTS: &str = "\
syntax error at character 1: 1
syntax error at character 1: 'emp'
syntax error at character 1: create
syntax error at character 7: begin commit
syntax error at character 20: commit transaction work
syntax error at character 5: set 1 to 2
syntax error at character 7: set x 2
syntax error at character 14: set x = true = 1
syntax error at character 10: set x to ;
integer out of range at character 10: set x to 99999999999999999999
syntax error at character 10: set x to $1
syntax error at character 19: emp; dept; select ;
syntax error at character 7: emp;; )
";

#[test]
fn a_text_is_refused_for_its_first_fault(rt: HostRuntime) -> Result<(), Fail> {
    are_refused(&rt, rt.alloc(), STATEMENTS, false)
}

/// The same, where parameters may stand.
const PREPARED: &str = "\
syntax error at character 7: begin commit
syntax error at character 6: t;;u v
syntax error at character 3: t when A
syntax error at character 10: set a to ;
integer out of range at character 9: set a = 9223372036854775808
syntax error at character 19: insert into t (a, ) values (1)
syntax error at character 31: insert into t (a) values (1, 2)
syntax error at character 8: delete t
unknown feature at character 20: delete from t when C
parameter number too large at character 18: update t set a = $1025
syntax error at character 18: update t set a = b
";

#[test]
fn a_text_with_parameters_is_refused_for_its_first_fault(rt: HostRuntime) -> Result<(), Fail> {
    are_refused(&rt, rt.alloc(), PREPARED, true)
}

fn are_refused(rt: &impl Abort, alloc: Global, table: &str, with_params: bool) -> Result<(), Fail> {
    for line in table.lines() {
        let (wanted, text) = line.split_once(": ").ok_or("no colon")?;
        let said = fault_of(alloc, text, with_params)?;
        assert_eq!(rt; said.as_str(), wanted, "{text}");
    }
    Ok(())
}

/// What a text is refused for.
fn fault_of(alloc: Global, text: &str, with_params: bool) -> Result<String, Fail> {
    match parse(alloc, text, &features(alloc)?, with_params) {
        Ok(_statements) => Ok(format!(in alloc; "no fault")?),
        Err(why) => Ok(format!(in alloc; "{why}")?),
    }
}

/// Reserved words that stand for no query by themselves. None is a table's name.
const RESERVED: &str =
    "alter and as begin commit create delete except false from insert into join none not on \
    or rollback set true union update values when where";

/// Those that begin one, behind which something is missing, and the one that is one.
const BEGINNINGS: &str = "choice select";

#[test]
fn a_reserved_word_is_no_table(rt: HostRuntime) -> Result<(), Fail> {
    let alloc = rt.alloc();
    are_refused_words(&rt, alloc, RESERVED, "syntax error at character 9", 25)?;
    are_refused_words(&rt, alloc, BEGINNINGS, "syntax error at character 15", 2)?;
    are_refused_words(&rt, alloc, "empty altar", "no fault", 2)
}

fn are_refused_words(
    rt: &impl Abort,
    alloc: Global,
    words: &str,
    wanted: &str,
    count: usize,
) -> Result<(), Fail> {
    assert_eq!(rt; words.split(' ').count(), count);
    for word in words.split(' ') {
        is_refused_behind(rt, alloc, word, wanted)?;
    }
    Ok(())
}

/// Behind `union`, in small letters and in capitals.
fn is_refused_behind(rt: &impl Abort, alloc: Global, word: &str, wanted: &str) -> Result<(), Fail> {
    let mut text = format!(in alloc; "t union {word};")?;
    let said = fault_of(alloc, text.as_str(), false)?;
    assert_eq!(rt; said.as_str(), wanted, "{text}");
    text.make_ascii_uppercase();
    let said = fault_of(alloc, text.as_str(), false)?;
    assert_eq!(rt; said.as_str(), wanted, "{text}");
    Ok(())
}

/// Texts with white space at their end, several lines or other letters, and what they are refused for.
const PLACES: [(&str, &str); 3] = [
    (
        "select id from emp where id = 1 or  ",
        "syntax error at character 37",
    ),
    (
        "select id from emp where (id = 1 -- open\n",
        "syntax error at character 42",
    ),
    (
        "-- é\nselect * from emp where name = 'é' name",
        "syntax error at character 41",
    ),
];

#[test]
fn a_place_counts_characters(rt: HostRuntime) -> Result<(), Fail> {
    for (text, wanted) in PLACES {
        let said = fault_of(rt.alloc(), text, false)?;
        assert_eq!(rt; said.as_str(), wanted, "{text}");
    }
    Ok(())
}

/// The place of the 65th level, what stands before the brackets, what opens a level, what stands inside the innermost one,
/// and what closes a level.
const NESTED: &str = "\
65||(|emp|)
281|select * from emp where |not |true|
89|select * from emp where |(|true|)
278|delete from emp when |not |A|
";

#[test]
fn nesting_ends_at_64(rt: HostRuntime) -> Result<(), Fail> {
    let alloc = rt.alloc();
    for line in NESTED.lines() {
        let (place, parts) = line.split_once('|').ok_or("no place")?;
        let wanted = format!(in alloc; "nesting is too deep at character {place}")?;
        is_nested(&rt, alloc, parts, 64, "no fault")?;
        is_nested(&rt, alloc, parts, 65, wanted.as_str())?;
    }
    Ok(())
}

fn is_nested(
    rt: &impl Abort,
    alloc: Global,
    parts: &str,
    depth: usize,
    wanted: &str,
) -> Result<(), Fail> {
    let text = nested(alloc, parts, depth)?;
    let said = fault_of(alloc, text.as_str(), false)?;
    assert_eq!(rt; said.as_str(), wanted, "{text}");
    Ok(())
}

/// The text that opens and closes so many levels.
fn nested(alloc: Global, parts: &str, depth: usize) -> Result<String, Fail> {
    let (before, rest) = parts.split_once('|').ok_or("nothing before")?;
    let (open, rest) = rest.split_once('|').ok_or("nothing opens")?;
    let (inside, close) = rest.split_once('|').ok_or("nothing inside")?;
    let opened = open.repeat(alloc, depth)?;
    let closed = close.repeat(alloc, depth)?;
    Ok(format!(in alloc; "{before}{opened}{inside}{closed}")?)
}
