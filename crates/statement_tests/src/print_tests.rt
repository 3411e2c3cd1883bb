//! Texts with more brackets, white space and letters than are needed, and how their statements are printed.

use crate::printed::{features, printed};
use query_parser::parse;
use std::alloc::Global;
use std::process::Abort;
use std::test::Fail;

/// Texts of several statements or of none, and how they are printed.
const TEXTS: [(&str, &str); 8] = [
    ("", ""),
    (" ;-- nothing;\n; ", ""),
    ("BEGIN", "begin"),
    (
        "begin transaction;; Commit WORK; rollback;",
        "begin; commit; rollback",
    ),
    (
        "set datestyle to iso; SET a = 'b'; set select TO -5; set to = to",
        "set x to 0; set x to 0; set x to 0; set x to 0",
    ),
    ("T;(u)", "t; u"),
    (
        "delete from t; delete from t where a = t.b when A",
        "delete from t; delete from t where a = t.b when A",
    ),
    (
        "begin; update t set a = $1; commit",
        "begin; update t set a = $1; commit",
    ),
];

#[test]
fn texts_are_printed(rt: HostRuntime) -> Result<(), Fail> {
    for (text, wanted) in TEXTS {
        is_printed(&rt, rt.alloc(), text, wanted)?;
    }
    Ok(())
}

/// A query and how it is printed, a line each.
const QUERIES: &str = "\
(t) => t
((EMPTY)) => empty
select * from t where true => select * from t
select * from (t) where (x = 1) => select * from t where x = 1
(select * from t where (false)) => select * from t where false
select x, a.Y as z, w when (not (A)) from t => select x, a.y as z, w when not A from t
select a.x as b.y when (true) from t => select a.x as b.y when true from t
select A.x as z when A or B, y from t => select a.x as z when A or B, y from t
select work from transaction where to > work => select work from transaction where to > work
(t) union (u) => t union u
t except (empty) => t except empty
(t union u) except v => t union u except v
(t except u) union v => t except u union v
t union (u except (v)) => t union (u except v)
(t) union (u union v) => t union (u union v)
t except ((u union v)) => t except (u union v)
((t union u) except empty) union (v except w) => t union u except empty union (v except w)
(select * from t) union u => select * from t union u
t union (select * from u where x = 1) => t union select * from u where x = 1
t except ((select * from u) union v) => t except (select * from u union v)
(t union (select * from u)) union v => t union select * from u union v
select * from ((select * from (t))) => select * from (select * from t)
select * from (((t) union u)) => select * from (t union u)
select * from (empty) => select * from empty
choice[A]((t), (u)) => choice [A] (t, u)
choice [A] ((t union u), (select * from v)) => choice [A] (t union u, select * from v)
(choice [A] (t, u)) union v => choice [A] (t, u) union v
select * from (choice [A] (t, u)) where x = 1 => select * from choice [A] (t, u) where x = 1
choice [(A) and B] (t, choice [B] (empty, (select * from u))) => choice [A and B] (t, choice [B] (empty, select * from u))
";

#[test]
fn queries_are_printed(rt: HostRuntime) -> Result<(), Fail> {
    are_printed(&rt, rt.alloc(), "", QUERIES)
}

/// The same of selects with aliases and joins.
const SOURCES: &str = "\
select * from (t) as n => select * from t as n
select * from ((t union u)) as n => select * from (t union u) as n
select * from ((select * from t where x = 1)) as n => select * from (select * from t where x = 1) as n
select * from (choice [A] (t, u)) as n => select * from choice [A] (t, u) as n
select * from (empty) as n => select * from empty as n
select * from (t) join (u) on (x = 1) => select * from t join u on x = 1
select * from t join u on (true) where x = 1 => select * from t join u on true where x = 1
select * from t join u on x = 1 join (v) on x != 2 => select * from t join u on x = 1 join v on x <> 2
select * from (t) as n join (u) as n on true => select * from t as n join u as n on true
select * from t join ((u union v)) on true => select * from t join (u union v) on true
select * from ((select * from t)) join u on true => select * from (select * from t) join u on true
select x, w when not A from t join ((u except v)) as n on true => select x, w when not A from t join (u except v) as n on true
select * from (t) as a join (t union u) as b on a.x = b.x join v on true => select * from t as a join (t union u) as b on a.x = b.x join v on true
";

#[test]
fn sources_are_printed(rt: HostRuntime) -> Result<(), Fail> {
    are_printed(&rt, rt.alloc(), "", SOURCES)
}

/// The same of writes.
const WRITES: &str = "\
delete from T where true when true => delete from t
delete from t when (A and (not A)) => delete from t when A and not A
delete from t where (x = 1 or x <> 2) when A and not (A or B) => delete from t where x = 1 or x <> 2 when A and not (A or B)
insert into T (a,B) values (1,'x'),($2,TRUE) when true => insert into t (a, b) values (1, 'x'), ($2, true)
insert into t (a, b) values (-1, ''), (2, false) when A and B => insert into t (a, b) values (-1, ''), (2, false) when A and B
update t set a = 1, b = '''' where true => update t set a = 1, b = ''''
update t set a=1,b='''' where (x=1) when (A) and (not A) => update t set a = 1, b = '''' where x = 1 when A and not A
";

#[test]
fn writes_are_printed(rt: HostRuntime) -> Result<(), Fail> {
    are_printed(&rt, rt.alloc(), "", WRITES)
}

/// The same of conditions behind `delete from t where`.
const CONDITIONS: &str = "\
((x = 1 and x <> 2) and x < 3) => x = 1 and x <> 2 and x < 3
x = 1 and (x <> 2 and x < 3) => x = 1 and (x <> 2 and x < 3)
(x = 1 or x <> 2) or x < 3 => x = 1 or x <> 2 or x < 3
x = 1 or (x <> 2 or x < 3) => x = 1 or (x <> 2 or x < 3)
(x = 1 and x <> 2) or x < 3 => x = 1 and x <> 2 or x < 3
x = 1 or (x <> 2 and x < 3) => x = 1 or x <> 2 and x < 3
((x = 1) or x <> 2) and x < 3 => (x = 1 or x <> 2) and x < 3
x = 1 and ((x <> 2 or x < 3)) => x = 1 and (x <> 2 or x < 3)
not (x = 1) => not x = 1
not (not (x = 1)) => not not x = 1
not ((x = 1 and x <> 2)) => not (x = 1 and x <> 2)
not (x = 1 or x <> 2) => not (x = 1 or x <> 2)
(not x = 1) and x <> 2 => not x = 1 and x <> 2
x = 1 or (not x <> 2) => x = 1 or not x <> 2
choice[A]((x <= 4), (x > 5)) => choice [A] (x <= 4, x > 5)
not (choice [A] ((x = 1 or x <> 2), (x < 3 and x <= 4))) => not choice [A] (x = 1 or x <> 2, x < 3 and x <= 4)
(choice [not A] (x >= 6, x = 1)) and x = 1 => choice [not A] (x >= 6, x = 1) and x = 1
not (true) => not true
(true) and (false) => true and false
(A.x = 'it''s') => a.x = 'it''s'
$1 = $1024 => $1 = $1024
(TRUE = False) => true = false
x = -9223372036854775808 => x = -9223372036854775808
(a.x = 'it''s') or ($1 = $1024) => a.x = 'it''s' or $1 = $1024
true = x and (true or -1 != false) => true = x and (true or -1 <> false)
x <= 1 or (y >= $2 and not not z <> '') and false => x <= 1 or y >= $2 and not not z <> '' and false
";

#[test]
fn conditions_are_printed(rt: HostRuntime) -> Result<(), Fail> {
    are_printed(&rt, rt.alloc(), "delete from t where ", CONDITIONS)
}

fn are_printed(rt: &impl Abort, alloc: Global, before: &str, table: &str) -> Result<(), Fail> {
    for line in table.lines() {
        let (text, wanted) = line.split_once(" => ").ok_or("no arrow")?;
        let text = format!(in alloc; "{before}{text}")?;
        let wanted = format!(in alloc; "{before}{wanted}")?;
        is_printed(rt, alloc, text.as_str(), wanted.as_str())?;
    }
    Ok(())
}

/// What is printed is read again, and printed as it was.
fn is_printed(rt: &impl Abort, alloc: Global, text: &str, wanted: &str) -> Result<(), Fail> {
    let features = features(alloc)?;
    let statements = parse(alloc, text, &features, true)?;
    assert_eq!(rt; printed(alloc, &statements, &features)?.as_str(), wanted);
    let again = parse(alloc, wanted, &features, true)?;
    assert_eq!(rt; printed(alloc, &again, &features)?.as_str(), wanted);
    Ok(())
}
