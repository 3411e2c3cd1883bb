//! Worked examples: what each query is in each variant.

use crate::evaluated::{query, shown};
use std::alloc::Global;
use std::process::Abort;
use std::test::Fail;
use vschema::parse_catalog;

/// A line with `=` begins a catalogue and one with `+` adds to it, a line with `?` is a query over it, and each line
/// behind that says what the query has in one variant, which goes by its features: its columns and then its rows, or the
/// cases that make it ill; behind `untyped` what it would be if nothing were asked of its conditions, where a comparison is
/// false that isn't possible. `possible` stands for the possible columns, and `names` for the faults that hold in all
/// variants.
const EMPLOYEES: &str = "\
= features A, B; model A or B;
+ table emp (id int8, name text, pay int8 when A); table dept (id int8, title text) when B;
+ row emp (id 1, name 'ann', pay 10); row emp (id 2, name 'bob', pay 20) when A;
+ row emp (id 3, name 'cy') when not A; row dept (id 7, title 'ops');
? emp
possible: id int8, name text, pay int8
names: -
A: id int8, name text, pay int8 | 1 ann 10 | 2 bob 20
B: id int8, name text | 1 ann | 3 cy
A,B: id int8, name text, pay int8 | 1 ann 10 | 2 bob 20
? select * from dept where id > 0
possible: id int8, title text
A: -
B: id int8, title text | 7 ops
A,B: id int8, title text | 7 ops
? select * from emp where pay > 0
names: -
A: id int8, name text, pay int8 | 1 ann 10 | 2 bob 20
B: AbsentColumn pay
? select * from emp where choice [A] (pay > 0, false)
A: id int8, name text, pay int8 | 1 ann 10 | 2 bob 20
B: id int8, name text
? choice [A] (select id as x from emp, select name as x from emp)
possible: x int8, x text
A: x int8 | 1 | 2
B: x text | ann | cy
A,B: x int8 | 1 | 2
? select id, pay from emp union select id, pay when A and not B from emp
possible: id int8, pay int8
A: id int8, pay int8 | 1 10 | 2 20
B: id int8 | 1 | 3
A,B: ColumnsDiffer id
? select e.name, d.title from emp as e join dept as d on e.id = d.id
possible: e.name text, d.title text
A: -
B: e.name text, d.title text
? select * from emp join dept on true
possible: id int8, name text, pay int8, title text
A: -
B: Twice id
A,B: Twice id
? select pay when A from emp
A: pay int8 | 10 | 20
B: -
? select pay when B from emp
A: -
B: AbsentColumn pay
A,B: pay int8 | 10 | 20
? choice [A or B] (emp, select * from emp where pay > 'x')
names: -
A: id int8, name text, pay int8 | 1 ann 10 | 2 bob 20
B: id int8, name text | 1 ann | 3 cy
";

#[test]
fn requested_examples_are_as_they_are_told(rt: HostRuntime) -> Result<(), Fail> {
    are_shown(&rt, rt.alloc(), EMPLOYEES)
}

/// More queries over the same catalogue, worked out from the definitions.
const MORE: &str = "\
= features A, B; model A or B;
+ table emp (id int8, name text, pay int8 when A); table dept (id int8, title text) when B;
+ table gone (z int8) when not A and not B; table bare (k int8);
+ row emp (id 1, name 'ann', pay 10); row emp (id 2, name 'bob', pay 20) when A;
+ row emp (id 3, name 'cy') when not A; row dept (id 7, title 'ops'); row gone (z 1);
? emp union dept
possible: id int8, name text, pay int8, title text
A: id int8, name text, pay int8 | 1 ann 10 | 2 bob 20
B: ColumnsDiffer id
? dept union select id, name as title from emp
A: id int8, title text | 1 ann | 2 bob
B: id int8, title text | 1 ann | 3 cy | 7 ops
A,B: id int8, title text | 1 ann | 2 bob | 7 ops
? dept except emp
possible: id int8, title text
A: -
B: ColumnsDiffer id
? emp except dept
A: id int8, name text, pay int8 | 1 ann 10 | 2 bob 20
? empty except emp
possible: -
A: -
B: -
? emp except empty
B: id int8, name text | 1 ann | 3 cy
? emp union emp except emp
A: id int8, name text, pay int8
B: id int8, name text
? select id from emp except select id from emp where id = 1
A: id int8 | 2
B: id int8 | 3
? select id, name from emp union select name, id from emp where false
A: id int8, name text | 1 ann | 2 bob
? select id as x from emp union select name as x from emp
possible: x int8, x text
A: ColumnsDiffer x
? choice [A] (dept, empty)
possible: id int8, title text
A: -
B: -
A,B: id int8, title text | 7 ops
? select id as x when A, name as x when not A from emp
possible: x int8, x text
A: x int8 | 1 | 2
B: x text | ann | cy
? select id as x when A, id as x when B from emp
possible: x int8
A: x int8 | 1 | 2
B: x int8 | 1 | 3
A,B: Twice x
? select pay as x, id as x when not A from emp
A: x int8 | 10 | 20
B: x int8 | 1 | 3
? select id, id from emp
B: Twice id
? select id, pay when A and B from emp
A: id int8 | 1 | 2
B: id int8 | 1 | 3
A,B: id int8, pay int8 | 1 10 | 2 20
? select id as name, name as id from emp
possible: name int8, id text
A: name int8, id text | 1 ann | 2 bob
? select * from (select * from emp as e join dept as d on true) as z
possible: z.id int8, z.name text, z.pay int8, z.title text
A: -
B: Twice z.id
? select * from (select id as p.k when A, name as q.k when not A from emp) as z
possible: z.k int8, z.k text
A: z.k int8 | 1 | 2
B: z.k text | ann | cy
? select e.id from emp as e where e.id > 1
A: e.id int8 | 2
B: e.id int8 | 3
? select id from emp as e
names: NoColumn id
A: -
? select id from emp where id = 1 or pay = 20
A: id int8 | 1 | 2
B: AbsentColumn pay
? select id from emp where choice [B] (true, pay > 10)
A: id int8 | 2
B: id int8 | 1 | 3
A,B: id int8 | 1 | 2
? select name from emp where not (id = 1 and name = 'ann')
A: name text | bob
B: name text | cy
? gone
possible: z int8
A: -
? select z from gone where z = 'x' or z = 1
names: -
B: -
? gone union select id as z from emp
A: z int8 | 1 | 2
? bare
A: k int8
? select * from bare join emp on k = id
A: k int8, id int8, name text, pay int8
? bare except select id as k from emp
B: k int8
? select id as k from emp except bare
B: k int8 | 1 | 3
? select id from emp where id <> name
names: -
A: KindsDiffer id
untyped A: id int8
? select id from emp where not id = name
untyped A: id int8 | 1 | 2
? select id from emp where not (pay <> 1 or pay >= 0)
A: id int8
B: AbsentColumn pay
untyped B: id int8 | 1 | 3
? select id from emp where 1 <> name and true = false
B: KindsDiffer 
? select id from emp where name = $2 or id = $1
names: -
A: id int8 | 1
? select id from emp where $3 <> true or name < $1
A: KindsDiffer name
? select id from emp where id = $4 or choice [A] (true, $5 = 1)
names: ParamKind(4) , ParamKind(5) 
? nope
possible: -
names: NoTable nope
A: -
? select z from emp where choice [A] (true, y = 1)
names: NoColumn z, NoColumn y
A: -
B: AbsentColumn y
? select * from (select id, id from emp) as a join (select name, name from emp) as b on q = 1
names: NoColumn q
A: Twice id, Twice name
? select * from (select id as k from emp) join (select name as k from emp) on k = 1
possible: k int8, k text
names: -
A: Twice k, KindsDiffer k
? select * from nope join emp on w = 1
names: NoTable nope, NoColumn w
A: -
";

#[test]
fn queries_are_as_they_are_worked_out(rt: HostRuntime) -> Result<(), Fail> {
    are_shown(&rt, rt.alloc(), MORE)
}

/// Queries over other catalogues.
const OTHERS: &str = "\
= features A, B; model A or B; table l (x int8); table r (x int8); row l (x 5) when A; row r (x 5) when B;
? l except r
A: x int8 | 5
B: x int8
A,B: x int8
? l union r
A: x int8 | 5
B: x int8 | 5
A,B: x int8 | 5
? l except l
A: x int8
= features A; table l (a int8, x int8 when A); table r (b int8, x int8 when not A); row l (a 1, x 5); row r (b 2, x 7);
? select * from l join r on true
possible: a int8, x int8, b int8
A: a int8, x int8, b int8 | 1 5 2
none: a int8, x int8, b int8 | 1 7 2
? select a, b from l join r on x > 5
A: a int8, b int8
none: a int8, b int8 | 1 2
? select * from l join (select x from r) as s on true
A: -
none: a int8, s.x int8 | 1 7
? select * from l join l on true
A: Twice a, Twice x
= features A; table f (b bool, t text, k int8);
+ row f (b false, t 'B', k -2); row f (b true, t 'a', k 10) when A; row f (b true, t '', k -2);
? select t from f where b < true
A: t text | B
? select k from f where t < 'a'
A: k int8 | -2
? select t from f where k > -3 and k <= -2 and t <> ''
none: t text | B
? select k from f where b >= true
A: k int8 | -2 | 10
none: k int8 | -2
? select t, k from f where k = 10 or k != -2 or t = 'B'
A: t text, k int8 | B -2 | a 10
";

#[test]
fn other_catalogues_are_as_they_are_worked_out(rt: HostRuntime) -> Result<(), Fail> {
    are_shown(&rt, rt.alloc(), OTHERS)
}

fn are_shown(rt: &impl Abort, alloc: Global, cases: &str) -> Result<(), Fail> {
    let mut catalogue = String::new(alloc);
    let mut text = String::new(alloc);
    for line in cases.lines() {
        if let Some(begun) = line.strip_prefix("= ") {
            catalogue = format!(in alloc; "{begun}")?;
        } else if let Some(more) = line.strip_prefix("+") {
            catalogue.push_str(more)?;
        } else if let Some(query) = line.strip_prefix("? ") {
            text = format!(in alloc; "{query}")?;
        } else if let Some((word, wanted)) = line.split_once(": ") {
            is_shown(rt, alloc, catalogue.as_str(), text.as_str(), word, wanted)?;
        }
    }
    Ok(())
}

fn is_shown(
    rt: &impl Abort,
    alloc: Global,
    catalogue: &str,
    text: &str,
    word: &str,
    wanted: &str,
) -> Result<(), Fail> {
    let (catalog, rows) = parse_catalog(alloc, catalogue.as_bytes())?;
    let query = query(alloc, text, &catalog.features)?;
    let got = shown(alloc, &catalog, &rows, query, word)?;
    assert_eq!(rt; got.as_str(), wanted, "{text} in {word}");
    Ok(())
}
