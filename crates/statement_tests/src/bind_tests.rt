use crate::printed::features;
use feature_expr::{Features, List, Text, TryCopy, Value};
use query_parser::{parse, print_statement};
use std::alloc::Global;
use std::process::Abort;
use std::test::Fail;
use vra_syntax::{Statement, bind_params, param_count};

/// The greatest parameter of a statement, the statement, and what the values 10, 'b', true and 40 make of it.
const CASES: &str = "\
0: begin => begin
0: commit => commit
0: rollback => rollback
0: set x to 0 => set x to 0
0: t => t
0: empty => empty
1: select * from t where x < $1 => select * from t where x < 10
2: select a.x, y as z when A from t where x < $2 and not y < $1 => select a.x, y as z when A from t where x < 'b' and not y < 10
4: select * from (select * from t where x < $3) where choice [not A] (x < $1, x < $4 or y < $2) => select * from (select * from t where x < true) where choice [not A] (x < 10, x < 40 or y < 'b')
3: select * from (select * from t where x < $2) as a join (select * from u where y < $3) on x < $1 => select * from (select * from t where x < 'b') as a join (select * from u where y < true) on x < 10
4: choice [A] (t union select * from u where x < $4, select * from t where x < $1 except empty) => choice [A] (t union select * from u where x < 40, select * from t where x < 10 except empty)
1: select * from t where $1 <> $1 => select * from t where 10 <> 10
7: select * from t where x < $7 or true and x < $5 => select * from t where x < $7 or true and x < $5
4: insert into t (x, y) values ($4, 5), (6, $2) when not A => insert into t (x, y) values (40, 5), (6, 'b') when not A
3: delete from t where false or x < $3 when A => delete from t where false or x < true when A
4: update t set x = $4, y = 'k' where y < $1 => update t set x = 40, y = 'k' where y < 10
2: update t set x = 5, y = $1 where y < $2 when A => update t set x = 5, y = 10 where y < 'b' when A
";

#[test]
fn exactly_the_parameters_are_replaced(rt: HostRuntime) -> Result<(), Fail> {
    for line in CASES.lines() {
        let (greatest, case) = line.split_once(": ").ok_or("no colon")?;
        let (text, wanted) = case.split_once(" => ").ok_or("no arrow")?;
        is_bound(&rt, rt.alloc(), greatest.parse()?, text, wanted)?;
    }
    Ok(())
}

fn is_bound(
    rt: &impl Abort,
    alloc: Global,
    greatest: u16,
    text: &str,
    wanted: &str,
) -> Result<(), Fail> {
    let features = features(alloc)?;
    let statements = parse(alloc, text, &features, true)?;
    let statement = statements.get(0).ok_or("no statement")?;
    assert_eq!(rt; param_count(statement), greatest, "in {text}");
    assert!(rt;
        copied(alloc, statement, &features)?.as_slice() == text.as_bytes(),
        "{text}"
    );
    assert!(rt;
        bound(alloc, statement, &features)?.as_slice() == wanted.as_bytes(),
        "{wanted}"
    );
    Ok(())
}

/// A copy as it is printed.
pub fn copied(alloc: Global, statement: &Statement, features: &Features) -> Result<Text, Fail> {
    Ok(print_statement(alloc, &statement.copy(alloc)?, features)?)
}

/// What the values make of a statement, as it is printed.
pub fn bound(alloc: Global, statement: &Statement, features: &Features) -> Result<Text, Fail> {
    let bound = bind_params(alloc, statement, &values(alloc)?)?;
    Ok(print_statement(alloc, &bound, features)?)
}

/// The values of the parameters 1 to 4.
fn values(alloc: Global) -> Result<List<Value>, Fail> {
    let mut values = Vec::new(alloc);
    values.push(Value::Int(10))?;
    values.push(Value::Text(Text::from_slice(alloc, b"b")?))?;
    values.push(Value::Bool(true))?;
    values.push(Value::Int(40))?;
    Ok(List::from_vec(values))
}
