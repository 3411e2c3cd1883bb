use crate::bind_tests::{bound, copied};
use crate::printed::features;
use query_parser::parse;
use std::alloc::Global;
use std::process::Abort;
use std::test::Fail;
use vra_syntax::param_count;

/// How many links the chains have.
const LINKS: usize = 150_000;

/// The greatest parameter of a chain, what it begins with, and each of its links.
const CHAINS: &str = "\
4: select * from t where x < $4 | union select * from u where x < $1
0: t | except u
1: select * from t | join u on x < $1
4: delete from t where x < $4 | or x < $1
1: delete from t where true | and x < $1
";

/// Chains are read, counted, copied, bound, printed and dropped without a stack frame for each link.
#[test]
fn a_long_chain_takes_no_stack(rt: HostRuntime) -> Result<(), Fail> {
    let alloc = rt.alloc();
    for line in CHAINS.lines() {
        let (greatest, chain) = line.split_once(": ").ok_or("no colon")?;
        let (first, link) = chain.split_once(" |").ok_or("no link")?;
        let links = link.repeat(alloc, LINKS)?;
        let text = format!(in alloc; "{first}{links}")?;
        is_chain(&rt, alloc, greatest.parse()?, text.as_str())?;
    }
    Ok(())
}

fn is_chain(rt: &impl Abort, alloc: Global, greatest: u16, text: &str) -> Result<(), Fail> {
    let features = features(alloc)?;
    let statements = parse(alloc, text, &features, true)?;
    let statement = statements.get(0).ok_or("no statement")?;
    assert_eq!(rt; param_count(statement), greatest);
    assert!(rt; copied(alloc, statement, &features)?.as_slice() == text.as_bytes());
    let wanted = with_values(alloc, text)?;
    assert!(rt; bound(alloc, statement, &features)?.as_slice() == wanted.as_bytes());
    Ok(())
}

fn with_values(alloc: Global, text: &str) -> Result<String, Fail> {
    let text = text.replace(alloc, "$4", "40")?;
    Ok(text.as_str().replace(alloc, "$1", "10")?)
}
