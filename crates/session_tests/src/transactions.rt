//! Transactions of two sessions over one store.

ghost use Rattle.std.specs.Prelude.{◌≡◌};
ghost use Rattle.session_transactions.specs.Goings.{FitsStore, IsBeside};
ghost use Rattle.session_transactions.specs.declared.transaction.Transaction.{Transaction};

use crate::client::{open, send, store_over};
use crate::texts::texts_told;
use commit_log::{FailingLog, Keeper, OwnLog};
use feature_expr::List;
use session_poll::Session;
use snapshot_store::Store;
use std::alloc::Global;
use std::test::Fail;

const CATALOGUE: &[u8] =
    b"features A, B;\nmodel A or B;\ntable emp (id int8, name text, pay int8 when A);\ntable dept (id int8, title text) when B;\nrow emp (id 1, name 'ann', pay 10);\nrow emp (id 2, name 'bob', pay 20) when A;\nrow emp (id 3, name 'cy') when not A;\nrow dept (id 7, title 'ops');\n";

const START_UP: &[u8] = b"\x00\x00\x00\x10\x00\x03\x00\x00user\x00u\x00\x00";

/// Texts that one of the sessions sends, its letter before each, and what it is told, a line for each.
const PLAYS: [(&[&str], &str); 18] = [
    // Two blocks write one table.
    (
        &[
            "x begin;",
            "y begin;",
            "x insert into emp (id, name, pay) values (4, 'dee', 40);",
            "y insert into emp (id, name, pay) values (4, 'dee', 40);",
            "x commit;",
            "y commit;",
            "y select id from emp;",
        ],
        "vdb_snapshot, 0; BEGIN; ready T; \nvdb_snapshot, 0; BEGIN; ready T; \nINSERT 0 1; ready T; \nINSERT 0 1; ready T; \nvdb_commit, 1; COMMIT; ready; \nERROR, ERROR, 40001, table emp was written by commit 1; ready; \nvdb_snapshot, 1; id, when; 1, true; 2, A; 3, not A; 4, true; SELECT 4; ready; \n",
    ),
    // Two blocks write two tables, in variants that overlap.
    (
        &[
            "x begin; delete from emp",
            "y begin; delete from dept",
            "y commit",
            "x commit",
        ],
        "vdb_snapshot, 0; BEGIN; DELETE 3; ready T; \nvdb_snapshot, 0; BEGIN; DELETE 1; ready T; \nvdb_commit, 1; COMMIT; ready; \nvdb_commit, 2; COMMIT; ready; \n",
    ),
    // A snapshot stays while others commit.
    (
        &[
            "x begin",
            "x select id from dept",
            "y update dept set id = 8",
            "x select id from dept",
            "x commit; select id from dept",
        ],
        "vdb_snapshot, 0; BEGIN; ready T; \nid when B, when; 7, true; SELECT 1; ready T; \nvdb_snapshot, 0; vdb_commit, 1; UPDATE 1; ready; \nid when B, when; 7, true; SELECT 1; ready T; \nCOMMIT; vdb_snapshot, 1; id when B, when; 8, true; SELECT 1; ready; \n",
    ),
    // The number of a delete.
    (
        &["x delete from emp where id > 1;", "x select id from emp"],
        "vdb_snapshot, 0; vdb_commit, 1; DELETE 2; ready; \nvdb_snapshot, 1; id, when; 1, true; SELECT 1; ready; \n",
    ),
    // An update needs its column wherever it acts.
    (
        &[
            "x update emp set pay = 30 where id = 1;",
            "x update emp set pay = 30 where id = 1 when A;",
            "x select id, pay from emp where id = 1",
        ],
        "vdb_snapshot, 0; ERROR, ERROR, 42P10, column pay is absent in variant {B}; ready; \nvdb_snapshot, 0; vdb_commit, 1; UPDATE 1; ready; \nvdb_snapshot, 1; id, pay when A, when; 1, -, not A; 1, 30, A; SELECT 2; ready; \n",
    ),
    // So does an insert.
    (
        &[
            "x insert into emp (id, name) values (4, 'di');",
            "x insert into emp (id, name) values (4, 'di') when not A;",
            "x insert into emp (id, name, pay) values (5, 'ed', 1), (6, 'flo', 2) when A and not A",
            "x select id from emp where id > 3",
        ],
        "vdb_snapshot, 0; ERROR, ERROR, 23502, column pay has no value in variant {A,B}; ready; \nvdb_snapshot, 0; vdb_commit, 1; INSERT 0 1; ready; \nvdb_snapshot, 1; vdb_commit, 2; INSERT 0 0; ready; \nvdb_snapshot, 2; id, when; 4, not A; SELECT 1; ready; \n",
    ),
    // A block that has failed.
    (
        &[
            "x begin; delete from dept; employee; begin",
            "x emp;",
            "x begin",
            "x set a to b",
            "x ;",
            "x select from",
            "x commit; begin",
            "x rollback",
            "x dept",
        ],
        "vdb_snapshot, 0; BEGIN; DELETE 1; ERROR, ERROR, 42P01, table employee is not known; ready E; \nERROR, ERROR, 25P02, transaction has failed; ready E; \nERROR, ERROR, 25P02, transaction has failed; ready E; \nERROR, ERROR, 25P02, transaction has failed; ready E; \nempty; ready E; \nERROR, ERROR, 42601, syntax error, 8; ready E; \nROLLBACK; vdb_snapshot, 0; BEGIN; ready T; \nROLLBACK; ready; \nvdb_snapshot, 0; id when B, title when B, when; 7, ops, true; SELECT 1; ready; \n",
    ),
    // An error outside a block drops what its Query wrote.
    (
        &["x delete from dept; employee", "x select id from dept"],
        "vdb_snapshot, 0; DELETE 1; ERROR, ERROR, 42P01, table employee is not known; ready; \nvdb_snapshot, 0; id when B, when; 7, true; SELECT 1; ready; \n",
    ),
    // One that isn't run at all begins nothing.
    (
        &[
            "x delete from dept; select from",
            "x begin; select from",
            "x dept, dept",
        ],
        "ERROR, ERROR, 42601, syntax error, 26; ready; \nERROR, ERROR, 42601, syntax error, 15; ready; \nERROR, ERROR, 42601, syntax error, 5; ready; \n",
    ),
    // What a query of the block saw goes with ROLLBACK.
    (
        &[
            "x begin; insert into dept (id, title) values (8, 'it') when A",
            "x select id from dept",
            "x delete from dept where id = 7 when A",
            "x select id from dept",
            "x rollback",
            "x select id from dept",
        ],
        "vdb_snapshot, 0; BEGIN; INSERT 0 1; ready T; \nid when B, when; 7, true; 8, A; SELECT 2; ready T; \nDELETE 1; ready T; \nid when B, when; 7, not (A and B); 8, A; SELECT 2; ready T; \nROLLBACK; ready; \nvdb_snapshot, 0; id when B, when; 7, true; SELECT 1; ready; \n",
    ),
    // BEGIN in a block, and behind a statement; COMMIT and ROLLBACK without a block, and behind another.
    (
        &[
            "x begin; begin",
            "x commit; commit",
            "x commit",
            "x rollback; rollback",
            "x set a to b",
            "x delete from dept; begin; delete from emp",
            "x rollback",
            "x dept; commit; dept",
        ],
        "vdb_snapshot, 0; BEGIN; BEGIN; ready T; \nCOMMIT; vdb_snapshot, 0; COMMIT; ready; \nvdb_snapshot, 0; COMMIT; ready; \nvdb_snapshot, 0; ROLLBACK; vdb_snapshot, 0; ROLLBACK; ready; \nvdb_snapshot, 0; SET; ready; \nvdb_snapshot, 0; DELETE 1; BEGIN; DELETE 3; ready T; \nROLLBACK; ready; \nvdb_snapshot, 0; id when B, title when B, when; 7, ops, true; SELECT 1; COMMIT; vdb_snapshot, 0; id when B, title when B, when; 7, ops, true; SELECT 1; ready; \n",
    ),
    // Two commits of one Query.
    (
        &["x delete from dept; commit; delete from emp", "x emp"],
        "vdb_snapshot, 0; DELETE 1; vdb_commit, 1; COMMIT; vdb_snapshot, 1; vdb_commit, 2; DELETE 3; ready; \nvdb_snapshot, 2; id, name, pay when A, when; SELECT 0; ready; \n",
    ),
    // A conflict ends a Query at its COMMIT, and what is behind isn't run.
    (
        &[
            "x begin; delete from dept",
            "y delete from dept",
            "x commit; emp",
            "x begin",
            "y insert into dept (id, title) values (1, 'a')",
            "x dept; delete from dept",
            "x commit",
        ],
        "vdb_snapshot, 0; BEGIN; DELETE 1; ready T; \nvdb_snapshot, 0; vdb_commit, 1; DELETE 1; ready; \nERROR, ERROR, 40001, table dept was written by commit 1; ready; \nvdb_snapshot, 1; BEGIN; ready T; \nvdb_snapshot, 1; vdb_commit, 2; INSERT 0 1; ready; \nid when B, title when B, when; SELECT 0; DELETE 0; ready T; \nERROR, ERROR, 40001, table dept was written by commit 2; ready; \n",
    ),
    // The least place, and its first table in the order of the writes.
    (
        &[
            "x begin; delete from dept; delete from emp",
            "y delete from emp where id = 9",
            "y delete from dept",
            "x commit",
        ],
        "vdb_snapshot, 0; BEGIN; DELETE 1; DELETE 3; ready T; \nvdb_snapshot, 0; vdb_commit, 1; DELETE 0; ready; \nvdb_snapshot, 1; vdb_commit, 2; DELETE 1; ready; \nERROR, ERROR, 40001, table emp was written by commit 1; ready; \n",
    ),
    // A write that acts in no variant is one all the same.
    (
        &[
            "x begin; delete from emp when A and not A",
            "y delete from emp when A and not A",
            "x commit",
        ],
        "vdb_snapshot, 0; BEGIN; DELETE 0; ready T; \nvdb_snapshot, 0; vdb_commit, 1; DELETE 0; ready; \nERROR, ERROR, 40001, table emp was written by commit 1; ready; \n",
    ),
    // A block that only read is never in conflict.
    (
        &["x begin; dept", "y delete from dept", "x commit"],
        "vdb_snapshot, 0; BEGIN; id when B, title when B, when; 7, ops, true; SELECT 1; ready T; \nvdb_snapshot, 0; vdb_commit, 1; DELETE 1; ready; \nCOMMIT; ready; \n",
    ),
    // Each write is over those before it.
    (
        &[
            "x begin; update emp set id = 5 where id = 1 when A",
            "x update emp set id = 6 where id = 5",
            "x delete from emp where id = 1",
            "x select id, name from emp",
            "x commit",
        ],
        "vdb_snapshot, 0; BEGIN; UPDATE 1; ready T; \nUPDATE 1; ready T; \nDELETE 1; ready T; \nid, name, when; 2, bob, A; 3, cy, not A; 6, ann, A; SELECT 3; ready T; \nvdb_commit, 1; COMMIT; ready; \n",
    ),
    // Names and kinds of writes.
    (
        &[
            "x insert into employee (id) values (1)",
            "x insert into emp (id, nick) values (1, 'a')",
            "x insert into emp (id, id) values (1, 2)",
            "x update emp set name = 3",
            "x delete from emp where nick = 1",
        ],
        "vdb_snapshot, 0; ERROR, ERROR, 42P01, table employee is not known; ready; \nvdb_snapshot, 0; ERROR, ERROR, 42703, column nick is not known; ready; \nvdb_snapshot, 0; ERROR, ERROR, 42701, column id is named twice; ready; \nvdb_snapshot, 0; ERROR, ERROR, 42804, value of column name has another kind; ready; \nvdb_snapshot, 0; ERROR, ERROR, 42703, column nick is not known; ready; \n",
    ),
];

#[test]
fn transactions_are_told_step_by_step(rt: HostRuntime) -> Result<(), Fail> {
    for (steps, wanted) in PLAYS {
        let told = played(rt.alloc(), OwnLog::new(rt.alloc(), 100), steps)?;
        assert_eq!(rt; told.as_str(), wanted);
    }
    Ok(())
}

/// Each writes once more than the log holds.
#[test]
fn a_full_log_refuses_a_commit(rt: HostRuntime) -> Result<(), Fail> {
    let told = played(
        rt.alloc(),
        OwnLog::new(rt.alloc(), 1),
        &[
            "x delete from dept",
            "x delete from emp",
            "x select id from emp",
        ],
    )?;
    assert_eq!(rt;
        told.as_str(),
        "vdb_snapshot, 0; vdb_commit, 1; DELETE 1; ready; \nvdb_snapshot, 1; ERROR, ERROR, 54000, the log holds 1 commits; ready; \nvdb_snapshot, 1; id, when; 1, true; 2, A; 3, not A; SELECT 3; ready; \n"
    );
    Ok(())
}

/// The keeper fails at its call 4, the second commit, and at its call 8, the begin of the fourth Query.
#[test]
fn a_fault_of_the_keeper_ends_a_query(rt: HostRuntime) -> Result<(), Fail> {
    let failing = List::from_slice(rt.alloc(), &[4, 7]).map_err(|_| "memory")?;
    let told = played(
        rt.alloc(),
        FailingLog::new(rt.alloc(), 100, failing),
        &[
            "x delete from dept",
            "x delete from emp",
            "x delete from emp where id = 1",
            "x emp",
            "x select id from emp",
        ],
    )?;
    assert_eq!(rt;
        told.as_str(),
        "vdb_snapshot, 0; vdb_commit, 1; DELETE 1; ready; \nvdb_snapshot, 1; ERROR, ERROR, 58030, keeper failed; ready; \nvdb_snapshot, 1; vdb_commit, 2; DELETE 1; ready; \nERROR, ERROR, 58030, keeper failed; ready; \nvdb_snapshot, 2; id, when; 2, A; 3, not A; SELECT 2; ready; \n"
    );
    Ok(())
}

/// What two sessions over a log are told, a line for each text.
#[tactic(auto, using(crate::proofs::ClientLaws::idle_beside))]
fn played<K: Keeper + Drop>(alloc: Global, log: K, steps: &[&str]) -> Result<String, Fail> {
    let mut store = store_over(alloc, CATALOGUE, log)?;
    let mut x = open(alloc)?;
    let mut y = open(alloc)?;
    play(alloc, &mut x, &mut y, &mut store, steps)
}

fn play<K: Keeper>(
    alloc: Global,
    x: &mut Session,
    y: &mut Session,
    store: &mut Store<K>,
    steps: &[&str],
) -> Result<String, Fail>
    requires x { FitsStore x.old.transaction store.old }
    requires y { FitsStore y.old.transaction store.old }
    requires beside_x { IsBeside x.old.transaction y.old.transaction store.old }
    requires beside_y { IsBeside y.old.transaction x.old.transaction store.old }
{
    let mut told = String::new(alloc);
    let starts = ["x start", "y start"];
    'starts: for step in starts {
        take_turn(alloc, x, y, store, step, &mut told)?;
    }
    'steps: for step in steps {
        take_turn(alloc, x, y, store, step, &mut told)?;
    }
    Ok(told)
}

/// One of the sessions is asked.
#[tactic(auto, using(crate::proofs::ClientLaws::beside_swapped))]
fn take_turn<K: Keeper>(
    alloc: Global,
    x: &mut Session,
    y: &mut Session,
    store: &mut Store<K>,
    step: &str,
    told: &mut String,
) -> Result<(), Fail>
    requires x { FitsStore x.old.transaction store.old }
    requires y { FitsStore y.old.transaction store.old }
    requires beside_x { IsBeside x.old.transaction y.old.transaction store.old }
    requires beside_y { IsBeside y.old.transaction x.old.transaction store.old }
    ensures x { FitsStore x.new.transaction store.new }
    ensures y { FitsStore y.new.transaction store.new }
    ensures beside_x { IsBeside x.new.transaction y.new.transaction store.new }
    ensures beside_y { IsBeside y.new.transaction x.new.transaction store.new }
{
    let Some((who, text)) = step.split_at_checked(2) else {
        return Err("a step")?;
    };
    if who == "x " {
        ask(alloc, x, store, text, told)
    } else {
        ask(alloc, y, store, text, told)
    }
}

/// Sends a text, and adds the line of what is told; `start` sends a start-up, of which nothing is told.
fn ask<K: Keeper>(
    alloc: Global,
    session: &mut Session,
    store: &mut Store<K>,
    text: &str,
    told: &mut String,
) -> Result<(), Fail>
    requires { FitsStore session.old.transaction store.old }
    ensures fits { FitsStore session.new.transaction store.new }
    ensures beside { (other : Transaction) → IsBeside session.old.transaction other store.old → IsBeside session.new.transaction other store.new }
{
    let packet = packet(alloc, text.as_bytes())?;
    if text == "start" {
        send(alloc, session, store, START_UP, 4_096)?;
        return Ok(());
    }
    let reply = send(alloc, session, store, packet.as_slice(), 4_096)?;
    let texts = texts_told(alloc, reply.as_slice())?;
    told.push_str(texts.as_str())?;
    told.push_str("\n")?;
    Ok(())
}

/// A Query.
fn packet(alloc: Global, text: &[u8]) -> Result<Vec<u8>, Fail> {
    let mut packet = Vec::from_slice(alloc, b"Q")?;
    let length = u32::try_from(text.len().saturating_add(5)).map_err(|_| "a short text")?;
    packet.extend_from_slice(&length.to_be_bytes())?;
    packet.extend_from_slice(text)?;
    packet.push(0)?;
    Ok(packet)
}
