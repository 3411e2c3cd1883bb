//! Texts that a person would write, a comparison with all configurations, and a chain on which a recursion would exhaust
//! the stack.
ghost use Rattle.std.specs.Prelude.{◌<◌};

use feature_expr::{
    Config, Expr, Features, List, Memory, Name, and, copy_expr, eval, is_same_expr, not, or,
    parse_expr, print_expr, weight,
};
use simple_conditions::{WEIGHT_LIMIT, simplified};
use std::alloc::Global;
use std::test::Fail;

const LETTERS: &[u8] = b"ABCDEF";

/// The features A to F, with the numbers 0 to 5.
fn letters(alloc: Global) -> Result<Features, Fail> {
    let mut names = List::new(alloc);
    for letter in LETTERS {
        let name = Name::from_slice(alloc, &[*letter])?;
        names.push(name).ok().ok_or("memory")?;
    }
    Ok(Features::new(names)?)
}

/// Conditions, and what a person would write for them.
const PAIRS: [(&str, &str); 58] = [
    // Nothing to simplify.
    ("A", "A"),
    ("not A", "not A"),
    ("A and B or not C", "A and B or not C"),
    ("not (A or B) and C", "not (A or B) and C"),
    ("A and not B or not A and B", "A and not B or not A and B"),
    ("(A or B) and not (A and B)", "(A or B) and not (A and B)"),
    ("A and B or A and C", "A and B or A and C"),
    // Constants.
    ("A and true", "A"),
    ("A and false", "false"),
    ("A or true", "true"),
    ("false or A", "A"),
    ("not true or A", "A"),
    ("A and (B or not false)", "A"),
    // A link that stands there already.
    ("A and A", "A"),
    ("A or A", "A"),
    ("A and (A and A)", "A"),
    ("A or B or C or B or A", "A or B or C"),
    ("A and B and not C and B and A", "A and B and not C"),
    ("A and B or B and A", "A and B"),
    ("(A or B) and (B or A)", "A or B"),
    ("A and B or C or A and B", "A and B or C"),
    ("(A or B and C) and (A or B and C)", "A or B and C"),
    ("A and (B or C) or A and (B or C)", "A and (B or C)"),
    (
        "A and (B or C) or D or A and (B or C)",
        "A and (B or C) or D",
    ),
    (
        "A and not (B and C) or A and not (B and C)",
        "A and not (B and C)",
    ),
    // A chain inside another.
    ("A and (B and C)", "A and B and C"),
    ("A or (B or (C or D))", "A or B or C or D"),
    ("A and B and (C and (D and E))", "A and B and C and D and E"),
    // A link that says less than another.
    ("A or A and B", "A"),
    ("A and B or A", "A"),
    ("A and (A or B)", "A"),
    ("(A or B) and A", "A"),
    ("A and B or A and B and C", "A and B"),
    ("A and B and C or A and B", "A and B"),
    ("A and B or C and (B and A)", "A and B"),
    ("A and (B or C) and (B or C or D)", "A and (B or C)"),
    ("A and (B or C or D) and (B or C)", "A and (B or C)"),
    ("(A and B or C) and (A and B or C or D)", "A and B or C"),
    (
        "A and B or (A and B and C or D) and E",
        "A and B or D and E",
    ),
    // What holds in a chain is known further in.
    ("A and not A", "false"),
    ("A or not A", "true"),
    ("A and B and not A", "false"),
    ("A and (B or not A)", "A and B"),
    ("A or not A and B", "A or B"),
    ("A and not (A and B)", "A and not B"),
    ("A and not (B and not A)", "A"),
    ("A and (B or C and (A or D))", "A and (B or C)"),
    ("A or B and (C or D and not A)", "A or B and (C or D)"),
    // Negations.
    ("not not A", "A"),
    ("not not not A", "not A"),
    ("not (A and not not A)", "not A"),
    ("A and not not (B and C)", "A and B and C"),
    // Links that differ in one feature alone.
    ("A and B or A and not B", "A"),
    ("A and B or not A and B", "B"),
    ("(A or B) and (A or not B)", "A"),
    ("A and B and C or A and B and not C", "A and B"),
    ("A and B or A and not B or C", "A or C"),
    ("A and (B or C) or A and not (B or C)", "A"),
];

fn text_after(alloc: Global, features: &Features, text: &str) -> Result<String, Fail> {
    let expr = parse_expr(alloc, text, features, 64)?;
    let simple = simplified(alloc, expr)?;
    let printed = print_expr(alloc, &simple, features)?;
    let mut after = String::new(alloc);
    after.push_str(std::str::from_utf8(printed.as_slice())?)?;
    Ok(after)
}

#[test]
fn conditions_read_as_a_person_would_write_them(rt: HostRuntime) -> Result<(), Fail> {
    let features = letters(rt.alloc())?;
    for (text, wanted) in PAIRS {
        let after = text_after(rt.alloc(), &features, text)?;
        assert_eq!(rt; after.as_str(), wanted, "{text}");
    }
    Ok(())
}

/// Numbers that look random, the same in each run.
#[derive(Drop)]
struct Numbers(u64);

impl Numbers {
    fn below(&mut self, limit: u8) -> u8
        requires { 0 < limit }
        ensures { result < limit }
    {
        self.0 = self
            .0
            .wrapping_mul(6364136223846793005)
            .wrapping_add(1442695040888963407);
        (self.0 >> 33 & 0xFF) as u8 % limit
    }
}

fn literal(alloc: Global, numbers: &mut Numbers) -> Result<Expr, Memory> {
    let feature = Expr::Feature(numbers.below(6));
    if numbers.below(3) > 0 {
        Ok(feature)
    } else {
        not(alloc, feature)
    }
}

fn joined(alloc: Global, numbers: &mut Numbers, left: Expr, right: Expr) -> Result<Expr, Memory> {
    match numbers.below(9) {
        0 => and(alloc, left, right),
        1 => or(alloc, left, right),
        2 => and(alloc, right, left),
        3 => or(alloc, right, left),
        4 => not(alloc, and(alloc, left, right)?),
        5 => not(alloc, or(alloc, left, right)?),
        6 => and(alloc, copy_expr(alloc, &right)?, or(alloc, left, right)?),
        7 => or(alloc, copy_expr(alloc, &left)?, and(alloc, left, right)?),
        _ => or(alloc, left, not(alloc, right)?),
    }
}

/// An expression of parts, each of which grows before it is joined to the whole.
fn random_expr(alloc: Global, numbers: &mut Numbers, steps: u8) -> Result<Expr, Memory> {
    let mut whole = literal(alloc, numbers)?;
    let mut part = literal(alloc, numbers)?;
    for _ in 0..steps {
        if numbers.below(3) == 0 {
            whole = joined(alloc, numbers, whole, part)?;
            part = literal(alloc, numbers)?;
        } else {
            let next = literal(alloc, numbers)?;
            part = joined(alloc, numbers, part, next)?;
        }
    }
    joined(alloc, numbers, whole, part)
}

/// The configuration whose features are the ones among the lowest six bits.
fn config_of(bits: u8) -> Config {
    let mut config = Config::none();
    for feature in 0..6u8 {
        if bits >> feature & 1 == 1 {
            config = config.with(feature);
        }
    }
    config
}

/// Whether both have the same truth in all configurations of six features.
fn are_alike(one: &Expr, other: &Expr) -> bool {
    for bits in 0..64u8 {
        let config = config_of(bits);
        if eval(one, &config) != eval(other, &config) {
            return false;
        }
    }
    true
}

#[test]
fn nothing_is_said_but_in_fewer_nodes(rt: HostRuntime) -> Result<(), Fail> {
    let alloc = rt.alloc();
    let mut numbers = Numbers(64);
    for round in 0..2_000u16 {
        let expr = random_expr(alloc, &mut numbers, (round % 12) as u8)?;
        let simple = simplified(alloc, copy_expr(alloc, &expr)?)?;
        assert!(rt; are_alike(&simple, &expr), "{round}");
        assert!(rt; weight(&simple) <= weight(&expr), "{round}");
        let again = simplified(alloc, copy_expr(alloc, &simple)?)?;
        assert!(rt; is_same_expr(&again, &simple), "{round}");
    }
    Ok(())
}

/// A chain of `or` in which the features A and B come in turns.
fn in_turns(alloc: Global, links: u32) -> Result<Expr, Memory> {
    let mut chain = Expr::Feature(0);
    for link in 1..links {
        chain = or(alloc, chain, Expr::Feature((link % 2) as u8))?;
    }
    Ok(chain)
}

#[test]
fn the_longest_chains_are_simplified_or_left_alone(rt: HostRuntime) -> Result<(), Fail> {
    let alloc = rt.alloc();
    let short = in_turns(alloc, 250)?;
    assert_eq!(rt; weight(&short), WEIGHT_LIMIT - 1);
    assert_eq!(rt; weight(&simplified(alloc, short)?), 3);
    let long = in_turns(alloc, 1_000_000)?;
    assert_eq!(rt; weight(&simplified(alloc, long)?), 1_999_999);
    Ok(())
}
