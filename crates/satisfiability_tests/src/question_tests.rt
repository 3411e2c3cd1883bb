//! Answers that a person checks by hand, a comparison with going through all configurations, and sizes at which a
//! search by variants would never end and a recursion down a chain would exhaust the stack.
ghost use Rattle.std.specs.Prelude.{◌<◌};

use condition_sat::{Asked, Model};
use feature_expr::{Config, Expr, Features, List, Memory, Name, and, eval, not, or, parse_expr};
use std::alloc::Global;
use std::test::Fail;

const LETTERS: &[u8] = b"ABCDEFGH";

/// The features A to H, with the numbers 0 to 7.
fn letters(alloc: Global) -> Result<Features, Fail> {
    let mut names = List::new(alloc);
    for letter in LETTERS {
        let name = Name::from_slice(alloc, &[*letter])?;
        names.push(name).ok().ok_or("memory")?;
    }
    Ok(Features::new(names)?)
}

fn parsed(alloc: Global, features: &Features, text: &str) -> Result<Expr, Fail> {
    Ok(parse_expr(alloc, text, features, 64)?)
}

fn model_of(alloc: Global, features: &Features, text: &str) -> Result<Model, Fail> {
    let expr = parsed(alloc, features, text)?;
    Ok(Model::new(alloc, expr)?)
}

/// The features that hold, as the bits of a number.
fn bits_of(config: &Config) -> u64 {
    let mut bits = 0;
    for feature in 0..64u8 {
        if config.holds(feature) {
            bits |= 1 << feature;
        }
    }
    bits
}

/// What is found for the expression under the model, as bits.
fn found(alloc: Global, features: &Features, model: &str, text: &str) -> Result<Option<u64>, Fail> {
    let model = model_of(alloc, features, model)?;
    let expr = parsed(alloc, features, text)?;
    let found = model.find(&expr)?;
    Ok(found.map(|config| bits_of(&config)))
}

#[test]
fn finds_the_one_answer(rt: HostRuntime) -> Result<(), Fail> {
    let features = letters(rt.alloc())?;
    let cases = [
        ("A or B", "not A", Some(0b10)),
        ("A or B", "not A and not B", None),
        ("true", "true", Some(0)),
        ("false", "true", None),
        ("true", "A and not B", Some(0b1)),
        ("not A or B", "A", Some(0b11)),
        ("not A or B", "not B", Some(0)),
        ("A and B", "not A", None),
        ("(A or B) and not (A and B)", "not A", Some(0b10)),
        ("A or B or C", "not A and not C", Some(0b10)),
        (
            "(not A or B) and (not B or C) and (not C or A)",
            "A",
            Some(0b111),
        ),
        ("(not A or B) and (not B or not A)", "A", None),
        (
            "true",
            "(A or B) and (not A or B) and (A or not B)",
            Some(0b11),
        ),
        (
            "true",
            "(A or B) and (not A or B) and (A or not B) and (not A or not B)",
            None,
        ),
    ];
    for (model, text, bits) in cases {
        assert_eq!(rt;
            found(rt.alloc(), &features, model, text)?,
            bits,
            "{model}: {text}"
        );
    }
    Ok(())
}

/// What is found in which the first, the second and the third expression have their values, as bits.
fn met(
    alloc: Global,
    features: &Features,
    model: &str,
    asked: [(&str, bool); 3],
) -> Result<Option<u64>, Fail> {
    let model = model_of(alloc, features, model)?;
    let [
        (first, first_value),
        (second, second_value),
        (third, third_value),
    ] = asked;
    let first = parsed(alloc, features, first)?;
    let second = parsed(alloc, features, second)?;
    let third = parsed(alloc, features, third)?;
    let asked = [
        wanted(&first, first_value),
        wanted(&second, second_value),
        wanted(&third, third_value),
    ];
    let found = model.find_meeting(&asked)?;
    Ok(found.map(|config| bits_of(&config)))
}

fn wanted(expr: &Expr, value: bool) -> Asked<'_> {
    Asked { expr, value }
}

#[test]
fn meets_all_that_is_asked(rt: HostRuntime) -> Result<(), Fail> {
    let features = letters(rt.alloc())?;
    let cases = [
        (
            "A or B",
            [("A", false), ("B", true), ("C", false)],
            Some(0b10),
        ),
        ("A or B", [("A", false), ("B", false), ("C", true)], None),
        (
            "not A or B",
            [("A", true), ("B or C", true), ("C", true)],
            Some(0b111),
        ),
        (
            "true",
            [("A and B", false), ("A", true), ("C", true)],
            Some(0b101),
        ),
        ("true", [("A", true), ("not A", true), ("B", false)], None),
        ("false", [("true", true), ("A", false), ("B", false)], None),
    ];
    for (model, asked, bits) in cases {
        assert_eq!(rt; met(rt.alloc(), &features, model, asked)?, bits, "{model}");
    }
    Ok(())
}

/// What is found where nothing is asked, and then again.
fn any_found(alloc: Global, features: &Features, model: &str) -> Result<[Option<u64>; 2], Fail> {
    let mut model = model_of(alloc, features, model)?;
    let first = model.find_any()?;
    let second = model.find_meeting(&[])?;
    Ok([
        first.map(|config| bits_of(&config)),
        second.map(|config| bits_of(&config)),
    ])
}

#[test]
fn finds_any(rt: HostRuntime) -> Result<(), Fail> {
    let features = letters(rt.alloc())?;
    let cases = [
        ("A and not B", Some(0b1)),
        ("A and not A", None),
        ("(A or B) and (not A or B) and (A or not B)", Some(0b11)),
        ("not (A or B or C)", Some(0)),
    ];
    for (model, bits) in cases {
        assert_eq!(rt;
            any_found(rt.alloc(), &features, model)?,
            [bits, bits],
            "{model}"
        );
    }
    Ok(())
}

/// What a model says of two expressions.
#[derive(Clone, Copy, Debug, PartialEq, Eq)]
struct Answers {
    /// Some admitted configuration satisfies the left one.
    found: bool,
    /// All do.
    always: bool,
    equivalent: bool,
    exclusive: bool,
}

fn answered(model: &Model, left: &Expr, right: &Expr) -> Result<Answers, Memory> {
    Ok(Answers {
        found: model.find(left)?.is_some(),
        always: model.always(left)?,
        equivalent: model.equivalent(left, right)?,
        exclusive: model.exclusive(left, right)?,
    })
}

fn compared(
    alloc: Global,
    features: &Features,
    model: &str,
    left: &str,
    right: &str,
) -> Result<Answers, Fail> {
    let model = model_of(alloc, features, model)?;
    let left = parsed(alloc, features, left)?;
    let right = parsed(alloc, features, right)?;
    Ok(answered(&model, &left, &right)?)
}

#[test]
fn compares_under_the_model(rt: HostRuntime) -> Result<(), Fail> {
    let features = letters(rt.alloc())?;
    let cases = [
        ("A or B", "A or B", "B or A", true, true, true, false),
        ("A or B", "not A", "B and not A", true, false, true, false),
        ("A or B", "A", "B", true, false, false, false),
        ("not (A and B)", "A", "B", true, false, false, true),
        ("A", "A", "true", true, true, true, false),
        ("not A or B", "A", "A and B", true, false, true, false),
        ("not A or B", "A", "not B", true, false, false, true),
        ("false", "A", "not A", false, true, true, true),
        ("true", "A or not A", "true", true, true, true, false),
        ("true", "A", "A", true, false, true, false),
        (
            "(A or B) and not (A and B)",
            "A",
            "not B",
            true,
            false,
            true,
            false,
        ),
        ("not A and not B", "A", "B", false, false, true, true),
    ];
    for (model, left, right, found, always, equivalent, exclusive) in cases {
        let expected = Answers {
            found,
            always,
            equivalent,
            exclusive,
        };
        assert_eq!(rt;
            compared(rt.alloc(), &features, model, left, right)?,
            expected,
            "{model}: {left}, {right}"
        );
    }
    Ok(())
}

/// Numbers that look random, the same in each run.
#[derive(Drop)]
struct Numbers(u64);

impl Numbers {
    fn below(&mut self, limit: u8) -> u8
        requires { 0 < limit }
        ensures { result < limit }
    {
        self.0 = self
            .0
            .wrapping_mul(6364136223846793005)
            .wrapping_add(1442695040888963407);
        (self.0 >> 33 & 0xFF) as u8 % limit
    }
}

fn literal(alloc: Global, numbers: &mut Numbers, features: u8) -> Result<Expr, Memory>
    requires { 0 < features }
{
    let feature = Expr::Feature(numbers.below(features));
    if numbers.below(2) == 0 {
        Ok(feature)
    } else {
        not(alloc, feature)
    }
}

fn joined(alloc: Global, numbers: &mut Numbers, left: Expr, right: Expr) -> Result<Expr, Memory> {
    match numbers.below(5) {
        0 => and(alloc, left, right),
        1 => or(alloc, left, right),
        2 => and(alloc, right, left),
        3 => or(alloc, right, left),
        _ => not(alloc, and(alloc, left, right)?),
    }
}

/// An expression of parts, each of which grows before it is joined to the whole.
fn random_expr(
    alloc: Global,
    numbers: &mut Numbers,
    features: u8,
    steps: u8,
) -> Result<Expr, Memory>
    requires { 0 < features }
{
    let mut whole = literal(alloc, numbers, features)?;
    let mut part = literal(alloc, numbers, features)?;
    for _ in 0..steps {
        if numbers.below(3) == 0 {
            whole = joined(alloc, numbers, whole, part)?;
            part = literal(alloc, numbers, features)?;
        } else {
            let next = literal(alloc, numbers, features)?;
            part = joined(alloc, numbers, part, next)?;
        }
    }
    joined(alloc, numbers, whole, part)
}

/// The configuration whose features are the ones among the lowest eight bits.
fn config_of(bits: u8) -> Config {
    let mut config = Config::none();
    for feature in 0..8u8 {
        if bits >> feature & 1 == 1 {
            config = config.with(feature);
        }
    }
    config
}

/// What going through all configurations says.
fn by_all_configurations(model: &Expr, left: &Expr, right: &Expr) -> Answers {
    let mut answers = Answers {
        found: false,
        always: true,
        equivalent: true,
        exclusive: true,
    };
    for bits in 0..=u8::MAX {
        let config = config_of(bits);
        if eval(model, &config) {
            let first = eval(left, &config);
            let second = eval(right, &config);
            answers.found |= first;
            answers.always &= first;
            answers.equivalent &= first == second;
            answers.exclusive &= !(first && second);
        }
    }
    answers
}

/// The answers to one random question, and those of going through all configurations.
fn question(alloc: Global, numbers: &mut Numbers, steps: u8) -> Result<(Answers, Answers), Memory> {
    let features = 1 + numbers.below(8);
    let model = Model::new(alloc, random_expr(alloc, numbers, features, steps)?)?;
    let left = random_expr(alloc, numbers, features, steps / 2)?;
    let right = random_expr(alloc, numbers, features, steps / 5)?;
    Ok((
        answered(&model, &left, &right)?,
        by_all_configurations(model.expr(), &left, &right),
    ))
}

#[test]
fn answers_as_all_configurations_do(rt: HostRuntime) -> Result<(), Fail> {
    let mut numbers = Numbers(20);
    for round in 0..400u16 {
        let (answers, expected) = question(rt.alloc(), &mut numbers, (round % 30) as u8)?;
        assert_eq!(rt; answers, expected, "{round}");
    }
    Ok(())
}

/// So many links of the features below the limit, over and over, one of which has to hold.
fn or_chain(alloc: Global, links: u32, limit: u32) -> Result<Expr, Memory>
    requires low { 0 < limit }
    requires high { limit < 64 }
{
    let mut chain = Expr::Feature(0);
    for link in 1..links {
        chain = or(alloc, chain, Expr::Feature((link % limit) as u8))?;
    }
    Ok(chain)
}

/// The same, and all have to hold.
fn and_chain(alloc: Global, links: u32, limit: u32) -> Result<Expr, Memory>
    requires low { 0 < limit }
    requires high { limit < 64 }
{
    let mut chain = Expr::Feature(0);
    for link in 1..links {
        chain = and(alloc, chain, Expr::Feature((link % limit) as u8))?;
    }
    Ok(chain)
}

fn bits_found(model: &Model, expr: &Expr) -> Result<Option<u64>, Memory> {
    Ok(model.find(expr)?.map(|config| bits_of(&config)))
}

#[test]
fn forty_free_features(rt: HostRuntime) -> Result<(), Fail> {
    let free = Model::new(rt.alloc(), Expr::True)?;
    let all = and_chain(rt.alloc(), 40, 40)?;
    let some = or_chain(rt.alloc(), 40, 40)?;
    assert_eq!(rt; bits_found(&free, &all)?, Some((1 << 40) - 1));
    assert_eq!(rt; bits_found(&free, &Expr::True)?, Some(0));
    let expected = Answers {
        found: true,
        always: false,
        equivalent: false,
        exclusive: false,
    };
    assert_eq!(rt; answered(&free, &some, &all)?, expected);
    Ok(())
}

/// How many links the chains have: a recursion down one would exhaust the stack.
const LINKS: u32 = 1_000_000;

#[test]
fn long_chains_are_no_deep_ones(rt: HostRuntime) -> Result<(), Fail> {
    let model = Model::new(rt.alloc(), or_chain(rt.alloc(), LINKS, 3)?)?;
    let some = or_chain(rt.alloc(), LINKS, 3)?;
    let all = and_chain(rt.alloc(), LINKS, 3)?;
    assert_eq!(rt; bits_found(&model, &all)?, Some(0b111));
    let expected = Answers {
        found: true,
        always: true,
        equivalent: false,
        exclusive: false,
    };
    assert_eq!(rt; answered(&model, &some, &all)?, expected);
    Ok(())
}
