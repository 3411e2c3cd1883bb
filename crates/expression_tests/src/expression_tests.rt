use feature_expr::{
    ColName, Config, Expr, ExprRefused, Features, FeaturesRefused, List, Name, Text, TokenKind,
    TryCopy, Value, and, copy_expr, end_line, end_place, eval, is_name, not, or, parse_expr,
    print_expr, tokens, weight,
};
use std::alloc::Global;
use std::process::Abort;
use std::test::Fail;

/// The features `A` and `B`.
fn features(alloc: Global) -> Result<Features, Fail> {
    let mut names = Vec::new(alloc);
    names.push(Name::from_slice(alloc, b"A")?)?;
    names.push(Name::from_slice(alloc, b"B")?)?;
    Ok(Features::new(List::from_vec(names))?)
}

/// A token's kind, with what it holds.
#[derive(Clone, Copy)]
enum Shape {
    Word,
    Integer(Option<i64>),
    Text(&'static str),
    Param(Option<u16>),
    Sign,
    Bad,
}

fn has_shape(kind: &TokenKind, shape: Shape) -> bool {
    match (kind, shape) {
        (TokenKind::Word, Shape::Word) => true,
        (TokenKind::Sign, Shape::Sign) => true,
        (TokenKind::Bad, Shape::Bad) => true,
        (TokenKind::Integer(found), Shape::Integer(wanted)) => *found == wanted,
        (TokenKind::Param(found), Shape::Param(wanted)) => *found == wanted,
        (TokenKind::Text(found), Shape::Text(wanted)) => found.as_slice() == wanted.as_bytes(),
        _ => false,
    }
}

/// A token's shape, its start and end, its place and its line.
type Wanted = (Shape, usize, usize, u64, u64);

const INTEGERS: [(&str, Option<i64>); 8] = [
    ("0", Some(0)),
    ("007", Some(7)),
    ("-0", Some(0)),
    ("-1", Some(-1)),
    ("9223372036854775807", Some(9223372036854775807)),
    ("9223372036854775808", None),
    ("-9223372036854775808", Some(-9223372036854775808)),
    ("-9223372036854775809", None),
];

#[test]
fn each_token_is_the_longest(rt: HostRuntime) -> Result<(), Fail> {
    let alloc = rt.alloc();
    for (text, value) in INTEGERS {
        has_tokens(
            &rt,
            alloc,
            text,
            &[(Shape::Integer(value), 0, text.len(), 1, 1)],
        )?;
    }
    let two: [(&str, [Wanted; 2]); 12] = [
        (
            "1or",
            [
                (Shape::Integer(Some(1)), 0, 1, 1, 1),
                (Shape::Word, 1, 3, 2, 1),
            ],
        ),
        (
            "'a'union",
            [(Shape::Text("a"), 0, 3, 1, 1), (Shape::Word, 3, 8, 4, 1)],
        ),
        (
            "$1and",
            [
                (Shape::Param(Some(1)), 0, 2, 1, 1),
                (Shape::Word, 2, 5, 3, 1),
            ],
        ),
        (
            "a-1",
            [
                (Shape::Word, 0, 1, 1, 1),
                (Shape::Integer(Some(-1)), 1, 3, 2, 1),
            ],
        ),
        (
            "a--1\nb",
            [(Shape::Word, 0, 1, 1, 1), (Shape::Word, 5, 6, 6, 2)],
        ),
        (
            "a -- x\ry\n_9",
            [(Shape::Word, 0, 1, 1, 1), (Shape::Word, 9, 11, 10, 2)],
        ),
        (
            "$1024 $1025",
            [
                (Shape::Param(Some(1024)), 0, 5, 1, 1),
                (Shape::Param(None), 6, 11, 7, 1),
            ],
        ),
        (
            "$99999 $0",
            [(Shape::Param(None), 0, 6, 1, 1), (Shape::Bad, 7, 9, 8, 1)],
        ),
        (
            "<=>",
            [(Shape::Sign, 0, 2, 1, 1), (Shape::Sign, 2, 3, 3, 1)],
        ),
        (
            "<> !=",
            [(Shape::Sign, 0, 2, 1, 1), (Shape::Sign, 3, 5, 4, 1)],
        ),
        (
            "'\u{e9}'''\n\t'it''s'",
            [
                (Shape::Text("\u{e9}'"), 0, 6, 1, 1),
                (Shape::Text("it's"), 8, 15, 8, 2),
            ],
        ),
        (
            "''''''''\r\n''",
            [
                (Shape::Text("'''"), 0, 8, 1, 1),
                (Shape::Text(""), 10, 12, 11, 2),
            ],
        ),
    ];
    for (text, wanted) in &two {
        has_tokens(&rt, alloc, text, wanted)?;
    }
    has_tokens(
        &rt,
        alloc,
        "1.5",
        &[
            (Shape::Integer(Some(1)), 0, 1, 1, 1),
            (Shape::Sign, 1, 2, 2, 1),
            (Shape::Integer(Some(5)), 2, 3, 3, 1),
        ],
    )?;
    for sign in [
        "(", ")", "[", "]", ",", ";", ".", "*", "=", "<", ">", "<>", "!=", "<=", ">=",
    ] {
        has_tokens(&rt, alloc, sign, &[(Shape::Sign, 0, sign.len(), 1, 1)])?;
    }
    let none = tokens(alloc, " \t\r\n-- no token\n--")?;
    assert!(rt; none.is_empty());
    assert_eq!(rt; end_place("a\u{e9}\n"), 4);
    assert_eq!(rt; end_line("a\n\n"), 3);
    Ok(())
}

#[test]
fn a_fault_is_the_last_token(rt: HostRuntime) -> Result<(), Fail> {
    let bad: [(&str, usize, u64, u64); 16] = [
        ("- 1", 0, 1, 1),
        ("a -b", 2, 3, 1),
        ("!", 0, 1, 1),
        ("! =", 0, 1, 1),
        ("$", 0, 1, 1),
        ("$01", 0, 1, 1),
        ("$a", 0, 1, 1),
        ("'never closed", 0, 1, 1),
        ("a 'it''", 2, 3, 1),
        ("'\0' b", 0, 1, 1),
        ("a \0 b", 2, 3, 1),
        ("a --\u{e9} \0 'x'", 7, 7, 1),
        ("--\n\u{e9}", 3, 4, 2),
        ("'\u{e9}' \u{e9}", 5, 5, 1),
        ("\u{a0}", 0, 1, 1),
        ("a\n \"b\"", 3, 4, 2),
    ];
    for (text, start, place, line) in bad {
        let found = tokens(rt.alloc(), text)?;
        match found.as_slice().last() {
            Some(last) => {
                assert!(rt; has_shape(&last.kind, Shape::Bad), "in {text}");
                assert_eq!(rt; (last.start, last.end), (start, text.len()), "in {text}");
                assert_eq!(rt; (last.place, last.line), (place, line), "in {text}");
            }
            None => assert!(rt; false, "no token in {text}"),
        }
    }
    Ok(())
}

fn has_tokens(rt: &impl Abort, alloc: Global, text: &str, wanted: &[Wanted]) -> Result<(), Fail> {
    let found = tokens(alloc, text)?;
    assert_eq!(rt; found.len(), wanted.len(), "in {text}");
    for (token, wanted) in found.as_slice().iter().zip(wanted) {
        let (shape, start, end, place, line) = *wanted;
        assert!(rt; has_shape(&token.kind, shape), "in {text} at {place}");
        assert_eq!(rt;
            (token.start, token.end),
            (start, end),
            "in {text} at {place}"
        );
        assert_eq!(rt;
            (token.place, token.line),
            (place, line),
            "in {text} at {place}"
        );
        assert_eq!(rt;
            token.bytes(text.as_bytes()).len(),
            end.saturating_sub(start)
        );
    }
    Ok(())
}

const RESERVED_WORDS: [&str; 4] = [
    "alter and as begin choice commit create delete empty except false from insert into join",
    "none not on or rollback select set true union update values when where",
    "ALTER AND AS BEGIN CHOICE COMMIT CREATE DELETE EMPTY EXCEPT FALSE FROM INSERT INTO JOIN",
    "NONE NOT ON OR ROLLBACK SELECT SET TRUE UNION UPDATE VALUES WHEN WHERE",
];

#[test]
fn a_reserved_word_is_no_name(rt: HostRuntime) -> Result<(), Fail> {
    let alloc = rt.alloc();
    for words in RESERVED_WORDS {
        for word in words.split(' ') {
            let name = Name::from_slice(alloc, word.as_bytes())?;
            assert!(rt; !is_name(&name), "the word {word}");
            let mut names = Vec::new(alloc);
            names.push(name)?;
            match Features::new(List::from_vec(names)) {
                Ok(_) => assert!(rt; false, "a feature {word}"),
                Err(why) => assert_eq!(rt; why, FeaturesRefused::NotAName(0), "the word {word}"),
            }
        }
    }
    Ok(())
}

#[test]
fn the_first_fault_counts(rt: HostRuntime) -> Result<(), Fail> {
    let alloc = rt.alloc();
    let features = features(alloc)?;
    let refused: [(&str, u32, ExprRefused); 58] = [
        ("", 64, ExprRefused::Syntax(1)),
        ("   ", 64, ExprRefused::Syntax(4)),
        ("A or", 64, ExprRefused::Syntax(5)),
        ("A or  ", 64, ExprRefused::Syntax(7)),
        ("A or -- x", 64, ExprRefused::Syntax(10)),
        ("A or -- \u{e9}\u{e9}", 64, ExprRefused::Syntax(11)),
        ("A B", 64, ExprRefused::Syntax(3)),
        ("A B C", 64, ExprRefused::Syntax(3)),
        ("A or B C", 64, ExprRefused::Syntax(8)),
        ("A not B", 64, ExprRefused::Syntax(3)),
        ("(A", 64, ExprRefused::Syntax(3)),
        ("(A B", 64, ExprRefused::Syntax(4)),
        ("A)", 64, ExprRefused::Syntax(2)),
        ("()", 64, ExprRefused::Syntax(2)),
        ("not", 64, ExprRefused::Syntax(4)),
        ("not and", 64, ExprRefused::Syntax(5)),
        ("or A", 64, ExprRefused::Syntax(1)),
        ("A or or B", 64, ExprRefused::Syntax(6)),
        ("A and or B", 64, ExprRefused::Syntax(7)),
        ("A;", 64, ExprRefused::Syntax(2)),
        ("true false", 64, ExprRefused::Syntax(6)),
        ("select", 64, ExprRefused::Syntax(1)),
        ("A or Select", 64, ExprRefused::Syntax(6)),
        ("1or", 64, ExprRefused::Syntax(1)),
        ("A or 1", 64, ExprRefused::Syntax(6)),
        ("A or 9223372036854775808", 64, ExprRefused::Syntax(6)),
        ("A or $1", 64, ExprRefused::Syntax(6)),
        ("A or $0", 64, ExprRefused::Syntax(6)),
        ("A or 'A'", 64, ExprRefused::Syntax(6)),
        ("A 'x", 64, ExprRefused::Syntax(3)),
        ("A or 'x", 64, ExprRefused::Syntax(6)),
        ("A or \0", 64, ExprRefused::Syntax(6)),
        ("A -- \0", 64, ExprRefused::Syntax(6)),
        ("A or 'x\0'", 64, ExprRefused::Syntax(6)),
        ("A - B", 64, ExprRefused::Syntax(3)),
        ("A B \0", 64, ExprRefused::Syntax(3)),
        ("-- \u{e9}\nA B", 64, ExprRefused::Syntax(8)),
        ("\u{e9}", 64, ExprRefused::Syntax(1)),
        ("A\u{a0}or B", 64, ExprRefused::Syntax(2)),
        ("C", 64, ExprRefused::UnknownFeature(1)),
        ("a", 64, ExprRefused::UnknownFeature(1)),
        ("AA", 64, ExprRefused::UnknownFeature(1)),
        ("A and C", 64, ExprRefused::UnknownFeature(7)),
        ("C )", 64, ExprRefused::UnknownFeature(1)),
        ("C -- \0", 64, ExprRefused::UnknownFeature(1)),
        ("A and not C or", 64, ExprRefused::UnknownFeature(11)),
        ("-- \u{e9}\u{e9}\nC", 64, ExprRefused::UnknownFeature(7)),
        ("A C", 64, ExprRefused::Syntax(3)),
        (
            "a_name_of_sixty_three_bytes_is_the_longest_one_that_there_can_be",
            64,
            ExprRefused::Syntax(1),
        ),
        (
            "a_name_of_sixty_three_bytes_is_the_longest_one_there_can_be_123",
            64,
            ExprRefused::UnknownFeature(1),
        ),
        ("not A", 0, ExprRefused::TooDeep(1)),
        ("(A)", 0, ExprRefused::TooDeep(1)),
        ("A or not not B", 1, ExprRefused::TooDeep(10)),
        ("((A))", 1, ExprRefused::TooDeep(2)),
        ("(C (", 1, ExprRefused::UnknownFeature(2)),
        ("( )", 0, ExprRefused::TooDeep(1)),
        ("A (", 0, ExprRefused::Syntax(3)),
        ("not A and (not B)", 1, ExprRefused::TooDeep(12)),
    ];
    for (text, nesting, wanted) in refused {
        let found = parse_expr(alloc, text, &features, nesting).err();
        assert_eq!(rt; found, Some(wanted), "in {text}");
    }
    Ok(())
}

#[test]
fn what_is_read_is_printed_with_the_fewest_brackets(rt: HostRuntime) -> Result<(), Fail> {
    let alloc = rt.alloc();
    let features = features(alloc)?;
    let read: [(&str, u32, &str); 18] = [
        ("A or (B and not(A or B))", 64, "A or B and not (A or B)"),
        (" A ", 0, "A"),
        ("A -- x\rB", 0, "A"),
        ("TRUE And False oR NOT A", 64, "true and false or not A"),
        ("A--x\nor B", 0, "A or B"),
        ("(A or B) and A", 64, "(A or B) and A"),
        ("A and (B or A)", 64, "A and (B or A)"),
        ("(A and B) and A", 64, "A and B and A"),
        ("A and (B and A)", 64, "A and (B and A)"),
        ("(A or B) or A", 64, "A or B or A"),
        ("A or (B or A)", 64, "A or (B or A)"),
        ("(A and B) or (B and A)", 64, "A and B or B and A"),
        ("not (A and B)", 64, "not (A and B)"),
        ("not(not(A))", 4, "not not A"),
        ("(not A) and (not B)", 64, "not A and not B"),
        ("((A))", 2, "A"),
        ("not A and (B)", 1, "not A and B"),
        ("not(true)or(false)", 2, "not true or false"),
    ];
    for (text, nesting, wanted) in read {
        let expr = parse_expr(alloc, text, &features, nesting)?;
        let printed = print_expr(alloc, &expr, &features)?;
        assert_eq!(rt; printed.as_slice(), wanted.as_bytes(), "of {text}");
    }
    Ok(())
}

/// A chain with this many links, each behind the one before it.
fn chain(alloc: Global, first: &[u8], link: &[u8], links: usize) -> Result<String, Fail> {
    let mut text = Vec::with_capacity(alloc, first.len())?;
    text.extend_from_slice(first)?;
    for _ in 0..links {
        text.extend_from_slice(link)?;
    }
    Ok(String::from_utf8(text)?)
}

#[test]
fn a_chain_of_a_million_takes_no_stack(rt: HostRuntime) -> Result<(), Fail> {
    let alloc = rt.alloc();
    let features = features(alloc)?;
    let chains: [(&[u8], u64, bool); 3] = [
        (b" or B", 2_000_001, true),
        (b" and B", 2_000_001, false),
        (b" or A and B", 4_000_001, true),
    ];
    for (link, nodes, holds_at_a) in chains {
        let text = chain(alloc, b"A", link, 1_000_000)?;
        let expr = parse_expr(alloc, text.as_str(), &features, 0)?;
        assert_eq!(rt; weight(&expr), nodes);
        assert!(rt; !eval(&expr, &Config::none()));
        assert!(rt; eval(&expr, &Config::none().with(0).with(1)));
        assert_eq!(rt; eval(&expr, &Config::none().with(0)), holds_at_a);
        let copied = copy_expr(alloc, &expr)?;
        drop(expr);
        let printed = print_expr(alloc, &copied, &features)?;
        assert!(rt; printed.as_slice() == text.as_bytes());
    }
    Ok(())
}

/// A column's name behind a prefix.
fn prefixed(alloc: Global) -> Result<ColName, Fail> {
    let prefix = Some(Name::from_slice(alloc, b"e")?);
    let base = Name::folded(alloc, b"Pay")?;
    Ok(ColName { prefix, base })
}

/// The texts of `A` and the other connectives over `A` and `B`.
fn connected(alloc: Global) -> Result<String, Fail> {
    let features = features(alloc)?;
    let mut text = String::new(alloc);
    let both = and(alloc, Expr::Feature(0), Expr::Feature(1))?;
    let either = or(alloc, copy_expr(alloc, &both)?, Expr::Feature(0))?;
    let neither = not(alloc, either.copy(alloc)?)?;
    for expr in [both, either, neither] {
        let printed = print_expr(alloc, &expr, &features)?;
        text.push_str(std::str::from_utf8(printed.as_slice())?)?;
        text.push_str("; ")?;
    }
    Ok(text)
}

#[test]
fn a_copied_value_is_equal(rt: HostRuntime) -> Result<(), Fail> {
    let text = Text::from_slice(rt.alloc(), b"it's")?;
    let value = Value::Text(text.copy(rt.alloc())?);
    assert_eq!(rt; value.copy(rt.alloc())?, Value::Text(text));
    let column = prefixed(rt.alloc())?;
    assert_eq!(rt; column.copy(rt.alloc())?, column);
    assert_eq!(rt; column.base.as_slice(), b"pay".as_slice());
    Ok(())
}

#[test]
fn copied_features_and_tokens_are_all_there(rt: HostRuntime) -> Result<(), Fail> {
    let names = features(rt.alloc())?.copy(rt.alloc())?;
    assert_eq!(rt; names.count(), 2);
    let found = tokens(rt.alloc(), "x 'y'")?.copy(rt.alloc())?;
    assert_eq!(rt; found.len(), 2);
    Ok(())
}

#[test]
fn connectives_are_made(rt: HostRuntime) -> Result<(), Fail> {
    let text = connected(rt.alloc())?;
    assert_eq!(rt;
        text.as_str(),
        "A and B; A and B or A; not (A and B or A); "
    );
    Ok(())
}

#[test]
fn what_is_added_stands_at_the_end(rt: HostRuntime) -> Result<(), Fail> {
    let mut list = List::from_slice(rt.alloc(), &[1u8, 2])?;
    list.extend_from_slice(&[3, 4])?;
    assert!(rt; list.push(5).is_ok());
    assert_eq!(rt; list.as_slice(), [1, 2, 3, 4, 5].as_slice());
    assert_eq!(rt; list.pop(), Some(5));
    let mut name = Name::new(rt.alloc());
    assert!(rt; name.push(b'a').is_ok());
    assert_eq!(rt; name.as_slice(), b"a".as_slice());
    let mut text = Text::new(rt.alloc());
    assert!(rt; text.push(b'b').is_ok());
    assert_eq!(rt; text.as_slice(), b"b".as_slice());
    Ok(())
}

/// Refused texts and names, and what is said of them.
const EXPR_SAID: [(ExprRefused, &str); 4] = [
    (ExprRefused::Syntax(1), "syntax error at character 1"),
    (
        ExprRefused::UnknownFeature(20),
        "unknown feature at character 20",
    ),
    (
        ExprRefused::TooDeep(65),
        "nesting is too deep at character 65",
    ),
    (ExprRefused::Memory, "out of memory"),
];

const FEATURES_SAID: [(FeaturesRefused, &str); 3] = [
    (FeaturesRefused::TooMany(65), "65 features, more than 64"),
    (
        FeaturesRefused::NotAName(2),
        "the name of feature 2 isn't one",
    ),
    (FeaturesRefused::Duplicate(3), "feature 3 stood before"),
];

#[test]
fn a_refusal_says_its_cause_and_place(rt: HostRuntime) -> Result<(), Fail> {
    for (why, wanted) in EXPR_SAID {
        let said = format!(in rt.alloc(); "{why}")?;
        assert_eq!(rt; said.as_str(), wanted);
    }
    for (why, wanted) in FEATURES_SAID {
        let said = format!(in rt.alloc(); "{why}")?;
        assert_eq!(rt; said.as_str(), wanted);
    }
    Ok(())
}
