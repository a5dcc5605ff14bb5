//! Faults of templates and expressions with their places, worked by hand.

use doll_erb::{ErbFault, parse_template};
use doll_expr::{ExprFault, parse_expr};
use std::alloc::Global;
use std::test::Fail;

/// The longest text that is read, in bytes.
const LONGEST: usize = 262_144;

const TEMPLATES: [(&str, ErbFault); 13] = [
    ("<%= 1", ErbFault::UnclosedTag { at: 0 }),
    ("<% a%><% b %", ErbFault::UnclosedTag { at: 6 }),
    ("x<%- 1 %>", ErbFault::UnknownTag { at: 1 }),
    ("x<% end %>", ErbFault::StrayEnd { at: 1 }),
    (
        "<% if a %><% else %><% elsif b %><% end %>",
        ErbFault::StrayEnd { at: 20 },
    ),
    (
        "<% if a %><% b.each do |c| %>",
        ErbFault::MissingEnd { at: 10 },
    ),
    (
        "<% else 1 %>",
        ErbFault::BadExpr {
            at: 0,
            fault: ExprFault::Unexpected { at: 6 },
        },
    ),
    (
        "<% if 1 %><%= \"%>",
        ErbFault::BadExpr {
            at: 10,
            fault: ExprFault::Unclosed { at: 1 },
        },
    ),
    (
        "<% if a.each do |b| %>",
        ErbFault::BadExpr {
            at: 0,
            fault: ExprFault::Unexpected { at: 6 },
        },
    ),
    (
        "<% cache [a, :collection] do %>",
        ErbFault::BadExpr {
            at: 0,
            fault: ExprFault::Unexpected { at: 12 },
        },
    ),
    (
        "<%= render \"a\", n: 1, @n: 2 %>",
        ErbFault::BadExpr {
            at: 0,
            fault: ExprFault::Unexpected { at: 19 },
        },
    ),
    (
        "<%= render partial: \"a/each\", collection: c, cached: 1 %>",
        ErbFault::BadExpr {
            at: 0,
            fault: ExprFault::Unexpected { at: 50 },
        },
    ),
    (
        "<% %>",
        ErbFault::BadExpr {
            at: 0,
            fault: ExprFault::Unexpected { at: 1 },
        },
    ),
];

const EXPRESSIONS: [(&str, ExprFault); 14] = [
    ("9223372036854775808", ExprFault::NumberTooLarge { at: 0 }),
    (
        "a 99999999999999999999",
        ExprFault::NumberTooLarge { at: 2 },
    ),
    (" 1 + ", ExprFault::Unexpected { at: 5 }),
    ("a < b < c", ExprFault::Unexpected { at: 6 }),
    ("a == b != c", ExprFault::Unexpected { at: 7 }),
    ("((a)", ExprFault::Unclosed { at: 0 }),
    ("(a $", ExprFault::Unexpected { at: 3 }),
    ("(a \"b", ExprFault::Unclosed { at: 3 }),
    ("\"a\\q\"", ExprFault::Unexpected { at: 2 }),
    ("\"a#{b}\"", ExprFault::Unexpected { at: 2 }),
    ("a || b.each do |x|", ExprFault::Unexpected { at: 7 }),
    ("a.@any?", ExprFault::Unexpected { at: 6 }),
    ("a = b", ExprFault::Unexpected { at: 2 }),
    ("@nil", ExprFault::Unexpected { at: 0 }),
];

/// What stands behind 199 `!`, `a` and a space, and the fault then: a 201st token that is no token has its own one.
const BEHIND_200_TOKENS: [(&str, Option<ExprFault>); 4] = [
    ("", None),
    ("b", Some(ExprFault::TooDeep { at: 201 })),
    ("$", Some(ExprFault::Unexpected { at: 201 })),
    ("\"a", Some(ExprFault::Unclosed { at: 201 })),
];

/// What stands in so many open blocks, and the fault then.
const IN_BLOCKS: [(usize, &str, Option<ErbFault>); 3] = [
    (64, "x", None),
    (65, "x", Some(ErbFault::TooDeep { at: 640 })),
    (
        64,
        "<% if %>",
        Some(ErbFault::BadExpr {
            at: 640,
            fault: ExprFault::Unexpected { at: 4 },
        }),
    ),
];

/// The fault of a template, none where it has none.
fn template_fault(alloc: Global, text: &str) -> Result<Option<ErbFault>, Fail> {
    if text.len() > LONGEST {
        return Err(Fail::from("a row is short"));
    }
    Ok(parse_template(alloc, text.as_bytes()).err())
}

/// The fault of an expression, none where it has none.
fn expression_fault(alloc: Global, text: &str) -> Result<Option<ExprFault>, Fail> {
    if text.len() > LONGEST {
        return Err(Fail::from("a row is short"));
    }
    Ok(parse_expr(alloc, text).err())
}

/// A text between so many times another and so many times a third.
fn between(
    alloc: Global,
    count: usize,
    before: &str,
    inside: &str,
    behind: &str,
) -> Result<String, Fail> {
    let mut text = String::new(alloc);
    for _ in 0..count {
        text.push_str(before)?;
    }
    text.push_str(inside)?;
    for _ in 0..count {
        text.push_str(behind)?;
    }
    Ok(text)
}

#[test]
fn faults_stand_where_worked_by_hand(rt: HostRuntime) -> Result<(), Fail> {
    let alloc = rt.alloc();
    for (text, wanted) in &TEMPLATES {
        assert!(rt; template_fault(alloc, text)? == Some(*wanted), "of {text}");
    }
    for (text, wanted) in &EXPRESSIONS {
        assert!(rt;
            expression_fault(alloc, text)? == Some(*wanted),
            "of {text}"
        );
    }
    for (count, inside, wanted) in &IN_BLOCKS {
        let text = between(alloc, *count, "<% if 1 %>", inside, "<% end %>")?;
        assert!(rt;
            template_fault(alloc, text.as_str())? == *wanted,
            "in {count} blocks"
        );
    }
    for (behind, wanted) in &BEHIND_200_TOKENS {
        let last = format!(in alloc; "a {behind}")?;
        let text = between(alloc, 199, "!", last.as_str(), "")?;
        assert!(rt;
            expression_fault(alloc, text.as_str())? == *wanted,
            "behind: {behind}"
        );
    }
    Ok(())
}
