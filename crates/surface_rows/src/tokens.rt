//! Tokens and faults that were counted by hand.
use cdle_names::Span;
use std::alloc::Global;
use surf_lex::{LexFault, Token, TokenKind, lex};

/// A token with its first byte and the byte behind its last.
type Row = (TokenKind, u32, u32);

/// Each row has a text and its tokens. The reserved letters, `·` and `é` have two bytes, the other signs beyond ASCII three.
const TEXTS: &[(&str, &[Row])] = &[
    ("", &[]),
    (" \t\r\n", &[]),
    (" -- λ {-\n{- - } -- -} -- x", &[]),
    (
        "x.1.2.y",
        &[
            (TokenKind::Name, 0, 1),
            (TokenKind::First, 1, 3),
            (TokenKind::Second, 3, 5),
            (TokenKind::Period, 5, 6),
            (TokenKind::Name, 6, 7),
        ],
    ),
    (
        "λx.x",
        &[
            (TokenKind::Lambda, 0, 2),
            (TokenKind::Name, 2, 3),
            (TokenKind::Period, 3, 4),
            (TokenKind::Name, 4, 5),
        ],
    ),
    (
        "D/mono'-a·★",
        &[
            (TokenKind::Name, 0, 7),
            (TokenKind::Minus, 7, 8),
            (TokenKind::Name, 8, 9),
            (TokenKind::MiddleDot, 9, 11),
            (TokenKind::Star, 11, 14),
        ],
    ),
    (
        "module datax import data'",
        &[
            (TokenKind::Module, 0, 6),
            (TokenKind::Name, 7, 12),
            (TokenKind::Import, 13, 19),
            (TokenKind::Name, 20, 25),
        ],
    ),
    (
        "data.",
        &[(TokenKind::Data, 0, 4), (TokenKind::Period, 4, 5)],
    ),
    (
        "_é1μr",
        &[
            (TokenKind::Name, 0, 4),
            (TokenKind::Mu, 4, 6),
            (TokenKind::Name, 6, 7),
        ],
    ),
    (
        "{x-->\n}",
        &[
            (TokenKind::OpenBrace, 0, 1),
            (TokenKind::Name, 1, 2),
            (TokenKind::CloseBrace, 6, 7),
        ],
    ),
    (
        "∀➔{-}-}-",
        &[
            (TokenKind::ForAll, 0, 3),
            (TokenKind::Arrow, 3, 6),
            (TokenKind::Minus, 11, 12),
        ],
    ),
    (
        "-}- -",
        &[
            (TokenKind::Minus, 0, 1),
            (TokenKind::CloseBrace, 1, 2),
            (TokenKind::Minus, 2, 3),
            (TokenKind::Minus, 4, 5),
        ],
    ),
    (
        "λΛΠιβρφδχςμσ",
        &[
            (TokenKind::Lambda, 0, 2),
            (TokenKind::BigLambda, 2, 4),
            (TokenKind::BigPi, 4, 6),
            (TokenKind::Iota, 6, 8),
            (TokenKind::Beta, 8, 10),
            (TokenKind::Rho, 10, 12),
            (TokenKind::Phi, 12, 14),
            (TokenKind::Delta, 14, 16),
            (TokenKind::Chi, 16, 18),
            (TokenKind::FinalSigma, 18, 20),
            (TokenKind::Mu, 20, 22),
            (TokenKind::Sigma, 22, 24),
        ],
    ),
    (
        "★∀➔➾≃·.1.2.:=()[]{}<>,|-@#",
        &[
            (TokenKind::Star, 0, 3),
            (TokenKind::ForAll, 3, 6),
            (TokenKind::Arrow, 6, 9),
            (TokenKind::ErasedArrow, 9, 12),
            (TokenKind::Equal, 12, 15),
            (TokenKind::MiddleDot, 15, 17),
            (TokenKind::First, 17, 19),
            (TokenKind::Second, 19, 21),
            (TokenKind::Period, 21, 22),
            (TokenKind::Colon, 22, 23),
            (TokenKind::Is, 23, 24),
            (TokenKind::Open, 24, 25),
            (TokenKind::Close, 25, 26),
            (TokenKind::OpenBracket, 26, 27),
            (TokenKind::CloseBracket, 27, 28),
            (TokenKind::OpenBrace, 28, 29),
            (TokenKind::CloseBrace, 29, 30),
            (TokenKind::Less, 30, 31),
            (TokenKind::Greater, 31, 32),
            (TokenKind::Comma, 32, 33),
            (TokenKind::Bar, 33, 34),
            (TokenKind::Minus, 34, 35),
            (TokenKind::At, 35, 36),
            (TokenKind::Hash, 36, 37),
        ],
    ),
];

/// Each row has a text and its first fault. U+00A0 is no white space, U+0301 begins no name, and `1` and `'` go on with one alone.
const FAULTS: &[(&str, LexFault)] = &[
    ("a ? b", LexFault::BadCharacter { at: 2 }),
    ("λ.3", LexFault::BadCharacter { at: 3 }),
    ("x.12", LexFault::BadCharacter { at: 3 }),
    ("'a", LexFault::BadCharacter { at: 0 }),
    ("a /b", LexFault::BadCharacter { at: 2 }),
    ("★\u{a0}x", LexFault::BadCharacter { at: 3 }),
    ("\u{301}", LexFault::BadCharacter { at: 0 }),
    (" {- x -", LexFault::OpenComment { at: 1 }),
    ("{-}", LexFault::OpenComment { at: 0 }),
    ("? {-", LexFault::BadCharacter { at: 0 }),
    ("-- ?\n{- ?", LexFault::OpenComment { at: 5 }),
];

/// What the text comes to. None where it is longer than a text may be.
fn lexed(alloc: Global, text: &str) -> Option<Result<Vec<Token>, LexFault>> {
    if text.len() > 1_048_576 {
        return None;
    }
    Some(lex(alloc, text))
}

fn is_row(token: &Token, row: &Row) -> bool {
    *token
        == Token {
            kind: row.0,
            span: Span {
                from: row.1,
                to: row.2,
            },
        }
}

fn has_tokens(alloc: Global, text: &str, rows: &[Row]) -> bool {
    match lexed(alloc, text) {
        Some(Ok(tokens)) => {
            tokens.len() == rows.len()
                && tokens
                    .iter()
                    .zip(rows)
                    .all(|(token, row)| is_row(token, row))
        }
        _ => false,
    }
}

fn has_fault(alloc: Global, text: &str, fault: LexFault) -> bool {
    match lexed(alloc, text) {
        Some(Err(found)) => found == fault,
        _ => false,
    }
}

#[test]
fn tokens_of_texts(rt: HostRuntime) {
    for (text, rows) in TEXTS {
        assert!(rt; has_tokens(rt.alloc(), text, rows), "{text}");
    }
}

#[test]
fn first_faults(rt: HostRuntime) {
    for (text, fault) in FAULTS {
        assert!(rt; has_fault(rt.alloc(), text, *fault), "{text}");
    }
}
