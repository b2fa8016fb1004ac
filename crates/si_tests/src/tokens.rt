// Texts and their tokens, as Python's own `tokenize` gives them, but for blank lines, comments, CR, tabs before a line's
// first token, and the text of an INDENT.

use si_token::TokenKind::{Bytes, Dedent, End, Indent, Int, Name, Newline, Str};
use si_token::{Keyword, Symbol, TokenKind, tokens};
use std::process::Abort;

fn expect(rt: &(impl Abort + AllocGlobal), text: &str, wanted: &[(TokenKind, &str)]) {
    match tokens(rt.alloc(), text) {
        Ok(found) => {
            assert_eq!(rt; found.len(), wanted.len(), "{text:?}");
            for (place, (kind, part)) in wanted.iter().enumerate() {
                match found.get(place) {
                    Some(token) => {
                        assert!(rt; token.kind == *kind, "{text:?}");
                        assert_eq!(rt; token.text, *part, "{text:?}");
                    }
                    None => assert!(rt; false, "{text:?}"),
                }
            }
        }
        Err(_) => assert!(rt; false, "{text:?} has no tokens"),
    }
}

fn sign(symbol: Symbol) -> TokenKind {
    TokenKind::Symbol(symbol)
}

#[test]
fn lines(rt: HostRuntime) {
    expect(&rt, "", &[(End, "")]);
    expect(&rt, "# one\n \t # two\r\n\r\t\n#three é", &[(End, "")]);
    expect(&rt, "x", &[(Name, "x"), (Newline, ""), (End, "")]);
    expect(
        &rt,
        "x\r\ny\rz #\n",
        &[
            (Name, "x"),
            (Newline, "\r\n"),
            (Name, "y"),
            (Newline, "\r"),
            (Name, "z"),
            (Newline, "\n"),
            (End, ""),
        ],
    );
    expect(
        &rt,
        "(1,\n \t2)\n",
        &[
            (sign(Symbol::LeftParenthesis), "("),
            (Int, "1"),
            (sign(Symbol::Comma), ","),
            (Int, "2"),
            (sign(Symbol::RightParenthesis), ")"),
            (Newline, "\n"),
            (End, ""),
        ],
    );
}

#[test]
fn spans(rt: HostRuntime) {
    let wanted = [
        (0, 1, 1),
        (1, 3, 1),
        (3, 4, 2),
        (4, 8, 2),
        (8, 9, 2),
        (15, 16, 3),
        (16, 17, 3),
        (17, 17, 3),
        (17, 17, 3),
    ];
    match tokens(rt.alloc(), "x\r\n('é', # c\n\ty)") {
        Ok(found) => {
            assert_eq!(rt; found.len(), wanted.len());
            for (place, (start, end, line)) in wanted.iter().enumerate() {
                match found.get(place) {
                    Some(token) => {
                        assert_eq!(rt; token.start(), *start);
                        assert_eq!(rt; token.end(), *end);
                        assert_eq!(rt; token.line(), *line);
                    }
                    None => assert!(rt; false, "no token {place}"),
                }
            }
        }
        Err(_) => assert!(rt; false, "no tokens"),
    }
}

#[test]
fn names_and_operators(rt: HostRuntime) {
    expect(
        &rt,
        "x=1;y\t= 2",
        &[
            (Name, "x"),
            (sign(Symbol::Equal), "="),
            (Int, "1"),
            (sign(Symbol::Semicolon), ";"),
            (Name, "y"),
            (sign(Symbol::Equal), "="),
            (Int, "2"),
            (Newline, ""),
            (End, ""),
        ],
    );
    expect(
        &rt,
        "a**b//c<<=_9",
        &[
            (Name, "a"),
            (sign(Symbol::DoubleStar), "**"),
            (Name, "b"),
            (sign(Symbol::DoubleSlash), "//"),
            (Name, "c"),
            (sign(Symbol::LeftShiftEqual), "<<="),
            (Name, "_9"),
            (Newline, ""),
            (End, ""),
        ],
    );
}

#[test]
fn texts(rt: HostRuntime) {
    expect(
        &rt,
        r#"r'\'' R"\""U'a'u"" b'c'Rb"" ru'd' b 'e'"#,
        &[
            (Str, r"r'\''"),
            (Str, r#"R"\"""#),
            (Str, "U'a'"),
            (Str, "u\"\""),
            (Bytes, "b'c'"),
            (Bytes, "Rb\"\""),
            (Name, "ru"),
            (Str, "'d'"),
            (Name, "b"),
            (Str, "'e'"),
            (Newline, ""),
            (End, ""),
        ],
    );
    expect(
        &rt,
        "'''a\r\n''\\'\n''' \"\"\"b'\"\"\" ''''c'''r''''''",
        &[
            (Str, "'''a\r\n''\\'\n'''"),
            (Str, "\"\"\"b'\"\"\""),
            (Str, "''''c'''"),
            (Str, "r''''''"),
            (Newline, ""),
            (End, ""),
        ],
    );
    expect(
        &rt,
        "'a\\\r\nb\\\nc\\\r'",
        &[(Str, "'a\\\r\nb\\\nc\\\r'"), (Newline, ""), (End, "")],
    );
}

#[test]
fn nested_blocks(rt: HostRuntime) {
    expect(
        &rt,
        "if x:\n  if y:\n     z\nx\n",
        &[
            (TokenKind::Keyword(Keyword::If), "if"),
            (Name, "x"),
            (sign(Symbol::Colon), ":"),
            (Newline, "\n"),
            (Indent, ""),
            (TokenKind::Keyword(Keyword::If), "if"),
            (Name, "y"),
            (sign(Symbol::Colon), ":"),
            (Newline, "\n"),
            (Indent, ""),
            (Name, "z"),
            (Newline, "\n"),
            (Dedent, ""),
            (Dedent, ""),
            (Name, "x"),
            (Newline, "\n"),
            (End, ""),
        ],
    );
    expect(
        &rt,
        " a\n  b\n c\n   d",
        &[
            (Indent, ""),
            (Name, "a"),
            (Newline, "\n"),
            (Indent, ""),
            (Name, "b"),
            (Newline, "\n"),
            (Dedent, ""),
            (Name, "c"),
            (Newline, "\n"),
            (Indent, ""),
            (Name, "d"),
            (Newline, ""),
            (Dedent, ""),
            (Dedent, ""),
            (End, ""),
        ],
    );
}
