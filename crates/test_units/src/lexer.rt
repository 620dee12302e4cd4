//! Texts and the tokens that they are cut into.
use std::alloc::{AllocError, Global};
use std::test::Fail;
use ttcn_syntax::{LexError, Name, Span, Spanned, Token, lex};

// Texts, and what each gives by the rules.
static ROWS: [(&[u8], &str); 57] = [
    (b"", ""),
    (b" \t\r\n\x0b\x0c", ""),
    (b"a//b\nc", "1:1 Id(a); 2:1 Id(c); "),
    (b"a//b", "1:1 Id(a); "),
    (b"/*a*/", ""),
    (b"/**/", ""),
    (b"/***/", ""),
    (b"/*/", "OpenComment(Span { line: 1, column: 1 })"),
    (b"/* /* */", ""),
    (b"/* /* */ */", "1:10 Symbol(Star); 1:11 Symbol(Slash); "),
    (b"a\n /* b", "OpenComment(Span { line: 2, column: 2 })"),
    (b"a/b", "1:1 Id(a); 1:2 Symbol(Slash); 1:3 Id(b); "),
    (b"\"a\"\"b\"", "1:1 Text; "),
    (b"\"a\" \"\"", "1:1 Text; 1:5 Text; "),
    (b"\"a\"\"b", "OpenText(Span { line: 1, column: 1 })"),
    (b"\"\"\"", "OpenText(Span { line: 1, column: 1 })"),
    (b"\"a\nb\"c", "1:1 Text; 2:3 Id(c); "),
    (b"1.5E-3", "1:1 Float; "),
    (b"1.5E3", "1:1 Float; "),
    (b"1E3", "1:1 Float; "),
    (b"1.5", "1:1 Float; "),
    (b"1E", "1:1 Int(1); 1:2 Id(E); "),
    (b"1e5", "1:1 Int(1); 1:2 Id(e5); "),
    (b"1.", "1:1 Int(1); 1:2 Symbol(Dot); "),
    (b"1..2", "1:1 Int(1); 1:2 Symbol(DotDot); 1:4 Int(2); "),
    (b"1.5E-", "1:1 Float; 1:4 Id(E); 1:5 Symbol(Minus); "),
    (
        b"1.5E--1",
        "1:1 Float; 1:4 Id(E); 1:5 Symbol(Minus); 1:6 Symbol(Minus); 1:7 Int(1); ",
    ),
    (b"007", "1:1 Int(7); "),
    (
        b"99999999999999999999",
        "IntegerTooLarge(Span { line: 1, column: 1 })",
    ),
    (b"99999999999999999999.5", "1:1 Float; "),
    (
        b"99999999999999999999.",
        "IntegerTooLarge(Span { line: 1, column: 1 })",
    ),
    (b"9223372036854775807", "1:1 Int(9223372036854775807); "),
    (
        b"9223372036854775808",
        "IntegerTooLarge(Span { line: 1, column: 1 })",
    ),
    (b"000000000000000000000000000001", "1:1 Int(1); "),
    (b":=", "1:1 Symbol(Assign); "),
    (b": =", "1:1 Symbol(Colon); 1:3 Other(61); "),
    (b"->", "1:1 Symbol(Arrow); "),
    (b"..", "1:1 Symbol(DotDot); "),
    (b"...", "1:1 Symbol(DotDot); 1:3 Symbol(Dot); "),
    (b"===", "1:1 Symbol(Equal); 1:3 Other(61); "),
    (b"!=!", "1:1 Symbol(NotEqual); 1:3 Other(33); "),
    (b"<=<", "1:1 Symbol(LessEqual); 1:3 Symbol(Less); "),
    (b">=>", "1:1 Symbol(GreaterEqual); 1:3 Symbol(Greater); "),
    (
        b"{}()[]",
        "1:1 Symbol(LeftBrace); 1:2 Symbol(RightBrace); 1:3 Symbol(LeftParen); 1:4 Symbol(RightParen); 1:5 Symbol(LeftBracket); 1:6 Symbol(RightBracket); ",
    ),
    (
        b",;.:+-*/?",
        "1:1 Symbol(Comma); 1:2 Symbol(Semicolon); 1:3 Symbol(Dot); 1:4 Symbol(Colon); 1:5 Symbol(Plus); 1:6 Symbol(Minus); 1:7 Symbol(Star); 1:8 Symbol(Slash); 1:9 Symbol(Question); ",
    ),
    (b"a_1 _a", "1:1 Id(a_1); 1:5 Other(95); 1:6 Id(a); "),
    (
        b"Module MODULE module2",
        "1:1 Id(Module); 1:8 Id(MODULE); 1:15 Id(module2); ",
    ),
    (b"@#~", "1:1 Other(64); 1:2 Other(35); 1:3 Other(126); "),
    (b"\xc3\xa9", "BadByte(Span { line: 1, column: 1 })"),
    (b"a\0", "BadByte(Span { line: 1, column: 2 })"),
    (b"\n\n  \x7f", "BadByte(Span { line: 3, column: 3 })"),
    (b"\x08", "BadByte(Span { line: 1, column: 1 })"),
    (b"/* \xc3\xa9 */ // \xff", ""),
    (
        b"99999999999999999999 \xff",
        "IntegerTooLarge(Span { line: 1, column: 1 })",
    ),
    (
        b"\xff 99999999999999999999",
        "BadByte(Span { line: 1, column: 1 })",
    ),
    (b"/* \xff \"", "OpenComment(Span { line: 1, column: 1 })"),
    (
        b"self.stop",
        "1:1 Word(SelfWord); 1:5 Symbol(Dot); 1:6 Word(Stop); ",
    ),
];

/// What a text gives, written out: a mark for each token with its place, or the fault.
fn shown(alloc: Global, text: &[u8]) -> Result<String, AllocError> {
    match lex(alloc, text) {
        Ok(tokens) => {
            let mut out = String::new(alloc);
            for spanned in &tokens {
                let token = &spanned.token;
                let Span { line, column } = spanned.place;
                let one = format!(in alloc; "{line}:{column} {token:?}; ")?;
                out.push_str(one.as_str())?;
            }
            Ok(out)
        }
        Err(fault) => format!(in alloc; "{fault:?}"),
    }
}

#[test]
fn cuts_texts_as_written_by_hand(rt: HostRuntime) -> Result<(), Fail> {
    for (text, wanted) in &ROWS {
        let got = shown(rt.alloc(), *text)?;
        assert_eq!(rt; got.as_str(), *wanted, "at {text:?}");
    }
    Ok(())
}

// Each word of a list that stands on one line, parted by blanks.
const USED: &str =
    "activate all alt altstep and any boolean complement component connect const control create deactivate default do done else enumerated error fail false for from function if ifpresent in inconc infinity inout integer ispresent language log map message mod module mtc none not null omit on optional or out pass port receive record rem repeat return running runs self send sender setverdict start stop system template testcase timeout timer to true type unmap value var while with xor";

const LEFT_OUT: &str =
    "action address alive and4b anytype bitstring break call case catch charstring check clear continue disconnect execute extends external float friend getcall getreply getverdict goto group halt hexstring import interleave kill killed label length match modifies modulepar not4b octetstring of or4b pattern permutation private procedure public raise read reply select set signature subset superset trigger union universal valueof verdicttype xor4b";

/// Whether tokens are the words of a list.
fn are_words(tokens: &[Spanned], list: &str) -> bool {
    for (spanned, wanted) in tokens.iter().zip(list.split_whitespace()) {
        match &spanned.token {
            Token::Word(word) if word.spelling() == wanted => {}
            _ => return false,
        }
    }
    true
}

/// Whether all tokens are words that are left out.
fn are_left_out(tokens: &[Spanned]) -> bool {
    for spanned in tokens {
        if spanned.token != Token::LeftOut {
            return false;
        }
    }
    true
}

#[test]
fn knows_each_word(rt: HostRuntime) -> Result<(), Fail> {
    let used = lex(rt.alloc(), USED.as_bytes())?;
    assert!(rt; used.len() == 77 && are_words(used.as_slice(), USED));
    let left_out = lex(rt.alloc(), LEFT_OUT.as_bytes())?;
    assert!(rt; left_out.len() == 59 && are_left_out(left_out.as_slice()));
    Ok(())
}

// A text of so many bytes.
fn blanks(alloc: Global, count: usize) -> Result<Vec<u8>, AllocError> {
    vec![in alloc; b' '; count]
}

#[test]
fn refuses_a_text_that_is_too_long(rt: HostRuntime) -> Result<(), Fail> {
    let longest = blanks(rt.alloc(), 1_048_576)?;
    let tokens = lex(rt.alloc(), longest.as_slice())?;
    assert_eq!(rt; tokens.len(), 0);
    let longer = blanks(rt.alloc(), 1_048_577)?;
    match lex(rt.alloc(), longer.as_slice()) {
        Ok(_) => assert!(rt; false, "it is too long"),
        Err(fault) => assert_eq!(rt; fault, LexError::TextTooLong),
    }
    Ok(())
}

#[test]
fn tells_names_apart_by_their_bytes(rt: HostRuntime) -> Result<(), Fail> {
    let name = Name::new(rt.alloc(), b"ab")?;
    let copy = name.try_clone(rt.alloc())?;
    let longer = Name::new(rt.alloc(), b"abc")?;
    assert!(rt; name == copy);
    assert!(rt; name != longer);
    assert!(rt; name < longer);
    let text = format!(in rt.alloc(); "{longer:?}")?;
    assert_eq!(rt; text.as_str(), "abc");
    Ok(())
}
