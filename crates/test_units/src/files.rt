//! Files as a person writes them, and what is read from them.
use std::alloc::{AllocError, Global};
use std::test::Fail;
use test_corpus::{Rows, RowsError, is_wanted, read_rows};

/// A file of four rows, in a frame with a repeat.
const FILE: &str = r"# Numbers,
# and their names

-- base 10
-- frame
<<2 times [#]>>( <<row>> ){@}
# a comment

== a row
1
2
>> one
>> two
== no text
-- base 2
-- sign
>>

== turns
<<3 times a#,\#@\n\\>>;<<0 times x>>
# no comment
>> three at 3
# the last one
== what looks like a setting behind the text
x
-- base 3
>> >>
";

const KEYS: [&str; 2] = ["base", "sign"];

/// Each row: its line, title and settings, its text, and the answer that is wanted.
fn text_of_rows(alloc: Global, rows: &Rows<'_>) -> Result<String, RowsError> {
    let mut all = String::new(alloc);
    for row in &rows.rows {
        let text = rows.text(alloc, row)?;
        let wanted = row.wanted(alloc)?;
        let (line, title) = (row.line, row.title);
        let base = row.settings.get("base");
        let sign = row.settings.get("sign");
        let one = format!(in alloc; "{line} {title} {base:?} {sign:?} {text:?} {wanted:?}\n")?;
        all.push_str(one.as_str())?;
    }
    Ok(all)
}

const TOLD: &str = r#"9 a row Some("10") None "[1][2]( 1\n2 ){@}" "one\ntwo"
14 no text Some("2") Some("") "[1][2](  ){@}" ""
19 turns Some("10") None "[1][2]( a1,#0\n\\a2,#1\n\\a3,#2\n\\;\n# no comment ){@}" "three at 3"
24 what looks like a setting behind the text Some("10") None "[1][2]( x\n-- base 3 ){@}" ">>"
"#;

#[test]
fn rows_of_a_file(rt: HostRuntime) -> Result<(), Fail> {
    let alloc = rt.alloc();
    let lines: Vec<&str> = FILE.lines().collect(alloc)?;
    let rows = read_rows(alloc, lines.as_slice(), &KEYS)?;
    let all = text_of_rows(alloc, &rows)?;
    assert_eq!(rt; all.as_str(), TOLD);
    Ok(())
}

/// How a file is refused.
fn refusal(alloc: Global, file: &str) -> Result<Option<RowsError>, AllocError> {
    let lines: Vec<&str> = file.lines().collect(alloc)?;
    match read_rows(alloc, lines.as_slice(), &KEYS) {
        Ok(rows) => Ok(text_of_rows(alloc, &rows).err()),
        Err(error) => Ok(Some(error)),
    }
}

#[test]
fn malformed_files(rt: HostRuntime) -> Result<(), Fail> {
    let rows = [
        ("", None),
        ("# no row\n-- base 2\n", None),
        ("text\n", Some(RowsError::Stray(1))),
        ("\n>> answer\n", Some(RowsError::Stray(2))),
        ("== a\n>> b\nc\n", Some(RowsError::Stray(3))),
        ("== a\n>> b\n-- base 2\n", Some(RowsError::Stray(3))),
        (
            "-- frame\n<<row>>\n# c\n-- base 2\n",
            Some(RowsError::Stray(4)),
        ),
        ("== a\nb\n", Some(RowsError::NoAnswer(1))),
        ("== a\nb\n== c\n>> d\n", Some(RowsError::NoAnswer(1))),
        (
            "-- base 2\n\n-- frame\n<row>\n== a\n>> b\n",
            Some(RowsError::NoGap(3)),
        ),
        ("# c\n-- bass 2\n", Some(RowsError::UnknownKey(2))),
        (
            "== a\n-- sign\n-- bass\n>> b\n",
            Some(RowsError::UnknownKey(3)),
        ),
        (
            "== a\n>> b\n== c\n<<x times y>>\n>> d\n",
            Some(RowsError::BadRepeat(3)),
        ),
        ("== a\n<<2 times y\n>> d\n", Some(RowsError::BadRepeat(1))),
        ("== a\n<<row>>\n>> d\n", Some(RowsError::BadRepeat(1))),
        (
            "-- frame\n<<row>><<row>>\n== a\n>> d\n",
            Some(RowsError::BadRepeat(1)),
        ),
    ];
    for (file, want) in rows {
        let refused = refusal(rt.alloc(), file)?;
        assert!(rt; refused == want, "{file}: {refused:?}");
    }
    Ok(())
}

#[test]
fn wanted_answers(rt: HostRuntime) {
    let rows = [
        ("ok", "ok", true),
        ("ok", "", false),
        ("C1 Name at 2:3", "C1 Name at 2:3", true),
        ("C1 Name at 2:3", "C1 Name", true),
        ("C1 Name at 2:3", "C1", false),
        ("C1 Name at 2:3", "C1 Name at", false),
        ("C1 Name at 2:3", "C1 Name at 2:30", false),
        ("C1 Name", "C1 Name at 2:3", false),
        ("", "", true),
    ];
    for (answer, wanted, expected) in rows {
        assert_eq!(rt; is_wanted(answer, wanted), expected, "{answer}, {wanted}");
    }
}
