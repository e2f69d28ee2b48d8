//! The text of terms, and that it is read back (plwrite, plread).
use crate::made::term_of;
use plops::table::OpTable;
use plterm::term::Term;
use plwrite::style::Style;
use plwrite::write::{write_clause, write_term};
use std::alloc::Global;
use std::test::Fail;

/// A term as program text, and its texts in the styles Plain, Quoted and Canonical.
type StyleRow = (&'static str, &'static str, &'static str, &'static str);

/// Terms that are listed in the text of the style Quoted.
const STYLES: [&[StyleRow]; 10] = [
    &[
        (
            "a :- b, 'X y'",
            "a:-b,X y",
            "a:-b,'X y'",
            ":-(a,','(b,'X y'))",
        ),
        ("[7,_|q/0]", "[7,_1|q/0]", "[7,_1|q/0]", "[7,_1|/(q,0)]"),
        ("a", "a", "a", "a"),
        ("'B'", "B", "'B'", "'B'"),
        (
            "'hello world'",
            "hello world",
            "'hello world'",
            "'hello world'",
        ),
        ("[]", "[]", "[]", "[]"),
        ("{}", "{}", "{}", "{}"),
        ("'[]'(x)", "[](x)", "'[]'(x)", "'[]'(x)"),
    ],
    &[
        ("'{}'(x)", "{x}", "{x}", "{x}"),
        ("!", "!", "!", "!"),
        (";", ";", ";", ";"),
        ("','", ",", "','", "','"),
        ("'|'", "|", "'|'", "'|'"),
        ("'it''s'", "it's", "'it\\'s'", "'it\\'s'"),
        ("'a\\\\b'", "a\\b", "'a\\\\b'", "'a\\\\b'"),
        ("''", "", "''", "''"),
    ],
    &[
        ("'é'", "é", "'é'", "'é'"),
        ("'.'", ".", "'.'", "'.'"),
        ("'/*'", "/*", "'/*'", "'/*'"),
        ("'a.b'", "a.b", "'a.b'", "'a.b'"),
        ("42", "42", "42", "42"),
        ("-7", "-7", "-7", "-7"),
        ("- 7", "-(7)", "-(7)", "-(7)"),
        ("-(7)", "-(7)", "-(7)", "-(7)"),
    ],
    &[
        ("- (7)", "-(7)", "-(7)", "-(7)"),
        ("-(-(7))", "- -(7)", "- -(7)", "-(-(7))"),
        ("0'a", "97", "97", "97"),
        ("0x1F", "31", "31", "31"),
        ("\"ab\"", "[97,98]", "[97,98]", "[97,98]"),
        ("1 - 2", "1-2", "1-2", "-(1,2)"),
        ("1 - (-2)", "1- -2", "1- -2", "-(1,-2)"),
        ("a - (b - c)", "a-(b-c)", "a-(b-c)", "-(a,-(b,c))"),
    ],
    &[
        ("a - b - c", "a-b-c", "a-b-c", "-(-(a,b),c)"),
        ("a :- b, c", "a:-b,c", "a:-b,c", ":-(a,','(b,c))"),
        ("f((a :- b))", "f((a:-b))", "f((a:-b))", "f(:-(a,b))"),
        ("f((a , b))", "f((a,b))", "f((a,b))", "f(','(a,b))"),
        ("(a , b) :- c", "a,b:-c", "a,b:-c", ":-(','(a,b),c)"),
        ("[a, b]", "[a,b]", "[a,b]", "[a,b]"),
        ("{a, b}", "{a,b}", "{a,b}", "{','(a,b)}"),
        ("f(X, Y, X)", "f(_1,_2,_1)", "f(_1,_2,_1)", "f(_1,_2,_1)"),
    ],
    &[
        ("f(_, _)", "f(_1,_2)", "f(_1,_2)", "f(_1,_2)"),
        ("\\+ a", "\\+a", "\\+a", "\\+(a)"),
        ("\\+ (a , b)", "\\+ (a,b)", "\\+ (a,b)", "\\+(','(a,b))"),
        ("- - a", "- -a", "- -a", "-(-(a))"),
        ("- a", "-a", "-a", "-(a)"),
        ("-(-)", "- (-)", "- (-)", "-(-)"),
        ("a = \\+", "a=(\\+)", "a=(\\+)", "=(a,\\+)"),
        ("[(:-)]", "[:-]", "[:-]", "[:-]"),
    ],
    &[
        ("f(:-, b)", "f(:-,b)", "f(:-,b)", "f(:-,b)"),
        (":- a", ":-a", ":-a", ":-(a)"),
        ("?- a", "?-a", "?-a", "?-(a)"),
        ("2 ** 3", "2**3", "2**3", "**(2,3)"),
        ("2 ^ 3 ^ 4", "2^3^4", "2^3^4", "^(2,^(3,4))"),
        ("(2 ^ 3) ^ 4", "(2^3)^4", "(2^3)^4", "^(^(2,3),4)"),
        ("- (2 ^ 3)", "- 2^3", "- 2^3", "-(^(2,3))"),
        ("(- 2) ^ 3", "-(2)^3", "-(2)^3", "^(-(2),3)"),
    ],
    &[
        ("(- a) ^ 3", "(-a)^3", "(-a)^3", "^(-(a),3)"),
        ("-2 ^ 3", "-2^3", "-2^3", "^(-2,3)"),
        (
            "X is Y mod 2",
            "_1 is _2 mod 2",
            "_1 is _2 mod 2",
            "is(_1,mod(_2,2))",
        ),
        ("a -> b ; c", "a->b;c", "a->b;c", ";(->(a,b),c)"),
        ("(a ; b) -> c", "(a;b)->c", "(a;b)->c", "->(;(a,b),c)"),
        ("dynamic p", "dynamic p", "dynamic p", "dynamic(p)"),
        ("f(dynamic)", "f(dynamic)", "f(dynamic)", "f(dynamic)"),
        ("dynamic", "dynamic", "dynamic", "dynamic"),
    ],
    &[
        ("\\ a", "\\a", "\\a", "\\(a)"),
        ("\\ \\ a", "\\ \\a", "\\ \\a", "\\(\\(a))"),
        ("1 = 2", "1=2", "1=2", "=(1,2)"),
        ("a \\== b", "a\\==b", "a\\==b", "\\==(a,b)"),
        (
            "f(A, B) =.. C",
            "f(_1,_2)=.._3",
            "f(_1,_2)=.._3",
            "=..(f(_1,_2),_3)",
        ),
        ("f(- 1)", "f(-(1))", "f(-(1))", "f(-(1))"),
        ("[- a]", "[-a]", "[-a]", "[-(a)]"),
        ("1 + 2 * 3", "1+2*3", "1+2*3", "+(1,*(2,3))"),
    ],
    &[
        ("(1 + 2) * 3", "(1+2)*3", "(1+2)*3", "*(+(1,2),3)"),
        ("'X' is 'Y'", "X is Y", "'X'is 'Y'", "is('X','Y')"),
        ("'$VAR'(-1)", "$VAR(-1)", "'$VAR'(-1)", "'$VAR'(-1)"),
        ("'$VAR'(x)", "$VAR(x)", "'$VAR'(x)", "'$VAR'(x)"),
        ("[a|X]", "[a|_1]", "[a|_1]", "[a|_1]"),
        ("[a, b|c]", "[a,b|c]", "[a,b|c]", "[a,b|c]"),
        ("'\\n'", "\n", "'\\n'", "'\\n'"),
    ],
];

/// Terms that are listed in the text of the style Canonical.
const LETTERS: [StyleRow; 2] = [
    ("'$VAR'(1)", "B", "B", "'$VAR'(1)"),
    ("'$VAR'(27)", "B1", "B1", "'$VAR'(27)"),
];

/// Whether a term is written so in a style.
fn is_written(
    alloc: Global,
    term: &Term,
    operators: &OpTable,
    style: Style,
    wanted: &str,
) -> Result<bool, Fail> {
    let text = write_term(alloc, term, operators, style)?;
    Ok(text.as_slice() == wanted.as_bytes())
}

/// Whether a text spells the term that is canonically written so.
fn is_read(alloc: Global, text: &str, operators: &OpTable, canonical: &str) -> Result<bool, Fail> {
    let term = term_of(alloc, text)?;
    is_written(alloc, &term, operators, Style::Canonical, canonical)
}

/// Whether a term is written as its row tells, and listed so.
fn are_written(
    alloc: Global,
    term: &Term,
    operators: &OpTable,
    row: &StyleRow,
    listed: &str,
) -> Result<bool, Fail> {
    let (_, plain, quoted, canonical) = *row;
    Ok(
        is_written(alloc, term, operators, Style::Plain, plain)?
            && is_written(alloc, term, operators, Style::Quoted, quoted)?
            && is_written(alloc, term, operators, Style::Canonical, canonical)?
            && is_written(alloc, term, operators, Style::Listed, listed)?,
    )
}

/// A text's term, with other numbers for its variables.
fn copy_of(alloc: Global, text: &str) -> Result<Term, Fail> {
    let term = term_of(alloc, text)?;
    Ok(term.copy(alloc, 9)?)
}

/// Whether the term of a row, whatever the numbers of its variables are, is written so, and what is written canonical, and
/// as it is listed, is read back.
fn is_row(alloc: Global, operators: &OpTable, row: &StyleRow, listed: &str) -> Result<bool, Fail> {
    let (source, _, _, canonical) = *row;
    let term = copy_of(alloc, source)?;
    Ok(
        are_written(alloc, &term, operators, row, listed)?
            && is_read(alloc, canonical, operators, canonical)?
            && is_read(alloc, listed, operators, canonical)?,
    )
}

/// The first term of which that is not so, where all are listed in the text of this style.
fn first_wrong(
    alloc: Global,
    operators: &OpTable,
    listed: Style,
    rows: &[StyleRow],
) -> Result<Option<&'static str>, Fail> {
    for row in rows.iter() {
        let text = if listed == Style::Quoted {
            row.2
        } else {
            row.3
        };
        if !is_row(alloc, operators, row, text)? {
            return Ok(Some(row.0));
        }
    }
    Ok(None)
}

/// The same under the standard operators.
fn first_wrong_of_iso(
    alloc: Global,
    listed: Style,
    rows: &[StyleRow],
) -> Result<Option<&'static str>, Fail> {
    let operators = OpTable::iso(alloc)?;
    first_wrong(alloc, &operators, listed, rows)
}

// Terms in the four styles; what is written canonical or as it is listed is read back.
#[test]
fn styles(rt: HostRuntime) -> Result<(), Fail> {
    for rows in STYLES {
        assert_eq!(rt; first_wrong_of_iso(rt.alloc(), Style::Quoted, rows)?, None);
    }
    assert_eq!(rt;
        first_wrong_of_iso(rt.alloc(), Style::Canonical, &LETTERS)?,
        None
    );
    Ok(())
}

/// Whether a text's clause is listed so.
fn is_line(alloc: Global, operators: &OpTable, source: &str, wanted: &str) -> Result<bool, Fail> {
    let term = term_of(alloc, source)?;
    let line = write_clause(alloc, &term, operators)?;
    Ok(line.as_slice() == wanted.as_bytes())
}

// A listed clause has its full stop and a newline; a symbol stands apart from the full stop.
#[test]
fn lines(rt: HostRuntime) -> Result<(), Fail> {
    let alloc = rt.alloc();
    let operators = OpTable::iso(alloc)?;
    assert!(rt;
        is_line(alloc, &operators, "a :- b, 'X y'", "a:-b,'X y'.\n")?
            && is_line(alloc, &operators, "+", "+ .\n")?
    );
    Ok(())
}

// `'$VAR'(N)` is a variable as write/1 and writeq/1 write it (7.10.5), and in no other style.
#[test]
fn letters(rt: HostRuntime) {
    for (style, has) in [
        (Style::Plain, true),
        (Style::Quoted, true),
        (Style::Canonical, false),
        (Style::Listed, false),
    ] {
        assert_eq!(rt; style.has_letters(), has, "{style:?}");
    }
}
