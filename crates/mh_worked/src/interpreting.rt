//! Verdicts on the lines of the input.
use mh_worked_cases::{Outcome, check_cases, run_with};
use mh_worked_files::put;
use std::process::Abort;
use std::test::Fail;

const VERDICTS: &str = "0 --interpret g.mly
~
g.mly
%token A EOF
%start s
%%
s: A EOF {}
~
A EOF
A
A A
EOF

A EOF A
A Z
1
\tA\r EOF~
ACCEPT
OVERSHOOT
REJECT
REJECT
OVERSHOOT
ACCEPT
ERROR unknown token Z
ERROR unreadable
ACCEPT
~
^
0 --interpret g.mly
~
g.mly
%token A EOF
%start s
%%
s: A EOF {}
~
~
~
^
0 --interpret g.mly
~
g.mly
%start s
%%
s: {}
~

~
ACCEPT
~
^
0 --interpret g.mly
~
g.mly
%token A B EOF
%start s
%%
s: A EOF {}
~
B
A B
~
REJECT
REJECT
~
^
0 --interpret g.mly
~
g.mly
%token COMMA X Y EOF
%start main
%%
main: separated_list(COMMA, X) Y* EOF {}
list(E): E E {}
~
X COMMA X Y Y EOF
EOF
X COMMA Y Y EOF
Y Y EOF
~
ACCEPT
REJECT
REJECT
ACCEPT
~
^
0 --interpret g.mly
~
g.mly
%token C D
%start s
%%
s: c c {}
c: C c {} | D {}
~
D D
C C D C D
C D
C D D D
D D D
~
ACCEPT
ACCEPT
OVERSHOOT
ACCEPT
ACCEPT
~
^
0 --interpret g.mly
~
g.mly
%token INT PLUS TIMES EOF
%start main
%%
main: e EOF {}
e: e PLUS t {} | t {}
t: t TIMES INT {} | INT {}
~
INT PLUS INT TIMES INT EOF
INT TIMES PLUS
INT PLUS INT
EOF
~
ACCEPT
REJECT
OVERSHOOT
REJECT
~
";

// With two start symbols, each line names one. The first fault of a line is reported, in this order: its form, its
// start symbol, its tokens.
const STARTS: &str = "0 --interpret g.mly
~
g.mly
%token A B C D
%start p q
%%
p: x A {}
q: x B {}
x: C D {}
~
C D A
p : C D A
r: C
q:C D B
\tq\r:C D A
q:
p: C Z D Y

r: Z 1
r: Z
C 1
Z
p q: C
p: q: C
: C
p:: C
~
ERROR missing start
ACCEPT
ERROR unknown start r
ACCEPT
REJECT
OVERSHOOT
ERROR unknown token Z
ERROR missing start
ERROR unreadable
ERROR unknown start r
ERROR unreadable
ERROR missing start
ERROR unreadable
ERROR unreadable
ERROR unreadable
ERROR unreadable
~
^
0 --interpret g.mly
~
g.mly
%token A EOF
%start s
%%
s: A EOF {}
~
s:A EOF
s:\x20
A:EOF
A EOF
~
ACCEPT
OVERSHOOT
ERROR unknown start A
ACCEPT
~
";

// The parts of a grammar file that are skipped: actions with strings, characters, quoted strings and comments in them,
// headers, types, attributes, trailers, names of producers.
const FORMS: &str = r#"0 --interpret g.mly
~
g.mly
%token A EOF
%start s
%%
s: A EOF { f "}" '"' {x| |} |x} (* } "*)" *) }
~
A EOF
~
ACCEPT
~
^
0 --interpret g.mly
~
g.mly
%{ h %} %token <int> A [@cost 2] %token EOF %start <u> s %type <v> a
%% %public s: | a EOF {} a: A {} %% }
~
A EOF
EOF
~
ACCEPT
REJECT
~
^
0 --interpret g.mly
~
g.mly
%token A "a" EOF // a remark
%start s /* another */
%% (* c *)
s: x = "a"; EOF { }
~
A EOF
~
ACCEPT
~
^
0 --interpret --strict g.mly
~
g.mly
%{ open Ast %}
%token <int> INT
%token PLUS "+" TIMES "*" LPAREN "(" RPAREN ")" EOF
%left "+"
%left "*"
%start <Ast.expr> main
%%
main: e = expr; EOF { e }
expr:
| n = INT { Int n }
| "(" e = expr ")" { e }
| a = expr "+" b = expr { Add (a, b) }
| a = expr "*" b = expr { Mul (a, b) }
~
INT PLUS INT TIMES INT EOF
LPAREN INT RPAREN EOF
LPAREN INT EOF
~
ACCEPT
ACCEPT
REJECT
~
^
0 --interpret g.mly
~
g.mly
%token A B EOF
%token A
%start s
%start t s
%%
s: A EOF {}
t: B? EOF {}
~
s: A EOF
t: EOF
t: B EOF
t: B B
~
ACCEPT
ACCEPT
ACCEPT
REJECT
~
"#;

// Grammars in which levels make a token an error, in which levels resolve a conflict, and in which an error is found
// after a reduction.
const LEVELS: &str = "0 --interpret g.mly
~
g.mly
%token INT EQ EOF
%nonassoc EQ
%start main
%%
main: e EOF {}
e: INT {} | e EQ e {}
~
INT EQ INT EQ INT
INT EQ INT EQ
INT EQ INT EOF
INT EQ
~
REJECT
REJECT
ACCEPT
OVERSHOOT
~
^
0 --interpret g.mly
~
g.mly
%token X SEMI EOF
%on_error_reduce s
%start main
%%
main: s EOF {}
s: X {} | X SEMI {}
~
X X
X SEMI X
X SEMI EOF
X EOF
~
REJECT
REJECT
ACCEPT
ACCEPT
~
";

const SUMS: &str = "%token EOF LP RP INT
%token OP1
%token OP2
%start main
%%
main: e1 EOF {}
e1: e1 OP1 e2 {} | e2 {}
e2: e2 OP2 a {} | a {}
a: INT {} | LP e1 RP {}
";

/// Appends a sum in parentheses. In every third line that has parentheses, the last one is missing.
fn push_sum(text: &mut Vec<u8>, number: u32) {
    let depth = number % 17;
    put_times(text, b"LP ", depth);
    put(text, b"INT ");
    for place in 1..=number % 5 {
        put(
            text,
            if number % 2 == 0 || place % 2 == 0 {
                b"OP1 INT "
            } else {
                b"OP2 INT "
            },
        );
    }
    let closed = if number % 3 == 0 && depth > 0 {
        depth - 1
    } else {
        depth
    };
    put_times(text, b"RP ", closed);
    put(text, b"EOF\n");
}

fn put_times(text: &mut Vec<u8>, part: &[u8], count: u32) {
    for _ in 0..count {
        put(text, part);
    }
}

/// The number of lines that equal this line.
fn count_lines(text: &[u8], line: &[u8]) -> usize {
    text.split(|byte| *byte == b'\n')
        .filter(|found| *found == line)
        .count()
}

fn check_sums(rt: &impl Abort, got: &Outcome) {
    let accepted = count_lines(&got.out, b"ACCEPT");
    let rejected = count_lines(&got.out, b"REJECT");
    assert!(rt;
        accepted == 2059 && rejected == 941,
        "{accepted} and {rejected}"
    );
    assert!(rt; got.status == 0 && got.out.len() == 3000 * 7);
}

// The numbers of the sums are 0 to 2,999. Of these, 1,000 are multiples of 3, and 59 of them are multiples of 17 too,
// so they have no parentheses. The other 941 sums lack a closing parenthesis and are rejected.
#[test]
fn three_thousand_sums(rt: HostRuntime) -> Result<(), Fail> {
    let mut input = Vec::new(rt.alloc());
    for number in 0..3000 {
        push_sum(&mut input, number);
    }
    let got = run_with(rt.alloc(), "--interpret g.mly", SUMS, &input);
    drop(input);
    check_sums(&rt, &got?);
    Ok(())
}

#[test]
fn verdicts_of_lines(rt: HostRuntime) -> Result<(), Fail> {
    let alloc = rt.alloc();
    check_cases(alloc, VERDICTS)?;
    check_cases(alloc, STARTS)?;
    check_cases(alloc, FORMS)?;
    check_cases(alloc, LEVELS)
}
