//! Grammar files and the modules that they spell, worked out by hand.
use crate::cases::{Subject, Wanted, check_answer, check_cases, put_number};
use crate::filling::put;
use crate::messages::put_made;
use mh_grammar::Memory;
use mh_lex::SyntaxFault;
use mh_reader::{print_module, read_module};
use mh_reader_parser::{Module, spelled_once};
use std::alloc::Global;
use std::test::Fail;

/// The module of a short grammar file.
fn module_of(alloc: Global, bytes: &[u8]) -> Result<Module, SyntaxFault> {
    if bytes.len() > 10_000 {
        return Err(SyntaxFault::Memory);
    }
    read_module(alloc, bytes)
}

/// Appends `+` if the bytes spell a module, else the number of the line at fault.
fn put_verdict(alloc: Global, text: &mut Vec<u8>, bytes: &[u8]) {
    match module_of(alloc, bytes) {
        Ok(module) => {
            drop(module);
            put(text, b"+");
        }
        Err(SyntaxFault::Syntax { line }) => put_number(alloc, text, u64::from(line)),
        Err(SyntaxFault::Memory) => put(text, b"no memory"),
    }
}

/// The printed module of a short grammar file, or an empty text if the file spells no module.
fn printed(alloc: Global, bytes: &[u8]) -> Result<Vec<u8>, Memory> {
    if bytes.len() > 10_000 {
        return Ok(Vec::new(alloc));
    }
    match read_module(alloc, bytes) {
        Ok(module) => {
            let text = print_module(alloc, &module);
            drop(module);
            text
        }
        Err(_) => Ok(Vec::new(alloc)),
    }
}

/// Appends the printed module of a short grammar file.
pub fn put_printed(alloc: Global, text: &mut Vec<u8>, bytes: &[u8]) {
    put_made(text, printed(alloc, bytes));
}

/// Returns true if the printed module of a file is the file itself.
fn is_printed(alloc: Global, bytes: &[u8]) -> bool {
    match printed(alloc, bytes) {
        Ok(text) => text.as_slice() == bytes,
        Err(_) => false,
    }
}

/// Returns true if a file spells a module, and if the printed module is printed as itself.
fn is_kept(alloc: Global, bytes: &[u8]) -> bool {
    match printed(alloc, bytes) {
        Ok(text) => {
            let is_same = !text.is_empty() && is_printed(alloc, text.as_slice());
            drop(text);
            is_same
        }
        Err(_) => false,
    }
}

/// Appends `+` if the bytes spell a module, else the number of the line at fault; and a remark if `is_kept` disagrees
/// with this.
pub fn put_kept(alloc: Global, text: &mut Vec<u8>, bytes: &[u8]) {
    put_verdict(alloc, text, bytes);
    if is_kept(alloc, bytes) != (text.as_slice() == b"+".as_slice()) {
        put(text, b" but not when printed");
    }
}

/// Grammar files and their results, with `~` between the two and `^` between cases.
fn cases() -> &'static str {
    "~1^\
     \n\n~3^\
     %%~+^\
     %%%%~+^\
     %%\n%%\ns: ( {~+^\
     %token A EOF\n%start s\n%%\ns: A EOF {}\n~+^\
     %token A EOF\n%start s\ns: A EOF {}\n~3^\
     %token A\n~2^\
     %token A~1^\
     %token <t> A B, C \"c\" , D\n%%~+^\
     %token\n%%~+^\
     %token A,\n, B %%~2^\
     %token A,\n%%~2^\
     %token\n<t>\n<t> A %%~3^\
     %token A\nb %%~2^\
     %token A \"a\"\n\"b\" %%~2^\
     %token \"a\" %%~1^\
     %token , A %%~+^\
     %start <t> s %%~+^\
     %start s <t>\n%%~1^\
     %start s, t u %%~+^\
     %start s \"t\" %%~1^\
     %type <t> s, a(b, \"c\")? %%~+^\
     %type s %%~1^\
     %type <t> %%~+^\
     %left A, \"b\" C %right %nonassoc d %%~+^\
     %left <t> A %%~1^\
     %left A B,\n,C %%~2^\
     %on_error_reduce a b(c)+ , d %%~+^\
     %on_error_reduce a(b,) %%~1^\
     %on_error_reduce a =\nb %%~1^\
     %parameter <M> %parameter\n%%~2^\
     %parameter <M>\n<M> %%~2^\
     %attribute a b* [@x 1] %%~+^\
     [@a] %token [@b] A [@c] \"a\" [@d] %% [@e] s [@f] : [@g] A [@h] {} [@i]~+^\
     %{ x %} ; ; %token A ; %{ y %} %%~+^\
     %% ; s: {}~1^\
     %%\n%% s~+^\
     %% s: {} ; ; t: {} u: {} %%~+^\
     %% s: {} ;\n| {}~2^\
     %% s: A ; ; B ; {}~+^\
     %% s: ; A {}~1^\
     %% s: A %prec B ; {}~1^\
     %% s: A %prec \"b\" | B {} %prec C | {}~+^\
     %% s: A %prec B\nC {}~2^\
     %% s: A {} %prec B\n%prec C~2^\
     %% s: A {} %prec\n{}~2^\
     %% s: | A {} | B | {}~+^\
     %% s: | | A {}~+^\
     %% s: | {}~+^\
     %% s:~1^\
     %% s: A\n\n~3^\
     %% s: A |\n~2^\
     %% s: A {} |\n~2^\
     %% s: A {} \"b\"~1^\
     %% s: (* ( *) A {(* } *)}~+^\
     %% %public %inline %public s: {}~+^\
     %% %public\n: {}~2^\
     %% s\n%public: {}~2^\
     %% s(): {} t(a): {} u(a, b): {}~+^\
     %% s(a,): {}~1^\
     %% s(,): {}~1^\
     %% s(\"a\"): {}~1^\
     %% s(a)\n(b): {}~2^\
     %% s: x = A y = b(c) z = \"d\"? {}~+^\
     %% s: x =\n= A {}~2^\
     %% s: x = y\n= A {}~2^\
     %% s: \"x\"\n= A {}~2^\
     %% s: a()\n {}~1^\
     %% s: a(b, c?(d)) {}~1^\
     %% s: a(b(c)*, \"d\"+)?+ {}~+^\
     %% s: a?\n(b) {}~2^\
     %% s: ? {}~1^\
     %% s: a, b {}~1^\
     %% s: <t> {}~1^\
     %token A\n%%\ns: A {}\n)\n\"~5^\
     %% s: A {} )\n%{~2^\
     %token A \"\" B \"\\\"\" %%~+^\
     %left %right %nonassoc %%~+^\
     %on_error_reduce %on_error_reduce \"a\" %%~+^\
     %start s %start s %%~+^\
     %% s: \"a\"(\"b\") {}~+^\
     %% s: error {} error: {}~+^\
     %% s(x): x(x) {} %%~+^\
     %% s: {} %prec \"a\" | {} %prec b~+^\
     %% s: | A | %prec B {} %prec C~+^\
     %% %inline s: a* b+ c? {}~+^\
     %% s: A_'1 {}~+^\
     %%s:{}t:|{}|{}%%%%~+"
}

/// A grammar file in which one part is repeated, to nest an actual in many brackets or suffixes.
fn deep_file(alloc: Global, front: &str, repeated: &str, times: usize, back: &str) -> Vec<u8> {
    let mut bytes = Vec::new(alloc);
    put(&mut bytes, front.as_bytes());
    for _ in 0..times {
        put(&mut bytes, repeated.as_bytes());
    }
    put(&mut bytes, back.as_bytes());
    bytes
}

/// The beginning, the repeated part, the number of repetitions, the end and the result, with `~` between them and `^`
/// between cases.
const DEPTHS: &str = "%%\n\n\ns: A~?~999~\n{}\n~+^\
     %%\n\n\ns: A~?~1000~\n{}\n~4^\
     %%\ns: ~a(~999~a\n~3^\
     %%\ns: ~a(~999~a\n(\n\n~3^\
     %%\ns: ~a(~999~a\n?\n\n~3^\
     %%\ns: ~a(~998~a?\n?\n\n~3^\
     %%\ns: ~\na(~1000~a~1002^\
     %%\n%%\n~a(~1001~a~+^\
     %type <t> a~*~1000~%%~1";

/// Appends the result for a file that is built from these parts.
pub fn put_depth(alloc: Global, text: &mut Vec<u8>, given: &str) {
    let mut parts = given.split('~');
    let front = parts.next().unwrap_or("");
    let repeated = parts.next().unwrap_or("");
    let times = parts.next().unwrap_or("").parse().unwrap_or(0);
    let back = parts.next().unwrap_or("");
    let bytes = deep_file(alloc, front, repeated, times, back);
    put_verdict(alloc, text, &bytes);
    drop(bytes);
}

const FILE: &str =
    "%{ open M %}\n%token <int> INT \"1\\\"\" [@x], EOF\n%token C\n%start <t> s %start u, v\n\
    %type <t> x(y) %left INT \"+\" %nonassoc %right C, D\n%on_error_reduce a, b(c, d?) %on_error_reduce e*\n\
    %attribute a [@b] %parameter <M : S>\n%%\n\
    %public s: | x = INT; y = e(INT, \"1\")? ; EOF {} | B | C %prec INT {} %prec \"+\" | D {} ;;\n\
    %inline %public %inline e(x, y): a(b(c)*) z=\"q\"+ { (* { *) }\n%inline u(): {}\n%% rest \"";

const PRINTED: &str = "%token INT \"1\\\"\" %token EOF %token C %start s %start u %start v \
    %left INT \"+\" %nonassoc %right C D %on_error_reduce a b ( c , option ( d ) ) %on_error_reduce list ( e ) %% \
    %public s : | INT option ( e ( INT , \"1\" ) ) EOF {} | B %prec \"+\" {} | C %prec INT {} | D {} \
    %public %inline e ( x , y ) : | a ( list ( b ( c ) ) ) nonempty_list ( \"q\" ) {} %inline u : | {} ";

/// Declarations, with `~` before the costs of the tokens that they declare, `-` for a token without a cost; `^` is
/// between cases.
const COSTS: &str = "%token A [@cost 5] B %%~5 -^\
     %token A [@cost 0] B [@cost 1001] C [@cost 1000] D [@cost 1] %%~- - 1000 1^\
     %token A [@cost 05] B [@cost5] C[@cost 5] %%~- - 5^\
     %token A \"a\" [@cost 5] B [@cost 6] \"b\" C %%~5 6 -^\
     %token A [@cost 5] \"a\" [@cost 6] %%~5^\
     %token A [@cost 5] [@cost 6] B %%~5 -^\
     %token A [@cost x] [@cost 6] B %%~6 -^\
     %token A [@name 3] [@cost 6] B %%~6 -^\
     %token A, [@cost 5] B %%~- -^\
     %token [@cost 5] A %%~-^\
     %token A %[@cost 5] %%~-^\
     %token A [@cost (* c *) 5] %%~-^\
     %token A (* c *) [@cost\t\n\r\x0c 7\t] %%~7^\
     %token A [@cost 5 6] B [@cost -5] C [@cost 12345678901234567890] %%~- - -^\
     %token <t> A [@cost 9] %token A [@cost 3] %%~9 3^\
     %start [@cost 3] s %token A [@cost 999] %%~999";

fn put_costs_of(alloc: Global, text: &mut Vec<u8>, module: &Module) {
    for token in module.tokens.as_slice() {
        put(text, if text.is_empty() { b"" } else { b" " });
        match token.cost {
            Some(cost) => put_number(alloc, text, u64::from(cost)),
            None => put(text, b"-"),
        }
    }
}

/// Appends the costs of the tokens of a short file, or nothing if the file spells no module.
pub fn put_costs(alloc: Global, text: &mut Vec<u8>, bytes: &[u8]) {
    if let Ok(module) = module_of(alloc, bytes) {
        put_costs_of(alloc, text, &module);
        drop(module);
    }
}

/// Appends the costs of the tokens in the printed module of a file.
pub fn put_costs_again(alloc: Global, text: &mut Vec<u8>, bytes: &[u8]) {
    if let Ok(again) = printed(alloc, bytes) {
        put_costs(alloc, text, &again);
        drop(again);
    }
}

/// Exactly 40 of the files spell a module. Printing a module keeps the costs of its tokens.
#[test]
fn modules(rt: HostRuntime) -> Result<(), Fail> {
    let alloc = rt.alloc();
    spelled_once();
    assert!(rt; cases().split("~+").count() == 41);
    check_cases(alloc, &Subject::Kept, cases(), 89)?;
    check_cases(alloc, &Subject::Depth, DEPTHS, 9)?;
    check_answer(alloc, &Subject::Printed, FILE, &Wanted::Whole(PRINTED))?;
    check_cases(alloc, &Subject::Costs, COSTS, 16)?;
    check_cases(alloc, &Subject::CostsAgain, COSTS, 16)
}
