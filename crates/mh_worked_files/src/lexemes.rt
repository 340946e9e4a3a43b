//! Grammar files and their lexemes, worked out by hand.
use crate::cases::{Subject, check_cases, digit};
use crate::filling::put;
use mh_lex::{
    Kind, Lexeme, SyntaxFault, code_is_taken, keywords_differ, lex, lexed_always, lexed_code,
    lexed_texts, lexemes_are_unique, spaced_texts_are_lexemes,
};
use std::alloc::Global;
use std::test::Fail;

fn letter_of(kind: Kind) -> u8 {
    match kind {
        Kind::Word => b'W',
        Kind::Mark => b'M',
        Kind::Percents => b'P',
        Kind::Keyword => b'K',
        Kind::Quoted => b'Q',
        Kind::Header => b'H',
        Kind::Action => b'A',
        Kind::TypeText => b'T',
        Kind::Attribute => b'R',
    }
}

/// Writes the letter of a lexeme's kind at each of its bytes, a capital letter at the first.
fn put_letters(letters: &mut Vec<u8>, lexeme: &Lexeme) {
    let first = letter_of(lexeme.kind);
    for place in lexeme.start..lexeme.end {
        if let Some(letter) = letters.get_mut(place) {
            *letter = if place == lexeme.start {
                first
            } else {
                first.to_ascii_lowercase()
            };
        }
    }
}

/// Writes the letters of all lexemes, and a dot for each byte that belongs to none.
fn put_all_letters(letters: &mut Vec<u8>, size: usize, lexemes: &[Lexeme]) {
    let _ = letters.resize(size, b'.');
    for lexeme in lexemes {
        put_letters(letters, lexeme);
    }
}

/// Appends a letter for each byte of a short file, or `!` and the digit of the line if the file has a fault.
pub fn put_lexemes(alloc: Global, letters: &mut Vec<u8>, bytes: &[u8]) {
    if bytes.len() >= 1000 {
        return put(letters, b"long");
    }
    match lex(alloc, bytes) {
        Ok(lexemes) => {
            put_all_letters(letters, bytes.len(), &lexemes);
            drop(lexemes);
        }
        Err(SyntaxFault::Syntax { line }) => put(letters, &[b'!', digit(u64::from(line))]),
        Err(SyntaxFault::Memory) => put(letters, b"no memory"),
    }
}

/// Grammar files and the letters of their bytes, with `~` between the two and `^` between cases.
fn cases() -> &'static str {
    "~^\
     _a1'B~Wwwww^\
     a b\tc\nd\re\x0cf~W.W.W.W.W.W^\
     a'b'~Wwww^\
     1~!1^\
     a\n\n'~!3^\
     a\r\n\u{e9}~!2^\
     :|=,;()?*+~MMMMMMMMMM^\
     ( *)~M.MM^\
     (*~!1^\
     %%%token~PpKkkkkk^\
     %% %% \x01\"~Pp.Pp...^\
     %%%%%%~PpPp..^\
     %token%start%type~KkkkkkKkkkkkKkkkk^\
     %left%right%nonassoc~KkkkkKkkkkkKkkkkkkkk^\
     %on_error_reduce%parameter~KkkkkkkkkkkkkkkkKkkkkkkkkk^\
     %attribute%public%inline%prec~KkkkkkkkkkKkkkkkkKkkkkkkKkkkk^\
     %tokens~!1^\
     %token'~!1^\
     %Token~!1^\
     % token~!1^\
     a\n%~!2^\
     \"\"~Qq^\
     \"\\\"\"~Qqqq^\
     \"\\\\\"a~QqqqW^\
     \"a\n\u{e9}\"a~QqqqqqW^\
     \"a~!1^\
     \n\n\"\\\"\n~!3^\
     (**)a~....W^\
     a(*)*)b~W.....W^\
     (* (* *) *)a~...........W^\
     (* (* *)~!1^\
     (* \"*)\" *)a~..........W^\
     (* '\"' *)a~.........W^\
     (* don't *)a~...........W^\
     (* {|*)|} *)a~............W^\
     \n(* \" *)~!2^\
     (* {x| *)~!1^\
     /* (* \" */a~..........W^\
     /* /* */a~........W^\
     /*/~!1^\
     /**/a~....W^\
     // \" (*\na~........W^\
     a// \u{e9}~W.....^\
     a / b~!1^\
     %{%}~Hhhh^\
     %{|%}~Hhhhh^\
     %{\n%}\n%}~!3^\
     %{\"%}\"%}a~HhhhhhhhW^\
     %{(*%}*)%}a~HhhhhhhhhhW^\
     %{'}'{]%}a~HhhhhhhhhW^\
     %{{|%}|}%}a~HhhhhhhhhhW^\
     \n%{ \n~!2^\
     {}~Aa^\
     {{}{{}}}a~AaaaaaaaW^\
     {|}~Aaa^\
     {||}~Aaaa^\
     { {|}|} }a~AaaaaaaaaW^\
     {{x|}|y}|x}}a~AaaaaaaaaaaaW^\
     {{x|}~!1^\
     {\"}\"}~Aaaaa^\
     {'}'}~Aaaaa^\
     {'\"'}~Aaaaa^\
     {'\\''}~Aaaaaa^\
     {'\\\"'\"}\"}~Aaaaaaaaa^\
     {'a'}'}~!1^\
     {'\\n'}'}~!1^\
     {'\\ '}'}~!1^\
     {'\\999'}'}~!1^\
     {'\\xfF'}'}~!1^\
     {'\\o377'}'}~!1^\
     {'\\06'}'}~Aaaaaaaaa^\
     {'\n'}'}~Aaaaaaa^\
     {'''}'}~Aaaaaaa^\
     {x'}'}~!1^\
     {(*}*)}~Aaaaaaa^\
     a\n{(* }\n~!2^\
     {\"}~!1^\
     a\n{\n{}\n~!2^\
     { // }~Aaaaaa^\
     {]\u{e9}}~Aaaaa^\
     }~!1^\
     <a->b>c~TtttttW^\
     <->>a~TtttW^\
     <(*>*)>a~TttttttW^\
     <'(*'*)>~Tttttttt^\
     <\">a~TttW^\
     \n<(* >\n~!2^\
     <a->~!1^\
     <a>>~!1^\
     [@a]b~RrrrW^\
     %[@a]b~RrrrrW^\
     [@[]\"]\"]b~RrrrrrrrW^\
     [@']'(*]*)]b~RrrrrrrrrrrW^\
     [@{|]|}]b~RrrrrrrrW^\
     [@}]~Rrrr^\
     [@a~!1^\
     %[@~!1^\
     [a]~!1^\
     %[a]~!1^\
     %token A EOF\n%start s\n%%\ns: A EOF { f \"}\" '\"' {x| |} |x} (* } \"*)\" *) }\n~Kkkkkk.W.Www.Kkkkkk.W.Pp.WM.W.Www.Aaaaaaaaaaaaaaaaaaaaaaaaaaaaaaaaaaaaa.^\
     %token A EOF\n%start s\n%%\ns: A EOF { f \"}\" '\"' {x|~!4"
}

#[test]
fn lexes(rt: HostRuntime) -> Result<(), Fail> {
    lexed_always();
    lexemes_are_unique();
    spaced_texts_are_lexemes();
    lexed_texts();
    lexed_code();
    code_is_taken();
    keywords_differ();
    check_cases(rt.alloc(), &Subject::Lexemes, cases(), 102)
}
