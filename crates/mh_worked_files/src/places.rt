//! Grammar files and the places of their names, worked out by hand.
use crate::cases::{Subject, check_cases, put_number};
use crate::filling::put;
use mh_grammar::Name;
use mh_reader::{Mention, PlacedFault, PlacedModule, Ref, Role, read_placed};
use std::alloc::Global;
use std::test::Fail;

/// Appends a word and numbers, each after a space.
fn put_counted(alloc: Global, text: &mut Vec<u8>, word: &[u8], counts: &[u64]) {
    put(text, word);
    for count in counts {
        put(text, b" ");
        put_number(alloc, text, *count);
    }
}

/// Appends a role with its numbers.
fn put_role(alloc: Global, text: &mut Vec<u8>, role: Role) {
    match role {
        Role::Token => put(text, b"token"),
        Role::Alias => put(text, b"alias"),
        Role::Start => put(text, b"start"),
        Role::Level { rank } => put_counted(alloc, text, b"level", &[rank]),
        Role::OnError { rank, item } => put_counted(alloc, text, b"actual", &[rank, item]),
        Role::Rule => put(text, b"rule"),
        Role::Formal => put(text, b"formal"),
        Role::Head {
            alternative,
            producer,
        } => put_counted(alloc, text, b"head", &[alternative, producer]),
        Role::Prec { alternative } => put_counted(alloc, text, b"prec", &[alternative]),
        Role::GroupPrec { first, last } => put_counted(alloc, text, b"group", &[first, last]),
    }
}

/// The name of a reference.
fn name_of(reference: &Ref) -> &Name {
    match reference {
        Ref::Plain(name) => name,
        Ref::Alias(name) => name,
    }
}

/// Appends the place, the role and the name of a mention.
fn put_mention(alloc: Global, text: &mut Vec<u8>, mention: &Mention) {
    put_number(alloc, text, mention.start as u64);
    put(text, b" ");
    put_role(alloc, text, mention.role);
    put(text, b" ");
    put(text, name_of(&mention.name).as_slice());
    put(text, b"; ");
}

/// Appends the mentions of a file, and the places of the attributes that give no cost.
fn put_found(alloc: Global, text: &mut Vec<u8>, found: &PlacedModule) {
    for mention in found.mentions.as_slice() {
        put_mention(alloc, text, mention);
    }
    for start in found.bad_costs.as_slice() {
        put(text, b"no cost at ");
        put_number(alloc, text, *start as u64);
        put(text, b"; ");
    }
}

/// Appends the places of a short grammar file, or the place of its syntax fault.
pub fn put_places(alloc: Global, text: &mut Vec<u8>, bytes: &[u8]) {
    if bytes.len() > 10_000 {
        return;
    }
    match read_placed(alloc, bytes) {
        Ok(found) => {
            put_found(alloc, text, &found);
            drop(found);
        }
        Err(PlacedFault::Syntax { place }) => put_counted(
            alloc,
            text,
            b"fault at",
            &[place as u64],
        ),
        Err(PlacedFault::Memory) => put(text, b"no memory"),
    }
}

/// Grammar files and their places, with `~` between the two and `^` between cases.
const PLACES: &str =
    "%token <int> A \"a\", B\n%start s\n%left A \"b\"\n%nonassoc B\n%type <t> s(A)\n\
     %on_error_reduce s t(A, u?)*\n%on_error_reduce v\n%%\nr: A {}~\
     13 token A; 15 alias a; 20 token B; 29 start s; 37 level 0 A; 39 level 0 b; 53 level 1 B; \
     87 actual 0 0 s; 89 actual 0 1 t; 91 actual 0 1 A; 94 actual 0 1 u; 95 actual 0 1 option; \
     97 actual 0 1 list; 116 actual 1 0 v; 121 rule r; 124 head 0 0 A; ^\
     %%\n%public s(x, y): | n = x; A \"b\"(c)? %prec D | {} %prec E | q = t+ {} | z {} ;\n\
     %inline t: {}\nu: | v | w {}%%~\
     11 rule s; 13 formal x; 16 formal y; 26 head 0 0 x; 29 head 0 1 A; 31 head 0 2 b; 35 head 0 2 c; \
     37 head 0 2 option; 45 prec 0 D; 58 group 0 1 E; 66 head 2 0 t; 67 head 2 0 nonempty_list; \
     74 head 3 0 z; 89 rule t; 95 rule u; 100 head 5 0 v; 104 head 6 0 w; ^\
     %token A [@cost 0] B [@cost 5] [@costs] C [@cost] %%~\
     7 token A; 19 token B; 40 token C; no cost at 9; no cost at 31; no cost at 42; ^\
     %%~^\
     %token A\r\n%%\r\ns: A )~fault at 19^\
     %token A \"a\n%%~fault at 9^\
     %%\ns: A~fault at 7";

/// The names of grammar files are found at the beginnings of their lexemes, in the order of the text.
#[test]
fn names_have_places(rt: HostRuntime) -> Result<(), Fail> {
    check_cases(rt.alloc(), &Subject::Places, PLACES, 7)
}
