//! Sessions.
use mh_worked_cases::{check_cases, check_cases_with};
use std::test::Fail;

const REPLIES: &str = "0 --session g.mly
~
g.mly
%token A EOF
%start s
%%
s: A EOF {}
~
begin a
offer a A
fork a b
resume a
offer a EOF
resume a
resume a
resume b
offer b A
resume b
offer b A
forget b
resume b
begin a
tree a
offer a Z
~
a input-needed 0
a shifting 0 A
b shifting 0 A
a input-needed 1
a shifting 1 EOF
a about-to-reduce 3 s -> A EOF
a accepted
b input-needed 1
b handling-error 1
b rejected
error: wrong phase: rejected
b forgotten
error: unknown name
error: name taken
a [s: A EOF]
error: unknown token Z
~
^
0 --session g.mly
~
g.mly
%token A B
%start p q
%%
p: A {}
q: B {}
~
begin a

begin a r
begin a q
 begin\tb  p\r
offer a A
fork a c
resume a
tree a
resume a
show c
offer c B
tree c
offer b A
resume b
tree b
fork b d
resume b
resume b
tree b
fork b b
fork e b
forget b
tree b
fork d b
resume d
show b
resume
show b b
offer z Z
~
error: missing start
error: unreadable
error: unknown start r
a input-needed 1
b input-needed 0
a handling-error 1
c handling-error 1
a rejected
error: wrong phase: rejected
error: wrong phase: rejected
c handling-error 1
error: wrong phase: handling-error
error: wrong phase: handling-error
b shifting 0 A
b about-to-reduce 2 p -> A
error: wrong phase: about-to-reduce
d about-to-reduce 2 p -> A
b accepted
error: wrong phase: accepted
b [p: A]
error: name taken
error: unknown name
b forgotten
error: unknown name
b about-to-reduce 2 p -> A
d accepted
b about-to-reduce 2 p -> A
error: unreadable
error: unreadable
error: unknown token Z
~
";

#[test]
fn each_reply_is_that_of_its_branch(rt: HostRuntime) -> Result<(), Fail> {
    check_cases(rt.alloc(), REPLIES)
}

// A branch that is fed stops at a refusal, and where the run accepts. In the last case `p` accepts after a reduction
// that looks at `Z`, so that `Z` is offered and not shifted.
const FED: &str = "0 --session g.mly
~
g.mly
%token A EOF
%start s
%%
s: A EOF {}
~
begin a
stack a
feed a A
stack a
fork a b
feed b A EOF
stack b
resume b
feed b A
feed a EOF
stack a
tree a
feed a A
begin c
feed c A EOF A
begin d
feed d A A EOF
show d
begin e
offer e A
feed e EOF
stack e
feed f A
stack f
feed f Z
feed e A Z Y
feed e
feed
feed e s:A
stack e A
~
a input-needed 0
a stack
a fed 1 input-needed 1
a stack A
b input-needed 1
b fed 0 handling-error 1
b stack A
b rejected
error: wrong phase: rejected
a fed 1 accepted
a stack s
a [s: A EOF]
error: wrong phase: accepted
c input-needed 0
c fed 2 accepted
d input-needed 0
d fed 1 handling-error 1
d handling-error 1
e input-needed 0
e shifting 0 A
error: wrong phase: shifting
e stack
error: unknown name
error: unknown name
error: unknown token Z
error: unknown token Z
error: unreadable
error: unreadable
error: unreadable
error: unreadable
~
^
0 --session g.mly
~
g.mly
%token PLUS INT LP RP EOF
%start main
%%
main: e EOF {}
e: e PLUS t {} | t {}
t: INT {} | LP e RP {}
~
begin a
feed a LP INT PLUS INT PLUS LP INT
stack a
feed a RP RP
stack a
feed a RP EOF
stack a
~
a input-needed 0
a fed 7 input-needed 6
a stack LP e PLUS LP e
a fed 2 input-needed 4
a stack e
a fed 0 handling-error 4
a stack e
~
^
0 --session g.mly
~
g.mly
%token A B Z
%start p q
%%
p: a {}
q: a Z {}
a: A {} | A B {}
~
begin a p
feed a A Z B
stack a
tree a
begin b q
feed b A Z B
stack b
begin c p
feed c A B Z
~
a input-needed 0
a fed 1 accepted
a stack p
a [p: [a: A]]
b input-needed 1
b fed 2 accepted
b stack q
c input-needed 0
c fed 2 accepted
~
menhir: warning: end-of-stream conflict in state 2
";

#[test]
fn a_branch_is_fed(rt: HostRuntime) -> Result<(), Fail> {
    check_cases(rt.alloc(), FED)
}

/// A list that recurses at the right, so that each token makes the stack higher.
const CHAIN: &str = "g.mly
%token A B
%start s
%%
s: A s {} | B {}
";

// After 4,000 tokens, one more is too deep, and the branch stays as it was.
const DEEP: &str = "0 --session g.mly
~
begin a
`0..4000 offer a A
resume a
`feed a A
show a
offer a A
resume a
show a
~
...

a input-needed 1
error: too deep
a input-needed 1
a shifting 1 A
error: too deep
a shifting 1 A
~
";

#[test]
fn a_step_may_be_too_deep(rt: HostRuntime) -> Result<(), Fail> {
    check_cases_with(rt.alloc(), CHAIN, DEEP)
}

// If forks copied stacks, they would copy 2,000,000,000 entries.
const FORKS: &str = "0 --session g.mly
~
begin a
`0..4000 offer a A
resume a
``1..500001 fork a n@
`forget a
show n1
show n500000
~
...

n500000 input-needed 1
a forgotten
n1 input-needed 1
n500000 input-needed 1
~
";

#[test]
fn half_a_million_forks_of_a_deep_stack(rt: HostRuntime) -> Result<(), Fail> {
    check_cases_with(rt.alloc(), CHAIN, FORKS)
}
