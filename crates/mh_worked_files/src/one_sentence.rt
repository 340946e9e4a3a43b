//! The grammar of one sentence, `A EOF`, and the table file of its automaton.

/// The grammar file.
pub const ONE_SENTENCE: &str = "%token A EOF\n%start s\n%%\ns: A EOF {}\n";

/// The table file of the merged automaton.
pub const ONE_SENTENCE_TABLE: &str = "menhir-tables 2 merged
tokens A EOF
costs 1 1
starts s
productions 1
s -> A EOF
states 4
state 0
item 0 0 #
edge A 1
edge s 2
cell A shift 1
state 1
item 1 1 #
edge EOF 3
cell EOF shift 3
state 2
item 0 1 #
default accept
state 3
item 1 2 #
default reduce 1
end
";
