//! The texts of LR(1) items. Each `write_` function appends to a text.
ghost use Rattle.std.specs.Prelude.{◌≡◌, ◌≤◌, ◌++◌, codes, OnOk};
ghost use Rattle.std.specs.List.{All};
ghost use Rattle.mh_grammar.specs.Plain.{plain_of};
ghost use Rattle.mh_items_kernels.specs.Kernels.{IsKernelItem};
ghost use Rattle.mh_resolve_cells.specs.Names.{look_name};
ghost use Rattle.mh_report_notation.specs.ItemTexts.{looks_after, item_text, item_line, item_lines};

use mh_grammar::{Grammar, Look, Memory, token_name};
use mh_grammar_texts::write_sides;
use mh_items_kernels::KernelItem;
use mh_sets::TokenSet;

/// The name of a lookahead symbol: the name of a token, or `#` for the end of the stream.
pub fn look_name(grammar: &Grammar, look: Look) -> &[u8]
    ensures { result.now ≡ look_name grammar.now look }
{
    match look {
        Look::Token(token) => token_name(grammar, token),
        Look::End => b"#",
    }
}

fn write_looks<const W: usize>(
    text: &mut Vec<u8>,
    grammar: &Grammar,
    looks: &TokenSet<W>,
) -> Result<(), Memory>
    requires few { W ≤ 8 }
    ensures { OnOk result (text.new.items ≡ text.old.items ++ looks_after grammar.now looks.now) }
{
    for look in looks.looks() {
        text.push(b' ')?;
        text.extend_from_slice(look_name(grammar, look))?;
    }
    Ok(())
}

/// Appends a lookahead set in brackets.
fn write_brackets<const W: usize>(
    text: &mut Vec<u8>,
    grammar: &Grammar,
    looks: &TokenSet<W>,
) -> Result<(), Memory>
    requires few { W ≤ 8 }
    ensures { OnOk result (text.new.items ≡ text.old.items
        ++ (codes " [" ++ looks_after grammar.now looks.now ++ codes " ]")) }
{
    text.extend_from_slice(b" [")?;
    write_looks(text, grammar, looks)?;
    text.extend_from_slice(b" ]")?;
    Ok(())
}

/// Appends an item with its lookahead set.
fn write_item<const W: usize>(
    text: &mut Vec<u8>,
    grammar: &Grammar,
    item: &KernelItem<W>,
) -> Result<(), Memory>
    requires few { W ≤ 8 }
    requires item { IsKernelItem (plain_of grammar.now) item.now }
    ensures { OnOk result (text.new.items ≡ text.old.items ++ item_text grammar.now item.now) }
{
    write_sides(text, grammar, item.production, Some(item.dot))?;
    write_brackets(text, grammar, &item.looks)
}

fn write_item_line<const W: usize>(
    text: &mut Vec<u8>,
    grammar: &Grammar,
    front: &[u8],
    item: &KernelItem<W>,
) -> Result<(), Memory>
    requires few { W ≤ 8 }
    requires item { IsKernelItem (plain_of grammar.now) item.now }
    ensures { OnOk result (text.new.items ≡ text.old.items ++ item_line front.now grammar.now item.now) }
{
    text.extend_from_slice(front)?;
    write_item(text, grammar, item)?;
    text.push(b'\n')?;
    Ok(())
}

/// Appends items, one a line, each with the prefix `front`. Fails only if memory runs out; some of the lines may be
/// written then.
pub fn write_item_lines<const W: usize>(
    text: &mut Vec<u8>,
    grammar: &Grammar,
    front: &[u8],
    items: &[KernelItem<W>],
) -> Result<(), Memory>
    requires few { W ≤ 8 }
    requires items { All (IsKernelItem (plain_of grammar.now)) items.now }
    ensures { OnOk result (text.new.items ≡ text.old.items
        ++ item_lines front.now grammar.now items.now) }
{
    for item in items {
        write_item_line(text, grammar, front, item)?;
    }
    Ok(())
}
