//! The spread of looks from nonterminal to nonterminal.
ghost use Rattle.std.specs.Prelude.{◌≡◌, ◌≤◌, ℕ, length, vec_len, OnOk};
ghost use Rattle.mh_grammar.specs.Plain.{plain_of};
ghost use Rattle.mh_items_kernels.specs.KernelTypes.{Kernel as KernelOf};
ghost use Rattle.mh_items.specs.code.PendingLooks.{ArePendingLooks, IsWaiting, AreQueued, AreAllWaiting};
ghost use Rattle.mh_items.specs.Firsts.{AreFirsts};
ghost use Rattle.mh_items.specs.code.ClosureLooks.{AreKernelLooks, AreClosureLooks};

use crate::first_sets::Firsts;
use crate::pending_looks::PendingLooks;
use mh_grammar::{Grammar, Memory};

/// Visits the queued nonterminals until none is waiting. The looks that come from the kernel's items grow to the looks
/// of its closure.
pub(crate) fn spread<const W: usize>(
    grammar: &Grammar,
    firsts: &Firsts<W>,
    set: &mut PendingLooks<W>,
) -> Result<(), Memory>
    requires few { W ≤ 8 }
    requires firsts { AreFirsts (plain_of grammar.now) firsts.now }
    requires table { ArePendingLooks set.old }
    requires size { vec_len set.old.looks ≡ length grammar.now.nonterminals }
    requires queued { AreQueued 0 set.old }
    requires seeds { AreAllWaiting set.old }
    ensures table { OnOk result (ArePendingLooks set.new) }
    ensures size { OnOk result (vec_len set.new.looks ≡ vec_len set.old.looks) }
    ensures none_waits { OnOk result ((n : ℕ) → IsWaiting set.new n → ⊥) }
    ensures wanted { OnOk result ((kernel : KernelOf) → AreKernelLooks (plain_of grammar.now) kernel set.old → AreClosureLooks (plain_of grammar.now) kernel set.new) }
{
    // Only the contract uses the grammar.
    let _grammar = grammar;
    let mut done = 0;
    while done < set.queue.len() {
        let n = usize::from(set.queue[done]);
        set.waiting[n] = false;
        let looks = set.looks[n].copied();
        set.visit(firsts.links[n].as_slice(), &looks)?;
        done += 1;
    }
    Ok(())
}
