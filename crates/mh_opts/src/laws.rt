//! Laws of the command line for a reader who knows nothing of clap, as functions that do nothing and whose contracts
//! state the laws.
ghost use Rattle.std.specs.Prelude.{◌≡◌, ◌<◌, Err, Ok, map, string_bytes, true};
ghost use Rattle.mh_opts.specs.declared.order.UsageFault.TheVariants.{Parse};
ghost use Rattle.mh_opts.specs.Options.{options};
ghost use Rattle.mh_opts.specs.Orders.{order_of};
ghost use Rattle.mh_opts.specs.GivenOptions.{FollowsOptions};
ghost use Rattle.mh_opts.specs.PosixReading.{at_most, files_in, is_listed, occurrences};

use crate::order::Order;

/// The grammar files of an order are the words that are neither options nor values of options, among them `-` alone,
/// and all words after `--`, in this order.
pub fn files_are_words(words: &[String], order: &Order)
    requires { order_of (map string_bytes words.now) ≡ Ok order.now }
    ensures { order.now.grammars ≡ files_in (map string_bytes words.now) }
{
    let _words = words;
    let _order = order;
}

/// Before `--`, an option may occur once, and `--compare-errors` twice. Words that contain an option more often are not
/// an order.
pub fn too_often_is_no_order(words: &[String], option: &str)
    requires listed { is_listed option.now options ≡ true }
    requires too_often { at_most option.now < occurrences option.now (map string_bytes words.now) }
    ensures { order_of (map string_bytes words.now) ≡ Err Parse }
{
    let _words = words;
    let _option = option;
}

/// One option among the words before `--` selects a mode, which is that of the order's job. The order has each other
/// setting exactly if the option of the setting is among these words.
pub fn options_are_words(words: &[String], order: &Order)
    requires { order_of (map string_bytes words.now) ≡ Ok order.now }
    ensures { FollowsOptions (map string_bytes words.now) order.now }
{
    let _words = words;
    let _order = order;
}
