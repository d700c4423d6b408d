// Small letters, and the class of a letter's symbol.
ghost use Rattle.std.specs.Prelude.{◌≡◌, eqb};
ghost use Rattle.lists.specs.Choice.{pick};
ghost use Rattle.value.specs.Symbol.{symbol_of, lowered, or_number};
ghost use Rattle.value.specs.Class.{symbol_class};

use crate::states::symbol_class;

// A capital letter's small one; any other byte is itself.
pub fn small_letter(value: u8) -> u8
    ensures { result ≡ lowered value }
{
    value.to_ascii_lowercase()
}

// One case more: where the letter is `name`, the class of its symbol; else the class so far.
fn with_case(class: u8, letter: u8, name: u8, symbol: u8) -> u8
    ensures { result ≡ pick (eqb letter name) (symbol_class symbol) class }
{
    let found = symbol_class(symbol);
    if letter == name {
        return found;
    }
    class
}

// The class of a letter's symbol, by cases of the letter; 3 where it has no symbol. No case ends the search, so the compiler can look at many
// letters at a time, and the class of each symbol is that of `symbol_class`, which packed values go by too. A match has neither.
pub fn letter_class(value: u8) -> u8
    ensures { result ≡ symbol_class (or_number 255 (symbol_of value)) }
{
    let letter = small_letter(value);
    let mut class: u8 = 3;
    class = with_case(class, letter, b'0', 0);
    class = with_case(class, letter, b'1', 1);
    class = with_case(class, letter, b'x', 2);
    class = with_case(class, letter, b'z', 3);
    class = with_case(class, letter, b'h', 4);
    class = with_case(class, letter, b'u', 5);
    class = with_case(class, letter, b'w', 6);
    class = with_case(class, letter, b'l', 7);
    class = with_case(class, letter, b'-', 8);
    class
}
