// The text of a table of initial values.
ghost use Rattle.std.specs.Prelude.{◌<◌};

use init_table::InitTable;
use std::alloc::{AllocError, Global};

/// The number that stands at a place of the text below.
fn number_at(place: u32) -> i32 {
    (place % 256) as i32 - 128
}

/// A text of so many numbers, with blanks of each kind between them.
fn numbers(alloc: Global, count: u32) -> Result<String, AllocError> {
    let mut text = String::new(alloc);
    for place in 0..count {
        let blanks = match place % 4 {
            0 => " ",
            1 => "\t",
            2 => "\r\n",
            _ => "  \n",
        };
        write!(text, "{blanks}{}", number_at(place))?;
    }
    Ok(text)
}

fn is_flat(text: &str) -> bool {
    match InitTable::of(text) {
        Ok(table) => table.pair(0, 0) == (0, 64) && table.pair(459, 3) == (0, 64),
        Err(_) => false,
    }
}

/// Whether a text is a table that has its numbers at their places.
fn has_numbers(text: &str) -> bool {
    let Ok(table) = InitTable::of(text) else {
        return false;
    };
    for ctx in 0u16..460 {
        for column in 0u8..4 {
            let place = 8 * u32::from(ctx) + 2 * u32::from(column);
            let (m, n) = table.pair(ctx, column);
            if i32::from(m) != number_at(place) || i32::from(n) != number_at(place + 1) {
                return false;
            }
        }
    }
    true
}

/// Whether a text fails at this number.
fn fails_at(text: &str, place: u32) -> bool {
    match InitTable::of(text) {
        Ok(_) => false,
        Err(refusal) => refusal.at == place,
    }
}

/// Texts of no table, and the first number of each that is none.
const REFUSED: [(&str, u32); 17] = [
    ("", 0),
    (" \n", 0),
    ("x 1", 0),
    ("1 2 x", 2),
    ("0 -0 007 127 -128", 5),
    ("0 128", 1),
    ("0 -129", 1),
    ("0 0001", 1),
    ("0 -", 1),
    ("0 +1", 1),
    ("0 1-", 1),
    ("0 --1", 1),
    ("1\u{c}2", 0),
    ("flat 1", 0),
    ("flat flat", 0),
    ("Flat", 0),
    ("1 flat", 1),
];

#[test]
fn texts_are_read_as_tables(rt: HostRuntime) -> Result<(), AllocError> {
    for text in ["flat", " flat", "\tflat\r\n"] {
        assert!(rt; is_flat(text), "{text:?}");
    }
    for (text, place) in &REFUSED {
        assert!(rt; fails_at(text, *place), "{text:?}");
    }
    assert!(rt; has_numbers(numbers(rt.alloc(), 3680)?.as_str()));
    assert!(rt; fails_at(numbers(rt.alloc(), 3679)?.as_str(), 3679));
    assert!(rt; fails_at(numbers(rt.alloc(), 3681)?.as_str(), 3680));
    Ok(())
}
