// The text of a table.
ghost use Rattle.std.specs.Prelude.{◌≡◌, ◌≢◌, ℕ, ◌<◌, List, ◌∷◌, Some, None, MatchBool, MatchOption, MatchResult, length, pos, slice_set, slice_index_or};
ghost use Rattle.init_table.specs.InitTable.{pair_of, pair_with, number_in};
ghost use Rattle.init_table.specs.TableText.{IsFlat, IsTableOf, IsTableText, FailsAt, number_of, number_at, words};

use crate::numbers::number;
use crate::table::{BadTable, InitTable};
use crate::words::first_word;

/// How many numbers a table has: two for each column of each context.
const NUMBERS: usize = 3680;

impl InitTable {
    /// Reads the text of a table: the word `flat`, which gives each pair as (0, 64), or 3,680 numbers from -128 to 127, for
    /// each context the four columns, of each column m and then n. Blanks stand between words: spaces, tabs, line feeds and
    /// carriage returns.
    pub fn of(text: &str) -> Result<InitTable, BadTable>
        ensures { MatchResult result
            (IsTableOf text.now)
            (λ refusal. FailsAt text.now refusal.at) }
    {
        let text = text.as_bytes();
        if says_flat(text) {
            return Ok(InitTable::flat());
        }
        InitTable::of_numbers(text)
    }

    /// The table of the text `flat`.
    fn flat() -> InitTable
        ensures { (ctx column : ℕ) → ctx < 460 → column < 4 → pair_of result ctx column ≡ (pos 0, pos 64) }
    {
        InitTable {
            pairs: [[(0, 64); 4]; 460],
        }
    }

    /// Reads the text of a table that writes its numbers.
    fn of_numbers(text: &[u8]) -> Result<InitTable, BadTable>
        requires { IsFlat text.now → ⊥ }
        ensures { MatchResult result
            (λ table. IsTableText text.now (pair_of table))
            (λ refusal. FailsAt text.now refusal.at) }
    {
        let mut table = InitTable {
            pairs: [[(0, 0); 4]; 460],
        };
        let mut rest = text;
        for place in 0..NUMBERS {
            let Some((value, behind)) = first_number(rest) else {
                return Err(BadTable { at: place as u32 });
            };
            table.set_number(place, value);
            rest = behind;
        }
        match first_word(rest) {
            Some(_) => Err(BadTable { at: 3680 }),
            None => Ok(table),
        }
    }

    /// The pair (m, n) of a context in a column.
    pub fn pair(&self, ctx: u16, column: u8) -> (i8, i8)
        requires ctx { ctx < 460 }
        requires column { column < 4 }
        ensures { result ≡ pair_of self.now ctx column }
    {
        self.pairs[usize::from(ctx)][usize::from(column)]
    }

    /// Puts one of the numbers of the table, by its place among them.
    fn set_number(&mut self, place: usize, value: i8)
        requires { place < 3680 }
        ensures same { number_in self.new.pairs place ≡ value }
        ensures others { (other : ℕ) → other < 3680 → other ≢ place → number_in self.new.pairs other ≡ number_in self.old.pairs other }
    {
        let (ctx, column) = (place / 8, place / 2 % 4);
        self.pairs[ctx] = with_number(self.pairs[ctx], column, place % 2 == 0, value);
    }
}

/// The pairs of a context, in one of which m or n is another number.
fn with_number(row: [(i8, i8); 4], column: usize, is_m: bool, value: i8) -> [(i8, i8); 4]
    requires { column < 4 }
    ensures width { length row ≡ 4 }
    ensures row { result ≡ slice_set row column (pair_with is_m value (slice_index_or row column (pos 0, pos 0))) }
{
    let mut row = row;
    let (m, n) = row[column];
    row[column] = if is_m { (value, n) } else { (m, value) };
    row
}

/// The text is the word `flat`.
fn says_flat(text: &[u8]) -> bool
    ensures { MatchBool result (IsFlat text.now) (IsFlat text.now → ⊥) }
{
    match first_word(text) {
        Some((b"flat", rest)) => first_word(rest).is_none(),
        _ => false,
    }
}

/// The number that the first word of a text writes, and the text behind it. None where there is none.
fn first_number(text: &[u8]) -> Option<(i8, &[u8])>
    ensures { MatchOption result (number_at text.now 0 ≡ None) (λ parts. (word : List ℕ) × (words text.now ≡ word ∷ words parts.1.now) × (number_of word ≡ Some parts.0)) }
{
    let (word, rest) = first_word(text)?;
    Some((number(word)?, rest))
}
