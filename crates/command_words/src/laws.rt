//! Laws of words.

ghost use Rattle.std.specs.Prelude.{◌≡◌, List};
ghost use Rattle.command_words.specs.Grammar.{Text};
ghost use Rattle.command_words.specs.Requests.{Asked, Asks};
ghost use Rattle.command_words.specs.Rows.{RowsComeOut};

/// Words ask for one request at most.
pub fn words_ask_for_one()
    ensures { (words : List Text) (r s : Asked) → Asks words r → Asks words s → r ≡ s }
{}

/// Words that are written out are read so.
pub fn rows_come_out()
    ensures { RowsComeOut }
{}
