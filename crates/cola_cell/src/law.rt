//! Laws of the spellings: functions that do nothing, whose contracts state them.
ghost use Rattle.std.specs.Prelude.{ℕ, List};
ghost use Rattle.cola_cell.specs.declared.format.Format.{Format};
ghost use Rattle.cola_cell.specs.Spelling.{Decodes};
ghost use Rattle.cola_cell.specs.Decoded.{decoded};
ghost use Rattle.cola_cell.specs.Laws.{DecodingGivesBack, SpellingIsOne, CellIsOne, DecodingIsDecoded, DecodedGivesBack};

/// What was encoded is decoded as the same cell, in each format.
pub fn decoding_gives_back()
    ensures { DecodingGivesBack }
{}

/// A cell has one spelling in a format.
pub fn spelling_is_one()
    ensures { SpellingIsOne }
{}

/// Bytes spell one cell in a format.
pub fn cell_is_one()
    ensures { CellIsOne }
{}

/// The cell that bytes spell in a format, as a function of them: it is what decoding answers, and where the
/// bytes are the spelling of a cell it is that cell.
pub fn decoding_is_a_function()
    ensures decodes { (format : Format) (bytes : List ℕ) →
        Decodes format bytes (decoded format bytes) }
    ensures answer { DecodingIsDecoded }
    ensures gives_back { DecodedGivesBack }
{}
