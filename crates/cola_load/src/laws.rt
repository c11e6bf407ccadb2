//! What the definitions say in plain terms. Each function does nothing: its clauses are the law.
ghost use Rattle.std.specs.Prelude.{◌≡◌, ◌≤◌, ◌⊎◌, ℕ, All, length, List, [], ◌∷◌, ◌++◌, Some, None, codes};
ghost use Rattle.cola_cell.specs.declared.format.Format.{Format};
ghost use Rattle.cola_cell.specs.declared.format.Format.TheVariants.{One, Two};
ghost use Rattle.cola_shapes.specs.Shapes.{shape_of};
ghost use Rattle.cola_spec.specs.Map.{Shape};
ghost use Rattle.cola_spec.specs.Lines.{Line, Text, TooLong};
ghost use Rattle.cola_spec.specs.Laws.{Rises};
ghost use Rattle.cola_spec.specs.Spelling.{IsKeyWord, IsValueWord};
ghost use Rattle.cola_load.specs.declared.said.Said.TheVariants.{Nothing, Row, End, Other};
ghost use Rattle.cola_load.specs.declared.answer.Word.{Word};
ghost use Rattle.cola_load.specs.declared.answer.Word.TheVariants.{Bad, Order, Full};
ghost use Rattle.cola_load.specs.declared.answer.RowLine.{RowLine};
ghost use Rattle.cola_load.specs.declared.answer.RowLine.TheVariants as answer;
ghost use Rattle.cola_load.specs.Said.{said};
ghost use Rattle.cola_load.specs.Rows.{PairFits, rows_of, word_of, word_behind, rows_said, standing, lines_before_word};
ghost use Rattle.cola_load.specs.Judged.{AllJudged, Judged, Judging, rows_given, shape as limits, start, word_next};

/// Lines that are judged one after another, from the first on: the rows given are those of the list, and the word, if there is
/// one, is that of the list. The state stands for the lines before it.
pub fn judged_lines_are_the_list()
    ensures rows { (keys : ℕ) (format : Format) (lines : List Line) (answers : List RowLine)
        (state : Judging) →
        AllJudged (start keys format) lines answers state →
        rows_given answers ≡ rows_of (shape_of format keys) lines }
    ensures word { (keys : ℕ) (format : Format) (lines : List Line) (answers : List RowLine)
        (state : Judging) →
        AllJudged (start keys format) lines answers state →
        state.word ≡ word_of (shape_of format keys) lines }
    ensures stands { (keys : ℕ) (format : Format) (lines : List Line) (answers : List RowLine)
        (state : Judging) →
        AllJudged (start keys format) lines answers state →
        state.before ≡ standing (shape_of format keys)
        (lines_before_word (shape_of format keys) [] lines) }
{}

/// Where no line has a word, each row that is said is a row of the list, and one more line has its word behind them all. Where
/// one has, no line behind it adds a row or changes the word.
pub fn first_word_ends_the_rows()
    ensures all { (shape : Shape) (lines : List Line) → word_of shape lines ≡ None →
        rows_of shape lines ≡ rows_said shape lines }
    ensures next { (shape : Shape) (lines : List Line) (line : Line) → word_of shape lines ≡ None →
        word_of shape (lines ++ line ∷ []) ≡ word_behind shape lines line }
    ensures word { (shape : Shape) (lines more : List Line) (found : Word) →
        word_of shape lines ≡ Some found →
        word_of shape (lines ++ more) ≡ Some found }
    ensures rows { (shape : Shape) (lines more : List Line) (found : Word) →
        word_of shape lines ≡ Some found →
        rows_of shape (lines ++ more) ≡ rows_of shape lines }
{}

/// A row is given only where the line says it and has no word, and nothing only where the line is empty or an end with the
/// number of the rows before it.
pub fn answers_tell_lines()
    ensures row { (old new : Judging) (line : Line) (key value : List ℕ) →
        Judged old line (answer.Row key value) new →
        (said (limits old) line ≡ Row key value) × (word_next old line ≡ None) }
    ensures nothing { (old new : Judging) (line : Line) → Judged old line answer.Nothing new →
        (said (limits old) line ≡ Nothing) ⊎ (said (limits old) line ≡ End old.before.rows) }
{}

/// The keys of the rows of a list strictly rise, keys and values are within the limits of the shape, and there are at most as many
/// rows as it allows.
pub fn rows_rise()
    ensures rising { (shape : Shape) (lines : List Line) → Rises (rows_of shape lines) }
    ensures fitting { (shape : Shape) (lines : List Line) →
        All (PairFits shape) (rows_of shape lines) }
    ensures few { (shape : Shape) (lines : List Line) → length (rows_of shape lines) ≤ shape.limit }
{}

/// The line that a row is printed as says that row, where its key and its value can stand in a line and fit the shape.
pub fn printed_rows_are_read()
    ensures { (shape : Shape) (key value : List ℕ) → IsKeyWord shape key → IsValueWord shape value →
        said shape (Text (codes "row " ++ key ++ 32 ∷ value)) ≡ Row key value }
{}

/// What single lines say.
pub fn worked_lines()
    ensures row { said (shape_of One 9) (Text (codes "row a 1")) ≡ Row (codes "a") (codes "1") }
    ensures empty { said (shape_of One 9) (Text []) ≡ Nothing }
    ensures empty_value { said (shape_of One 9) (Text (codes "row a ")) ≡ Row (codes "a") [] }
    ensures no_value { said (shape_of One 9) (Text (codes "row a")) ≡ Other }
    ensures no_key { said (shape_of One 9) (Text (codes "row  1")) ≡ Other }
    ensures two_spaces { said (shape_of One 9) (Text (codes "row a  b")) ≡ Other }
    ensures two_values { said (shape_of One 9) (Text (codes "row a b c")) ≡ Other }
    ensures other_verb { said (shape_of One 9) (Text (codes "put a 1")) ≡ Other }
    ensures upper_case { said (shape_of One 9) (Text (codes "Row a 1")) ≡ Other }
    ensures space { said (shape_of One 9) (Text (codes " ")) ≡ Other }
    ensures nul { said (shape_of One 9) (Text (codes "row a " ++ 0 ∷ [])) ≡ Other }
    ensures too_long { said (shape_of One 9) TooLong ≡ Other }
    ensures key_of_24 { said (shape_of One 9) (Text (codes "row abcdefghijklmnopqrstuvwx 1"))
        ≡ Row (codes "abcdefghijklmnopqrstuvwx") (codes "1") }
    ensures key_of_25 { said (shape_of One 9)
        (Text (codes "row abcdefghijklmnopqrstuvwxy 1")) ≡ Other }
    ensures key_of_25_in_two { said (shape_of Two 9)
        (Text (codes "row abcdefghijklmnopqrstuvwxy 1"))
        ≡ Row (codes "abcdefghijklmnopqrstuvwxy") (codes "1") }
    ensures value_of_33 { said (shape_of One 9)
        (Text (codes "row a 123456789012345678901234567890123")) ≡ Other }
    ensures end { said (shape_of One 9) (Text (codes "end 12")) ≡ End 12 }
    ensures end_of_10 { said (shape_of One 9) (Text (codes "end 0000000012")) ≡ End 12 }
    ensures end_of_11 { said (shape_of One 9) (Text (codes "end 00000000012")) ≡ Other }
    ensures end_alone { said (shape_of One 9) (Text (codes "end")) ≡ Other }
    ensures end_without_a_number { said (shape_of One 9) (Text (codes "end ")) ≡ Other }
{}

/// The words of lists that break off, and the rows of one that does not.
pub fn worked_lists()
    ensures same_key { word_of (shape_of One 9)
        (Text (codes "row a 1") ∷ Text (codes "row a 2") ∷ []) ≡ Some (Order 2) }
    ensures lower_key { word_of (shape_of One 9)
        (Text (codes "row b 1") ∷ Text (codes "row ab 2") ∷ []) ≡ Some (Order 2) }
    ensures wrong_end { word_of (shape_of One 9)
        (Text (codes "row b 1") ∷ Text (codes "end 2") ∷ []) ≡ Some (Bad 2) }
    ensures full { word_of (shape_of One 1)
        (Text (codes "row a 1") ∷ Text [] ∷ Text (codes "row b 2") ∷ []) ≡ Some (Full 3) }
    ensures row_behind_end { word_of (shape_of One 9)
        (Text (codes "row k 1") ∷ Text (codes "end 1") ∷ Text (codes "row l 2") ∷ []) ≡ Some (Bad 3) }
    ensures end_behind_end { word_of (shape_of One 9)
        (Text (codes "end 0") ∷ Text (codes "end 0") ∷ []) ≡ Some (Bad 2) }
    ensures bad_before_order { word_of (shape_of One 9)
        (Text (codes "row k 1") ∷ Text (codes "end 1") ∷ Text (codes "row k 2") ∷ []) ≡ Some (Bad 3) }
    ensures order_before_full { word_of (shape_of One 1)
        (Text (codes "row b 1") ∷ Text (codes "row a 2") ∷ []) ≡ Some (Order 2) }
    ensures first_line_decides { word_of (shape_of One 9)
        (Text (codes "row b 1") ∷ Text (codes "row a 2") ∷ TooLong ∷ []) ≡ Some (Order 2) }
    ensures rows_before { rows_of (shape_of One 9)
        (Text (codes "row b 1") ∷ Text (codes "row a 2") ∷ Text (codes "row c 3") ∷ []) ≡
        (codes "b", codes "1") ∷ [] }
    ensures no_word { word_of (shape_of One 2)
        (Text (codes "row a 1") ∷ Text [] ∷ Text (codes "row b ") ∷ Text (codes "end 2") ∷ Text [] ∷ []) ≡
        None }
    ensures rows { rows_of (shape_of One 2)
        (Text (codes "row a 1") ∷ Text [] ∷ Text (codes "row b ") ∷ Text (codes "end 2") ∷ Text [] ∷ []) ≡
        (codes "a", codes "1") ∷ (codes "b", []) ∷ [] }
    ensures without_end { rows_of (shape_of One 2) (Text (codes "row a 1") ∷ [])
        ≡ (codes "a", codes "1") ∷ [] }
    ensures nothing { word_of (shape_of One 2) [] ≡ None }
{}
