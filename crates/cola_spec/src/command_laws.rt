//! The laws of commands: which texts spell one, how a line is read, and that the line of each
//! command asks it. Each function does nothing: its clauses are the law.

ghost use Rattle.std.specs.Prelude.{ℕ, ◌≡◌, ◌≢◌, ◌≤◌, ◌<◌, ◌↔◌, true, List, [], ◌∷◌, ◌++◌, Option, Some, None, length, map, All};
ghost use Rattle.std.specs.List.{flat_map};
ghost use Rattle.cola_spec.specs.Map.{Shape, is_key, is_value};
ghost use Rattle.cola_spec.specs.Lines.{Text, TooLong, line_limit, line_of, raw_lines};
ghost use Rattle.cola_spec.specs.Command.{Command, command_of, line_requests, requests};
ghost use Rattle.cola_spec.specs.Reply.{line};
ghost use Rattle.cola_spec.specs.Spelling.{IsAskable, IsOneLine, Spells, command_lines, command_text};

/// A text is a command exactly where it spells it, so it spells one at most. A key has 1 to as
/// many bytes as the shape allows, a value up to as many.
pub fn commands_are_spelt()
    ensures spelt { (shape : Shape) (text : List ℕ) (command : Command) →
        (command_of shape text ≡ Some command) ↔ Spells shape command text }
    ensures key { (shape : Shape) (key : List ℕ) →
        (is_key shape key ≡ true) ↔ ((1 ≤ length key) × (length key ≤ shape.key_limit)) }
    ensures value { (shape : Shape) (value : List ℕ) →
        (is_value shape value ≡ true) ↔ (length value ≤ shape.value_limit) }
{}

/// The text of a command that fits the shape is that command, and no text asks any other. With
/// keys of at most 40 bytes and values of at most 72 it has at most 139 bytes, within the limit
/// of a line, and the lines of commands ask these commands and nothing else.
pub fn commands_are_read_back()
    ensures text { (shape : Shape) (command : Command) → IsAskable shape command →
        command_of shape (command_text command) ≡ Some command }
    ensures askable { (shape : Shape) (command : Command) →
        ((text : List ℕ) × (command_of shape text ≡ Some command)) ↔ IsAskable shape command }
    ensures short { (shape : Shape) (command : Command) → shape.key_limit ≤ 40 →
        shape.value_limit ≤ 72 → IsAskable shape command → length (command_text command) ≤ 139 }
    ensures lines { (shape : Shape) (commands : List Command) → shape.key_limit ≤ 40 →
        shape.value_limit ≤ 72 → All (IsAskable shape) commands →
        All (λ command. IsOneLine (command_text command)) commands →
        requests shape (raw_lines (command_lines commands)) ≡ map Some commands }
{}

/// A line of more than 160 bytes before its end is too long, and every other is read as its bytes without one
/// carriage return at their end. Texts without a line feed that are written as lines are read as these lines.
pub fn lines_are_read()
    ensures limit { line_limit ≡ 160 }
    ensures too_long { (raw : List ℕ) → 160 < length raw → line_of raw ≡ TooLong }
    ensures empty { line_of [] ≡ Text [] }
    ensures return_dropped { (text : List ℕ) → length text < 160 →
        line_of (text ++ 13 ∷ []) ≡ Text text }
    ensures kept { (text : List ℕ) (byte : ℕ) → byte ≢ 13 → length text < 160 →
        line_of (text ++ byte ∷ []) ≡ Text (text ++ byte ∷ []) }
    ensures written { (texts : List (List ℕ)) → All IsOneLine texts →
        raw_lines (flat_map line texts) ≡ texts }
{}

/// An empty line asks nothing. Every other line asks one thing: its command, or, as a line that is too long does, none.
pub fn lines_ask()
    ensures empty { (shape : Shape) → line_requests shape (Text []) ≡ [] }
    ensures command { (shape : Shape) (byte : ℕ) (bytes : List ℕ) →
        line_requests shape (Text (byte ∷ bytes)) ≡ command_of shape (byte ∷ bytes) ∷ [] }
    ensures too_long { (shape : Shape) → line_requests shape TooLong ≡ None ∷ [] }
    ensures in_order { (shape : Shape) (front rest : List (List ℕ)) →
        requests shape (front ++ rest) ≡ requests shape front ++ requests shape rest }
    ensures one { (shape : Shape) (raw : List ℕ) →
        requests shape (raw ∷ []) ≡ line_requests shape (line_of raw) }
{}
