//! Laws on bytes and their lexemes.
ghost use Rattle.std.specs.Prelude.{◌≡◌, ◌<◌, ◌++◌, ℕ, List, Option, None, Some};
ghost use Rattle.std.specs.List.{All};
ghost use Rattle.mh_lex.specs.declared.kinds.Kind.{Kind};
ghost use Rattle.mh_lex.specs.declared.kinds.Lexeme.{Lexeme};
ghost use Rattle.mh_lex.specs.InCode.{HasCode, SpansCode};
ghost use Rattle.mh_lex.specs.Lexing.{Lexes, Scanned};
ghost use Rattle.mh_lex.specs.LexemeTexts.{IsText, HasTextOfKind, laid_out, laid_out_lexemes, count_of_percents};

/// Law: all bytes have lexemes, up to the end or the first fault.
pub fn lexed_always()
    ensures { (bytes : List ℕ) → (lexemes : List Lexeme) × (f : Option ℕ) × Lexes bytes lexemes f }
{}

/// Law: the list of lexemes is unique, and so is the first fault.
pub fn lexemes_are_unique()
    ensures { (bytes : List ℕ) (one two : List Lexeme) (f g : Option ℕ)
        → Lexes bytes one f → Lexes bytes two g → (two ≡ one) × (g ≡ f) }
{}

/// Law: texts with a space after each are the lexemes of the file that they make, if at most one of them is `%%`.
pub fn spaced_texts_are_lexemes()
    ensures { (texts : List (Kind × List ℕ)) → All IsText texts → count_of_percents texts < 2
        → Lexes (laid_out texts) (laid_out_lexemes 0 texts) None }
{}

/// Law: each word, mark, `%%`, keyword and string among the lexemes of a file is a text of its kind.
pub fn lexed_texts()
    ensures { (bytes : List ℕ) (lexemes : List Lexeme) (f : Option ℕ)
        → Lexes bytes lexemes f → All (HasTextOfKind bytes) lexemes }
{}

/// Law: each action, header and attribute among the lexemes of a file is its opening and code, up to the first position
/// that closes it: strings, characters, words, quoted strings, comments, nested levels, and single bytes where none of
/// these begins.
pub fn lexed_code()
    ensures { (bytes : List ℕ) (lexemes : List Lexeme) (f : Option ℕ)
        → All (λ b. b < 256) bytes → Lexes bytes lexemes f → All (SpansCode bytes) lexemes }
{}

/// Law: an opening followed by closed code is lexed as one action, header or attribute.
pub fn code_is_taken()
    ensures { (kind : Kind) (text rest : List ℕ)
        → All (λ b. b < 256) (text ++ rest) → HasCode kind text rest → Scanned (text ++ rest) (Some kind) rest }
{}
