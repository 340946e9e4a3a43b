//! A law on keywords.
ghost use Rattle.std.specs.Prelude.{◌≡◌, ℕ, List, Some};
ghost use Rattle.mh_lex_bytes.specs.declared.keywords.Keyword.{Keyword};
ghost use Rattle.mh_lex_bytes.specs.Keywords.{keyword_named};

/// Law: no two words are the same keyword.
pub fn keywords_differ()
    ensures { (one two : List ℕ) (keyword : Keyword)
        → keyword_named one ≡ Some keyword → keyword_named two ≡ Some keyword → two ≡ one }
{}
