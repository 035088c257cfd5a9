//! What the definitions of a trace come to, each law the contract of a function that does nothing.
ghost use Rattle.std.specs.Prelude.{◌≡◌, ◌≢◌, ◌+◌, ◌≤◌, ◌∷◌, ◌++◌, [], ℕ, List, Err, IsTrue};
ghost use Rattle.std.specs.Prelude.{drop, filter, length, not, take};
ghost use Rattle.std.specs.List.{concat, list_all};
ghost use Rattle.trace_text.specs.declared.fault.EventFault.TheVariants.{BadWord};
ghost use Rattle.trace_text.specs.Trace.{text_meaning};
ghost use Rattle.trace_text.specs.Words.{is_space, table_of, words_of};

/// The lines of a trace, one after another, are the trace.
pub use sel_text::laws::lines_are_the_text as lines_are_the_trace;

/// The words of a line, one after another, are the line without its spaces.
pub fn words_are_the_line()
    ensures { (text : List ℕ) → concat (words_of text) ≡ filter (λ byte. not (is_space byte)) text }
{}

/// A bad word is one of the line's words, or the missing one behind the last.
pub fn bad_words_are_of_the_line()
    ensures { (text : List ℕ) (word : ℕ) → text_meaning text ≡ Err (BadWord word)
        → (1 ≤ word) × (word ≤ length (words_of text) + 1) }
{}

/// Nothing behind a bad word counts: a line with the same words up to it has the same bad word.
pub fn bad_words_rest_on_no_later_word()
    ensures { (text other : List ℕ) (word : ℕ) → text_meaning text ≡ Err (BadWord word)
        → take word (words_of other) ≡ take word (words_of text)
        → text_meaning other ≡ Err (BadWord word) }
{}

/// The table of a line is the rest of it from the third word on, without the spaces at its ends. A
/// line with fewer words has the empty table.
pub fn tables_are_the_rest_of_the_line()
    ensures words { (text : List ℕ) → words_of (table_of text) ≡ drop 2 (words_of text) }
    ensures place { (text : List ℕ) → (before : List ℕ) × (after : List ℕ)
        × (text ≡ before ++ (table_of text ++ after)) × IsTrue (list_all is_space after) }
    ensures first { (text rest : List ℕ) → table_of text ≢ 32 ∷ rest }
    ensures last { (text rest : List ℕ) → table_of text ≢ rest ++ 32 ∷ [] }
{}
