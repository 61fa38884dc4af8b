//! The pieces of a filter's text, and the first that is not in the grammar.
ghost use Rattle.std.specs.Prelude.{◌≡◌, ◌+◌, ◌≤◌, ◌∷◌, [], MatchOption, IfSome, length, slice_index};
ghost use Rattle.std.specs.Str.{IsUtf8};
ghost use Rattle.mr_filter.specs.Grammar.{cut_at, clauses_of, IsClauseInGrammar, IsFirstBadPiece, IsInGrammar, IsFirstBad};

use crate::condition::condition_of;

/// What stands between two clauses.
pub(crate) const OR: &str = " | ";

/// What stands between two conditions of a clause.
pub(crate) const AND: &str = " & ";

/// The text of a filter with no clause.
pub(crate) const NO_CLAUSE: &str = "none";

/// The text of a clause with no condition.
pub(crate) const NO_CONDITION: &str = "all";

/// The front of a text up to the first separator, and what follows that separator.
pub(crate) fn cut<'a>(text: &'a str, separator: &str) -> (&'a str, Option<&'a str>)
    requires { separator.now ≡ 32 ∷ slice_index separator.now 1 ∷ 32 ∷ [] }
    ensures pieces { MatchOption result.1
        (cut_at (slice_index separator.now 1) text.now ≡ result.0.now ∷ [])
        (λ rest. cut_at (slice_index separator.now 1) text.now
        ≡ result.0.now ∷ cut_at (slice_index separator.now 1) rest.now) }
    ensures text { IfSome result.1 (λ rest. IsUtf8 rest.now) }
    ensures last { MatchOption result.1 (result.0.now ≡ text.now)
        (λ rest. length result.0.now + 3 + length rest.now ≡ length text.now) }
{
    match text.split_once(separator) {
        Some((piece, rest)) => (piece, Some(rest)),
        None => (text, None),
    }
}

/// How many clauses the text has.
pub(crate) fn count_clauses(text: &str) -> usize
    ensures { result ≡ length (clauses_of text.now) }
{
    let mut count = 1;
    let mut rest = text;
    loop {
        let (_, more) = cut(rest, OR);
        let Some(next) = more else {
            return count;
        };
        count += 1;
        rest = next;
    }
}

/// The place of a clause's first piece that is not in the grammar: the bytes before it.
fn first_bad_piece(clause: &str) -> Option<usize>
    ensures found { MatchOption result (IsClauseInGrammar clause.now) (IsFirstBadPiece clause.now) }
    ensures within { IfSome result (λ place. place ≤ length clause.now) }
{
    if clause == NO_CONDITION {
        return None;
    }
    let mut place = 0;
    let mut rest = clause;
    loop {
        let (piece, more) = cut(rest, AND);
        if condition_of(piece).is_none() {
            return Some(place);
        }
        let next = more?;
        place += piece.len() + AND.len();
        rest = next;
    }
}

/// The place of a text's first piece that is not in the grammar: the bytes before it.
pub(crate) fn first_bad(text: &str) -> Option<usize>
    ensures { MatchOption result (IsInGrammar text.now) (IsFirstBad text.now) }
{
    if text == NO_CLAUSE {
        return None;
    }
    let mut place = 0;
    let mut rest = text;
    loop {
        let (clause, more) = cut(rest, OR);
        if let Some(in_clause) = first_bad_piece(clause) {
            return Some(place + in_clause);
        }
        let next = more?;
        place += clause.len() + OR.len();
        rest = next;
    }
}
