//! Filters: clauses of which one is to be met.
ghost use Rattle.std.specs.Prelude.{◌≡◌, ◌↔◌, ℕ, IsTrue, List, IfOk, IfErr, MatchResult, string_bytes};
ghost use Rattle.mr_mail.specs.Mail.{MailCard, IsCard, card_of};
ghost use Rattle.mr_filter.specs.Fault.{IsFaultOf};
ghost use Rattle.mr_filter.specs.Filter.{ClauseParts, IsFilter};
ghost use Rattle.std.specs.List.{list_any};
ghost use Rattle.mr_filter.specs.Grammar.{Reads, HasTrueClause, clauses_of};
ghost use Rattle.mr_filter.specs.Meaning.{selects, covers, is_as_wide};
ghost use Rattle.mr_filter.specs.Text.{IsFilterText};

use crate::clause::Clause;
use crate::fault::FilterFault;
use crate::pieces::{NO_CLAUSE, count_clauses, first_bad};
use crate::read::{is_crowded, read_clauses};
use crate::text::filter_text;
use mr_mail::{Card, Message, Place};
use std::alloc::{AllocError, Global};
use std::marker::Model;

/// The most clauses of a filter.
pub const MAX_CLAUSES: usize = 16;

/// At most sixteen clauses. A message is selected if it meets one of them; a filter with no clause
/// selects nothing, and a clause with no condition everything.
#[derive(Debug, Drop)]
pub struct Filter {
    clauses: Vec<Clause>,
}

impl Model for Filter {
    ghost use Rattle.std.specs.Prelude.{List};
    ghost use Rattle.mr_filter.specs.Filter.{ClauseParts, filter_code, IsFilter};

    ghost Value = { List ClauseParts };

    ghost coded = { filter_code };

    ghost view = { λ f. f.clauses.items };

    ghost invariant = { λ f. IsFilter f.clauses.items };
}

impl Filter {
    /// The filter with these clauses.
    pub fn new(clauses: Vec<Clause>) -> Filter
        requires { IsFilter clauses.items }
        ensures { result ≡ clauses.items }
    {
        Filter { clauses }
    }

    /// The clauses, in their order.
    pub fn clauses(&self) -> &[Clause]
        ensures value { result.now ≡ self.now }
        ensures kept { IsFilter self.now }
    {
        self.clauses.as_slice()
    }

    /// An equal filter.
    pub fn copy(&self) -> Result<Filter, AllocError>
        ensures { IfOk result (λ filter. filter ≡ self.now) }
    {
        Ok(Filter {
            clauses: copies(self.clauses.allocator().clone()?, self.clauses.as_slice())?,
        })
    }

    /// The filter that a text means. The text is `none`, or clauses with ` | ` between them; a clause
    /// is `all`, or conditions with ` & ` between them: `label:L`, `!label:L`, `flag:F`, `!flag:F`
    /// and `since:YYYY-MM-DD`, in any order and also again; of several days the latest counts.
    ///
    /// The faults are tried in this order: `BadFilter` at the first piece between two separators
    /// that is not in the grammar, as also `none` beside a clause or `all` beside a condition;
    /// `TooManyClauses` over sixteen; `TooManyLabels` where a clause names more than eight, those
    /// that it wants and those that it bars each once; and `OutOfMemory` last. The text is walked
    /// four times, and each label of it is sought among at most eight.
    ///
    /// The filter selects just the messages of which each condition of some clause of the text is true.
    #[tactic(auto, using(crate::proofs::SelectsLemmas::selects_by_text))]
    pub fn read(alloc: Global, text: &str) -> Result<Filter, FilterFault>
        ensures read { IfOk result (Reads text.now) }
        ensures selects { IfOk result (λ filter. (card : MailCard) → IsCard card
            → (IsTrue (selects filter card) ↔ HasTrueClause card (clauses_of text.now))) }
        ensures fault { IfErr result (IsFaultOf text.now) }
        ensures complete { (filter : List ClauseParts) → Reads text.now filter → IsFilter filter
            → MatchResult result (λ found. found ≡ filter) (λ fault. fault ≡ FilterFault.OutOfMemory) }
    {
        if let Some(place) = first_bad(text) {
            return Err(FilterFault::BadFilter(place));
        }
        if text == NO_CLAUSE {
            return Ok(Filter {
                clauses: Vec::new(alloc),
            });
        }
        if count_clauses(text) > MAX_CLAUSES {
            return Err(FilterFault::TooManyClauses);
        }
        if is_crowded(text) {
            return Err(FilterFault::TooManyLabels);
        }
        Ok(Filter {
            clauses: read_clauses(alloc, text)?,
        })
    }

    /// The filter's text: its clauses with ` | ` between them, or `none`. A clause is written as its
    /// conditions with ` & ` between them, or `all`: the wanted labels, the barred labels, the flags
    /// on, the flags off, and the first day unless it is 1970-01-01. So each filter has one text.
    pub fn text(&self) -> Result<String, AllocError>
        ensures written { IfOk result (λ text. IsFilterText self.now (string_bytes text)) }
        ensures only { IfOk result
            (λ text. (other : List ℕ) → IsFilterText self.now other → other ≡ string_bytes text) }
        ensures read { IfOk result (λ text. Reads (string_bytes text) self.now) }
    {
        filter_text(self.clauses.allocator().clone()?, self.clauses.as_slice())
    }

    /// Whether the message meets every condition of some clause.
    pub fn select(&self, message: &Message) -> bool
        ensures { result ≡ selects self.now (card_of message.now) }
    {
        is_met(self.clauses.as_slice(), message.place())
    }

    /// Whether a message with this card meets every condition of some clause.
    pub fn select_card(&self, card: &Card) -> bool
        ensures { result ≡ selects self.now card.now }
    {
        is_met(self.clauses.as_slice(), card.place())
    }

    /// Whether each clause of the other filter has a clause here whose conditions are all among that
    /// one's. Then this filter selects all that the other does; it may do so too where the clauses
    /// don't show it.
    pub fn covers(&self, other: &Filter) -> bool
        ensures value { result ≡ covers self.now other.now }
        ensures sound { IsTrue result → (card : MailCard)
            → IsTrue (selects other.now card) → IsTrue (selects self.now card) }
    {
        are_covered(self.clauses.as_slice(), other.clauses.as_slice())
    }
}

/// Equal clauses, in the same order.
fn copies(alloc: Global, clauses: &[Clause]) -> Result<Vec<Clause>, AllocError>
    ensures { IfOk result (λ copied. copied.items ≡ clauses.now) }
{
    let mut copied = Vec::with_capacity(alloc, clauses.len())?;
    for clause in clauses {
        copied.push(clause.copy()?)?;
    }
    Ok(copied)
}

/// Whether a message of this place meets one of the clauses.
fn is_met(clauses: &[Clause], place: &Place) -> bool
    ensures { result ≡ selects clauses.now place.now }
{
    clauses.iter().any(|clause| clause.is_met_by(place))
}

/// Whether one of the clauses is as wide as this one.
fn is_covered(clauses: &[Clause], narrow: &Clause) -> bool
    ensures { result ≡ list_any (λ wide. is_as_wide wide narrow.now) clauses.now }
{
    clauses.iter().any(|wide| wide.is_as_wide_as(narrow))
}

/// Whether each of the other clauses has one of these that is as wide.
fn are_covered(clauses: &[Clause], others: &[Clause]) -> bool
    ensures { result ≡ covers clauses.now others.now }
{
    others.iter().all(|narrow| is_covered(clauses, narrow))
}
