//! What is asked for.
ghost use Rattle.std.specs.Prelude.{◌≡◌, ℕ, MatchOption};
ghost use Rattle.uc_bench.specs.Requests.{word_of, limit_of, texts_of, IsWithin, Spells, AsksBy, Asks};
ghost use Rattle.uc_bench.specs.declared.request.Kind.{Kind as PlainKind};
ghost use Rattle.uc_bench.specs.declared.request.Request.{Request as PlainRequest};

use uc_base::read_decimal;

/// A kind of code.
#[derive(Clone, Copy, Debug, PartialEq, Eq)]
pub(crate) enum Kind {
    Applications,
    Bindings,
    Cases,
}

/// Code of a kind and a size.
#[derive(Clone, Copy, Debug, PartialEq, Eq)]
pub(crate) struct Request {
    pub(crate) kind: Kind,
    pub(crate) count: u32,
}

impl Kind {
    /// The word of the command line.
    pub(crate) fn word(self) -> &'static str
        ensures { result.now ≡ word_of self }
    {
        match self {
            Kind::Applications => "applications",
            Kind::Bindings => "bindings",
            Kind::Cases => "cases",
        }
    }

    fn limit(self) -> u32
        ensures { result ≡ limit_of self }
    {
        match self {
            Kind::Applications => 100_000,
            Kind::Bindings => 400,
            Kind::Cases => 100_000,
        }
    }
}

/// The kind of a word.
fn kind_of(word: &str) -> Option<Kind>
    ensures { MatchOption result ((kind : PlainKind) → word.now ≡ word_of kind → ⊥) (λ kind. word.now ≡ word_of kind) }
{
    if word == "applications" {
        Some(Kind::Applications)
    } else if word == "bindings" {
        Some(Kind::Bindings)
    } else if word == "cases" {
        Some(Kind::Cases)
    } else {
        None
    }
}

/// The count that a word spells, where so many may be asked for.
fn count_of(kind: Kind, word: &str) -> Option<u32>
    ensures { MatchOption result ((count : ℕ) → Spells word.now count → IsWithin kind count → ⊥) (λ count. Spells word.now count × IsWithin kind count) }
{
    match read_decimal(word.as_bytes()) {
        Some(count) => {
            if 0 < count && count <= kind.limit() as u64 {
                Some(count as u32)
            } else {
                None
            }
        }
        None => None,
    }
}

/// What two words ask for.
fn request_by(kind: &str, count: &str) -> Option<Request>
    ensures { MatchOption result ((request : PlainRequest) → AsksBy kind.now count.now request → ⊥) (AsksBy kind.now count.now) }
{
    match kind_of(kind) {
        Some(kind) => match count_of(kind, count) {
            Some(count) => Some(Request { kind, count }),
            None => None,
        },
        None => None,
    }
}

/// What the words of the command line ask for.
pub(crate) fn request_of(words: &[String]) -> Option<Request>
    ensures { MatchOption result ((request : PlainRequest) → Asks (texts_of words.now) request → ⊥) (Asks (texts_of words.now)) }
{
    match words {
        [kind, count] => request_by(kind.as_str(), count.as_str()),
        _ => None,
    }
}
