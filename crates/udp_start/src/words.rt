//! The words that ask for a proof.
ghost use Rattle.std.specs.Prelude.{◌≡◌, ℕ, MatchOption, decimal};
ghost use Rattle.udp_start.specs.Words.{AsksNoProof, IsBudget, IsProve};

use itoa::Buffer;

/// How many pairings of two blocks are tried where the words do not say it.
const DEFAULT_BUDGET: u64 = 1_000_000;

/// Of which case a proof is asked for.
#[derive(Clone, Copy, Debug)]
pub struct ProofWords<'a> {
    pub case: &'a str,
    /// How many pairings of two blocks are tried.
    pub budget: u64,
}

/// What the words `prove CASE` or `prove CASE --budget N` ask for, if they are of this form.
pub fn proof_words(words: &[String]) -> Option<ProofWords<'_>>
    ensures { MatchOption result (AsksNoProof words.now) (λ asked. IsProve words.now asked.case.now asked.budget) }
{
    match words {
        [verb, case] if verb.as_str() == "prove" => Some(ProofWords {
            case: case.as_str(),
            budget: DEFAULT_BUDGET,
        }),
        [verb, case, option, number] if verb.as_str() == "prove" && option.as_str() == "--budget" =>
            {
                Some(ProofWords {
                    case: case.as_str(),
                    budget: budget(number.as_str())?,
                })
            }
        _ => None,
    }
}

// The number that the word is, if it is one of at least 1 without leading zeros.
fn budget(word: &str) -> Option<u64>
    ensures { MatchOption result ((n : ℕ) → IsBudget n → word.now ≡ decimal n → ⊥) (λ n. IsBudget n × (word.now ≡ decimal n)) }
{
    let mut buffer = Buffer::new();
    match word.parse::<u64>() {
        Ok(number) if number > 0 && buffer.format(number) == word => Some(number),
        _ => None,
    }
}
