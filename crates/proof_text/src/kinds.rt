//! What arguments a rule takes.
ghost use Rattle.std.specs.Prelude.{◌≡◌};
ghost use Rattle.proof_text.specs.RuleNames.{has_inner, kinds_of};

use u_rules::Rule;

/// What an argument is.
#[derive(Clone, Copy, Debug, PartialEq, Eq)]
pub enum Kind {
    /// A closed term.
    Term,
    /// A term in which the places of the rule's own sums may dangle.
    Body,
    /// A closed value.
    Value,
    /// Closed values.
    Values,
    Num,
}

/// The kinds of the arguments of a rule.
pub fn kinds_of(rule: Rule) -> &'static [Kind]
    ensures { result.now ≡ kinds_of rule }
{
    match rule {
        Rule::AddAc => &[Kind::Term, Kind::Term],
        Rule::MulAc => &[Kind::Term, Kind::Term],
        Rule::MulZero => &[Kind::Term],
        Rule::Distr => &[Kind::Term, Kind::Term, Kind::Term],
        Rule::SqZero => &[],
        Rule::SqOne => &[Kind::Term],
        Rule::SqAdd => &[Kind::Term, Kind::Term],
        Rule::SqMul => &[Kind::Term, Kind::Term],
        Rule::SqDup => &[Kind::Term],
        Rule::SqAbs => &[Kind::Term],
        Rule::SqFix => &[Kind::Term],
        Rule::SqPart => &[Kind::Term, Kind::Term],
        Rule::SqEq => &[Kind::Value, Kind::Value],
        Rule::SqPred => &[Kind::Num, Kind::Values],
        Rule::NotZero => &[],
        Rule::NotOne => &[],
        Rule::NotMul => &[Kind::Term, Kind::Term],
        Rule::NotAdd => &[Kind::Term, Kind::Term],
        Rule::NotSq => &[Kind::Term],
        Rule::SqNot => &[Kind::Term],
        Rule::NotSelf => &[Kind::Term],
        Rule::NotNot => &[Kind::Term],
        Rule::Split => &[Kind::Term],
        Rule::SumZero => &[],
        Rule::SumAdd => &[Kind::Body, Kind::Body],
        Rule::SumSwap => &[Kind::Num, Kind::Num, Kind::Body],
        Rule::SumMul => &[Kind::Term, Kind::Body],
        Rule::SumSq => &[Kind::Body],
        Rule::SumPoint => &[Kind::Value, Kind::Body],
        Rule::SumUse => &[Kind::Value, Kind::Body],
        Rule::EqRefl => &[Kind::Value],
        Rule::EqSym => &[Kind::Value, Kind::Value],
        Rule::EqSubst => &[Kind::Value, Kind::Value, Kind::Body],
        Rule::EqSplit => &[Kind::Value, Kind::Value],
        Rule::Key => &[Kind::Num, Kind::Num, Kind::Values, Kind::Values],
        Rule::Fkey => &[Kind::Num, Kind::Values],
    }
}

/// Whether inner steps follow.
pub fn has_inner(rule: Rule) -> bool
    ensures { result ≡ has_inner rule }
{
    matches!(rule, Rule::SqFix)
}
