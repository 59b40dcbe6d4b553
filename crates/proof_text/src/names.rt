//! The names of rules.
ghost use Rattle.std.specs.Prelude.{◌≡◌, ◌≤◌, length};
ghost use Rattle.u_deriv.specs.StepText.{rule_text};

use u_rules::Rule;

/// The name that a rule has in a proof.
pub fn name_of(rule: Rule) -> &'static str
    ensures text { result.now ≡ rule_text rule }
    ensures short { length result.now ≤ 40 }
{
    match rule {
        Rule::AddAc => "add_ac",
        Rule::MulAc => "mul_ac",
        Rule::MulZero => "mul_zero",
        Rule::Distr => "distr",
        Rule::SqZero => "sq_zero",
        Rule::SqOne => "sq_one",
        Rule::SqAdd => "sq_add",
        Rule::SqMul => "sq_mul",
        Rule::SqDup => "sq_dup",
        Rule::SqAbs => "sq_abs",
        Rule::SqFix => "sq_fix",
        Rule::SqPart => "sq_part",
        Rule::SqEq => "sq_eq",
        Rule::SqPred => "sq_pred",
        Rule::NotZero => "not_zero",
        Rule::NotOne => "not_one",
        Rule::NotMul => "not_mul",
        Rule::NotAdd => "not_add",
        Rule::NotSq => "not_sq",
        Rule::SqNot => "sq_not",
        Rule::NotSelf => "not_self",
        Rule::NotNot => "not_not",
        Rule::Split => "split",
        Rule::SumZero => "sum_zero",
        Rule::SumAdd => "sum_add",
        Rule::SumSwap => "sum_swap",
        Rule::SumMul => "sum_mul",
        Rule::SumSq => "sum_sq",
        Rule::SumPoint => "sum_point",
        Rule::SumUse => "sum_use",
        Rule::EqRefl => "eq_refl",
        Rule::EqSym => "eq_sym",
        Rule::EqSubst => "eq_subst",
        Rule::EqSplit => "eq_split",
        Rule::Key => "key",
        Rule::Fkey => "fkey",
    }
}
